//! Opening the rows and the point of a `JobQueue`, separately.
ghost use Rattle.std.specs.Prelude.{◌≡◌, ◌+◌, ◌≤◌, [], map, All, IfOk};
ghost use Rattle.std.specs.List.{range_with_len};
ghost use Rattle.run_queue.specs.Limits.{most_rows};
ghost use Rattle.worker_pool.specs.Seats.{IsRowOf, IsIdle};
ghost use Rattle.worker_pool.specs.Setup.{IsPoolSize};

use event_count::{CountFault, WaitPoint};
use run_queue::{Rows, RowsFault};
use std::alloc::{AllocError, Allocator};

/// Opens rows for the given number of workers, and one seat more.
pub(super) fn open_rows<J, A, R>(
    alloc: &A,
    workers: u16,
) -> Result<(R, Vec<R::Seat, A>), AllocError>
where
    A: Allocator + Clone,
    R: Rows<J, A>,
    requires { workers ≤ most_rows }
    ensures rows { IfOk result (λ made. R.row_count made.0 ≡ workers) }
    ensures many { IfOk result (λ made. R.seat_count made.0 ≡ workers + 1) }
    ensures ours { IfOk result (λ made. All (IsRowOf R.Rows made.0) made.1.items) }
    ensures numbers { IfOk result (λ made.
        map R.number_of made.1.items ≡ range_with_len 0 (workers + 1)) }
    ensures unused { R.keeps_accounts → IfOk result (λ made.
        All (λ row. (R.puts_of row ≡ []) × (R.takes_of row ≡ [])) made.1.items) }
{
    match R::open(alloc.clone()?, workers, 1) {
        Ok(opened) => Ok(opened),
        Err(RowsFault::NoMemory) => Err(AllocError),
        Err(RowsFault::TooManyRows) => unreachable!(),
    }
}

/// Opens a point at which the given number of workers can wait, and one seat more.
pub(super) fn open_point<A, W>(alloc: &A, workers: u16) -> Result<(W, Vec<W::Seat, A>), AllocError>
where
    A: Allocator + Clone,
    W: WaitPoint<A>,
    requires { IsPoolSize workers }
    ensures waiters { IfOk result (λ made. W.waiter_count made.0 ≡ workers) }
    ensures many { IfOk result (λ made. W.seat_count made.0 ≡ workers + 1) }
    ensures idle { IfOk result (λ made. All (IsIdle W.WaitPoint made.0) made.1.items) }
    ensures numbers { IfOk result (λ made.
        map W.number_of made.1.items ≡ range_with_len 0 (workers + 1)) }
{
    match W::open(alloc.clone()?, workers, 1) {
        Ok(opened) => Ok(opened),
        Err(CountFault::NoMemory) => Err(AllocError),
        Err(CountFault::TooManyWaiters) => unreachable!(),
    }
}
