//! `CountedQueue`: rows and a wait point over one event count, as a `Queue`. Each call is a call of
//! `waking_rows`, whose laws say why no job is slept on.
ghost use Rattle.std.specs.Prelude.{◌≡◌, ◌+◌};
ghost use Rattle.waking_rows.specs.Points.{count_at, rows_at, waiters_at};
ghost use Rattle.waking_rows.specs.Seats.{place_of, rows_in, seats_in};

use crate::queues::queue::{NewQueue, OPEN, Queue, closing};
use std::alloc::{AllocError, Allocator};
use std::sync::Wait;
use steal_walk::Walk;
use waking_rows::{Rested, RowPoint, RowWaiter, WakingRows, WakingSeat, on_one_count};

/// Rows and a wait point over one event count, so that no job lies forgotten in a row while all
/// workers sleep. The count has the stop word, which doesn't say that a pool was cancelled: nobody
/// can cancel a pool with such a queue.
#[derive(Drop)]
pub struct CountedQueue<J, A: Allocator> {
    rows: WakingRows<J, A>,
    point: RowPoint<A>,
    workers: u16,
    ghost one_count: { (place_of rows).1 ≡ count_at point },
    ghost all_rows: { rows_in rows ≡ workers },
    ghost all_seats: { seats_in rows ≡ workers + 1 },
    ghost point_rows: { rows_at point ≡ workers },
    ghost waiters: { waiters_at point ≡ workers },
}

/// A thread's seats at the rows and at the wait point, and what it stored in the stop word.
#[derive(Drop)]
pub struct CountedSeat<J> {
    row: WakingSeat<J>,
    waker: RowWaiter,
    /// What the thread last stored in the stop word, or 0.
    stored: u64,
}

impl<J: Drop, A: Allocator + Clone> Queue<J, A> for CountedQueue<J, A> {
    ghost use Rattle.waking_rows.specs.Seats.{number_by, puts_by, takes_by};
    ghost use Rattle.worker_pool.specs.CountedSeats.{IsRowOf, IsWakerOf, IsReady, HasRested};
    ghost use Rattle.worker_pool.specs.CountedSeats.{HasPut, HasTaken, HasStopped, HasEnded};
    ghost use Rattle.worker_pool.specs.CountedSeats.{number_at};

    type Row = WakingSeat<J>;

    type Waker = RowWaiter;

    type Seat = CountedSeat<J>;

    type Stop = ();

    ghost worker_count = { λ queue. queue.workers };

    ghost has_stop = { λ _ _. Unit {0} };

    ghost is_row = { IsRowOf };

    ghost is_waker = { IsWakerOf };

    ghost is_ready = { IsReady };

    ghost row_number = { number_by };

    ghost waker_number = { number_at };

    ghost row_of = { λ seat. seat.row };

    ghost stored_of = { λ seat. seat.stored };

    ghost may_end = { HasEnded };

    ghost has_put = { HasPut };

    ghost has_taken = { HasTaken };

    ghost has_rested = { HasRested };

    ghost has_stopped = { HasStopped };

    ghost keeps_accounts = { Unit {0} };

    ghost puts_of = { puts_by };

    ghost takes_of = { takes_by };

    fn open(
        alloc: &A,
        workers: u16,
    ) -> Result<NewQueue<Self, (), Self::Row, Self::Waker, A>, AllocError> {
        let made = on_one_count(alloc, workers)?;
        let queue = CountedQueue {
            rows: made.rows,
            point: made.point,
            workers,
        };
        Ok(NewQueue {
            queue,
            stop: (),
            rows: made.row_seats,
            wakers: made.waiters,
        })
    }

    fn workers(&self) -> u16 {
        self.workers
    }

    fn seat(&self, _stop: &(), row: Self::Row, waker: Self::Waker) -> Self::Seat {
        CountedSeat {
            row,
            waker,
            stored: OPEN,
        }
    }

    fn put_front<RT: Wait>(&self, rt: &RT, seat: &mut Self::Seat, job: J) -> Result<(), J> {
        self.rows.push_front(rt, &mut seat.row, job)
    }

    fn put_back<RT: Wait>(
        &self,
        rt: &RT,
        seat: &mut Self::Seat,
        row: u16,
        job: J,
    ) -> Result<(), J> {
        self.rows.push_back(rt, &mut seat.row, row, job)
    }

    fn take_front<RT: Wait>(&self, _rt: &RT, seat: &mut Self::Seat) -> Option<J> {
        self.rows.pop_front(&mut seat.row)
    }

    fn take_back<RT: Wait>(&self, rt: &RT, seat: &mut Self::Seat, row: u16) -> Option<J> {
        self.rows.pop_back(rt, &mut seat.row, row)
    }

    fn is_cancelled(&self, _stop: &(), _seat: &mut Self::Seat) -> bool {
        false
    }

    fn rest<RT: Wait>(&self, rt: &RT, _stop: &(), seat: &mut Self::Seat, _walk: Walk) -> Rested {
        self.point.rest(rt, &mut seat.waker)
    }

    fn stop_all<RT: Wait>(&self, rt: &RT, _stop: &(), seat: &mut Self::Seat, cancelled: bool) {
        self.point.stop(rt, &mut seat.waker);
        seat.stored = closing(cancelled);
    }

    fn parts(&self, seat: Self::Seat) -> (Self::Row, Self::Waker) {
        let CountedSeat { row, waker, .. } = seat;
        (row, waker)
    }

    fn end(
        self,
        _stop: (),
        rows: &mut Vec<Self::Row, A>,
        _wakers: &mut Vec<Self::Waker, A>,
    ) -> Vec<J, A> {
        self.rows.close(rows)
    }
}
