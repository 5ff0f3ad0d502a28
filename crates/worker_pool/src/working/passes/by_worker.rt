//! How a worker passes jobs on.
ghost use Rattle.std.specs.Prelude.{◌<◌};

use crate::queues::queue::Queue;
use crate::working::passes::Passes;
use std::alloc::Allocator;
use std::marker::PhantomData;
use std::sync::Wait;

/// A worker's way: jobs go to the front of its own row.
pub(crate) struct ByWorker<A, Q>(PhantomData<(A, Q)>);

impl<J, A: Allocator, Q: Queue<J, A>> Passes<J> for ByWorker<A, Q> {
    ghost use Rattle.std.specs.Prelude.{ℕ};

    type Place = Q;

    type Passer = Q::Seat;

    ghost is_ready = { λ queue seat. Q.is_ready queue seat
        × (Q.row_number (Q.row_of seat) < Q.worker_count queue) };

    // The worker itself, in its next turn.
    ghost has_taker = { λ _. Unit {0} };

    ghost Kept = { ℕ × ℕ };

    ghost kept_of = { λ seat. (Q.row_number (Q.row_of seat), Q.stored_of seat) };

    ghost keeps_accounts = { Q.keeps_accounts };

    ghost puts_of = { λ seat. Q.puts_of (Q.row_of seat) };

    ghost takes_of = { λ seat. Q.takes_of (Q.row_of seat) };

    /// Passes the job to the front of the worker's own row. Returns the job if the row is full.
    fn pass<RT: Wait>(rt: &RT, queue: &Q, seat: &mut Q::Seat, job: J) -> Result<(), J> {
        queue.put_front(rt, seat, job)
    }
}
