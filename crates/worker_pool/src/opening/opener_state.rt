//! The state of the opener (the thread that opened a pool), and what the opener does with it:
//! schedule jobs, and let the workers end. `specs/OpenerStates` says what the opener has.
ghost use Rattle.std.specs.Prelude.{◌≡◌, ◌<◌, [], ◌∷◌, ◌++◌};
ghost use Rattle.worker_pool.specs.OpenerStates.{IsOpener, IsKept, roots_by};
ghost use Rattle.worker_pool.specs.Stops.{closing_word};
ghost use Rattle.worker_pool.specs.Works.{IsPool};

use crate::job::Job;
use crate::lists::Lists;
use crate::noted::Noted;
use crate::queues::queue::Queue;
use crate::working::passes::{ByOpener, OpenerSeat, Passes};
use crate::working::pool::Pool;
use crate::working::run::begin;
use std::alloc::Allocator;
use std::sync::Wait;

/// The seat of the opener, and the outs and refusals of the jobs that it ran itself.
#[derive(Drop)]
pub(crate) struct OpenerState<J, A, S, L>
where
    J: Job<A>,
    A: Allocator,
    S: Drop,
    L: Lists<J::Out, A>,
{
    pub(crate) seats: OpenerSeat<S>,
    /// The jobs that were scheduled.
    pub(crate) noted: Noted<J>,
    pub(crate) outs: L::List,
    pub(crate) refused: u64,
    /// Whether the pool was cancelled.
    pub(crate) cancelled: bool,
}

/// Schedules a job. It is passed on, or it runs at once on this thread.
pub(crate) fn schedule<RT, J, A, Q, L>(
    rt: &RT,
    queue: &Q,
    alloc: &A,
    ctx: &J::Ctx,
    opener: &mut OpenerState<J, A, Q::Seat, L>,
    job: J,
)
where
    RT: Wait,
    J: Job<A>,
    A: Allocator + Clone,
    Q: Queue<J, A>,
    L: Lists<J::Out, A>,
    requires some { 0 < Q.worker_count queue.now }
    requires opener { IsOpener Q.Queue J.Job L.Lists queue.now ctx.now opener.old }
    ensures opener { IsOpener Q.Queue J.Job L.Lists queue.now ctx.now opener.new }
    ensures more { roots_by opener.new ≡ roots_by opener.old ++ job ∷ [] }
    ensures kept { IsKept Q.Queue opener.old opener.new }
{
    opener.noted.add(&job);
    let Err(job) = ByOpener::<A, Q>::pass(rt, queue, &mut opener.seats, job) else {
        return;
    };
    let refused = begin::<_, _, _, L, ByOpener<A, Q>>(
        rt,
        alloc,
        ctx,
        queue,
        &mut opener.seats,
        &mut opener.outs,
        job,
    );
    opener.refused = opener.refused.saturating_add(refused);
}

/// Stores that the pool is closing, and wakes all workers. A cancelled pool stays cancelled.
pub(crate) fn end<RT, J, A, Q, L>(
    rt: &RT,
    pool: &Pool<J, A, Q>,
    opener: &mut OpenerState<J, A, Q::Seat, L>,
)
where
    RT: Wait,
    J: Job<A>,
    A: Allocator,
    Q: Queue<J, A>,
    L: Lists<J::Out, A>,
    requires pool { IsPool Q.Queue pool.now }
    requires ready { Q.is_ready pool.now.queue opener.old.seats.seat }
    ensures ready { Q.is_ready pool.now.queue opener.new.seats.seat }
    ensures closing { Q.stored_of opener.new.seats.seat ≡ closing_word opener.old.cancelled }
    ensures row { Q.row_of opener.new.seats.seat ≡ Q.row_of opener.old.seats.seat }
    ensures noted { opener.new.noted ≡ opener.old.noted }
    ensures outs { opener.new.outs ≡ opener.old.outs }
    ensures refused { opener.new.refused ≡ opener.old.refused }
    ensures cancelled { opener.new.cancelled ≡ opener.old.cancelled }
{
    let cancelled = opener.cancelled;
    pool.queue
        .stop_all(rt, &pool.stop, &mut opener.seats.seat, cancelled);
}
