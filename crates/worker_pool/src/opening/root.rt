//! How the opener of any queue schedules one job, calls a function, and lets the workers end.

use crate::job::Job;
use crate::lists::Lists;
use crate::noted::Noted;
use crate::opening::opener_state::{OpenerState, end, schedule};
use crate::opening::start::Opening;
use crate::queues::queue::Queue;
use crate::working::pool::Pool;
use std::alloc::Allocator;
use std::snapshot::Snapshot;
use std::sync::Wait;

/// What a thread has scheduled, and its seat at the queue. It takes no memory: contracts alone see
/// it.
#[derive(Drop)]
pub struct Scheduled<J, S> {
    jobs: Snapshot<Noted<J>>,
    seat: Snapshot<S>,
}

/// The work of the opener: it schedules the root, and then calls `then`.
#[derive(Drop)]
pub(crate) struct SchedulesRoot<'p, RT, J, A, Q, L, F>
where
    J: Job<A> + Drop,
    A: Allocator + Clone,
    Q: Queue<J, A>,
    L: Lists<J::Out, A>,
    F: Drop,
{
    pub(crate) rt: &'p RT,
    pub(crate) pool: &'p Pool<J, A, Q>,
    pub(crate) ctx: &'p J::Ctx,
    pub(crate) opener: OpenerState<J, A, Q::Seat, L>,
    pub(crate) root: J,
    pub(crate) then: F,
}

impl<'p, RT, J, A, Q, L, F> Opening for SchedulesRoot<'p, RT, J, A, Q, L, F>
where
    RT: Wait,
    J: Job<A> + Drop,
    A: Allocator + Clone,
    Q: Queue<J, A>,
    L: Lists<J::Out, A>,
    F: FnOnce(Scheduled<J, Q::Seat>) + Drop,
{
    ghost use Rattle.worker_pool.specs.OpenerStates.{IsFresh};
    ghost use Rattle.worker_pool.specs.Scheduled.{HasScheduledIn, HasRunRoot};

    type State = OpenerState<J, A, Q::Seat, L>;

    ghost may_begin = { λ opening started.
        IsFresh Q.Queue L.Lists opening.pool.now opening.opener
        × ((scheduled : _)
        → HasScheduledIn Q.Queue opening.pool.now.queue opening.root scheduled
        → F.pre opening.then scheduled) };

    ghost has_left = { λ opening started opener.
        HasRunRoot Q.Queue J.Job L.Lists opening.pool.now opening.ctx.now opening.root opener };

    fn run(self, started: u32) -> OpenerState<J, A, Q::Seat, L> {
        let SchedulesRoot {
            rt,
            pool,
            ctx,
            mut opener,
            root,
            then,
        } = self;
        opener.seats.started = started;
        opener.cancelled = false;
        schedule::<_, _, _, Q, L>(rt, &pool.queue, &pool.alloc, ctx, &mut opener, root);
        then(Scheduled {
            jobs: Snapshot::of(&opener.noted),
            seat: Snapshot::of(&opener.seats.seat),
        });
        end::<_, _, _, Q, L>(rt, pool, &mut opener);
        opener
    }
}
