//! How the opener of a `JobQueue` lends a caller to the body. `specs/Callers` says what the opener
//! has before and after.
ghost use Rattle.std.specs.Prelude.{◌≡◌, ◌≤◌};
ghost use Rattle.std.specs.Fn.{FnOnceReturnsAtMut};
ghost use Rattle.worker_pool.specs.Callers.{IsCaller, StaysCaller, started_of};

use crate::caller::Caller;
use crate::job::Job;
use crate::lists::Lists;
use crate::opening::opener_state::OpenerState;
use crate::opening::start::Opening;
use crate::queues::job_queue::JobQueue;
use crate::queues::job_queue::job_seat::JobSeat;
use crate::working::pool::Pool;
use event_count::WaitPoint;
use run_queue::Rows;
use std::alloc::Allocator;
use std::sync::Wait;

/// The work of the opener: it lends a caller to the body.
#[derive(Drop)]
pub(crate) struct LendsCaller<'p, RT, J, A, W, R, L, F>
where
    J: Job<A>,
    A: Allocator + Clone,
    W: WaitPoint<A>,
    R: Rows<J, A>,
    L: Lists<J::Out, A>,
    F: Drop,
{
    pub(crate) rt: &'p RT,
    pub(crate) pool: &'p Pool<J, A, JobQueue<W, R>>,
    pub(crate) ctx: &'p J::Ctx,
    pub(crate) opener: OpenerState<J, A, JobSeat<J, A, W, R>, L>,
    pub(crate) body: F,
}

// The parameters stand in the order of `with_pool`'s parameters: a bound on a function that takes a
// caller is passed on from there only in that order.
impl<'p, W, R, L, RT, J, A, F> Opening for LendsCaller<'p, RT, J, A, W, R, L, F>
where
    RT: Wait,
    J: Job<A>,
    A: Allocator + Clone,
    W: WaitPoint<A>,
    R: Rows<J, A>,
    L: Lists<J::Out, A>,
    F: FnOnce(&mut Caller<'_, J, A, W, R, L>) + Drop,
{
    ghost use Rattle.std.specs.Fn.{FnOnceReturnsAtMut};
    ghost use Rattle.worker_pool.specs.Callers.{IsCaller, StaysCaller, IsToLend, IsLent};
    ghost use Rattle.worker_pool.specs.Callers.{started_of};
    ghost use Rattle.worker_pool.specs.Seats.{HasStop};

    type State = OpenerState<J, A, JobSeat<J, A, W, R>, L>;

    ghost may_begin = { λ lends started.
        HasStop R.Rows W.WaitPoint lends.pool.now.queue lends.pool.now.stop.shared
        × IsToLend R.Rows W.WaitPoint L.Lists lends.pool.now.queue lends.opener
        × (started ≤ lends.pool.now.queue.workers)
        × ((caller : _) → IsCaller R.Rows W.WaitPoint J.Job L.Lists caller.now
        → started_of caller.now ≡ started
        → F.pre lends.body caller)
        × ((before : _) → (after : _)
        → FnOnceReturnsAtMut F.FnOnce lends.body before tt after
        → IsCaller R.Rows W.WaitPoint J.Job L.Lists before
        → started_of before ≡ started
        → StaysCaller R.Rows W.WaitPoint J.Job L.Lists before after) };

    ghost has_left = { λ lends started opener. (before : _) × (after : _)
        × FnOnceReturnsAtMut F.FnOnce lends.body before tt after
        × IsLent R.Rows W.WaitPoint L.Lists J.Job lends.pool.now.queue lends.ctx.now started
        before after opener };

    /// Calls the body with a caller, and then stores that the pool is closing, so that the workers
    /// end.
    fn run(self, started: u32) -> OpenerState<J, A, JobSeat<J, A, W, R>, L> {
        let LendsCaller {
            rt,
            pool,
            ctx,
            mut opener,
            body,
        } = self;
        opener.seats.started = started;
        opener.cancelled = false;
        let mut caller = Caller {
            queue: &pool.queue,
            stop: &pool.stop.shared,
            alloc: &pool.alloc,
            ctx,
            opener,
        };
        call(&mut caller, body);
        let Caller {
            queue: _,
            stop: _,
            alloc: _,
            ctx: _,
            mut opener,
        } = caller;
        let (cancelled, seat) = (opener.cancelled, &mut opener.seats.seat);
        seat.tell_all(rt, &pool.queue, &pool.stop.shared, cancelled);
        opener
    }
}

/// Calls the body with the caller.
fn call<W, R, L, J, A, F>(caller: &mut Caller<'_, J, A, W, R, L>, body: F)
where
    J: Job<A>,
    A: Allocator + Clone,
    W: WaitPoint<A>,
    R: Rows<J, A>,
    L: Lists<J::Out, A>,
    F: FnOnce(&mut Caller<'_, J, A, W, R, L>),
    requires caller { IsCaller R.Rows W.WaitPoint J.Job L.Lists caller.old }
    requires body { (lent : _) → IsCaller R.Rows W.WaitPoint J.Job L.Lists lent.now
        → started_of lent.now ≡ started_of caller.old
        → F.pre body lent }
    requires stays { (before : _) → (after : _)
        → FnOnceReturnsAtMut F.FnOnce body before tt after
        → IsCaller R.Rows W.WaitPoint J.Job L.Lists before
        → started_of before ≡ started_of caller.old
        → StaysCaller R.Rows W.WaitPoint J.Job L.Lists before after }
    ensures called { FnOnceReturnsAtMut F.FnOnce body caller.old tt caller.new }
    ensures stays { StaysCaller R.Rows W.WaitPoint J.Job L.Lists caller.old caller.new }
{
    body(caller);
}
