//! A pool as the workplace of its workers. It joins `start.rt`, which knows no pools, with
//! `working/worker.rt`.

use crate::gate::Gate;
use crate::job::Job;
use crate::opening::start::Workplace;
use crate::queues::queue::Queue;
use crate::working::pool::Pool;
use crate::working::worker::{WorkerState, take_turns};
use std::alloc::Allocator;
use std::sync::Wait;

/// A pool, the context of its jobs, and the gate that is called before each turn of a worker.
#[derive(Drop)]
pub(crate) struct PoolWorkplace<'p, J: Job<A>, A: Allocator, Q: Queue<J, A>, G> {
    pub(crate) pool: &'p Pool<J, A, Q>,
    pub(crate) ctx: &'p J::Ctx,
    pub(crate) gate: &'p G,
}

impl<'p, J, A, Q, G> Workplace<WorkerState<J, A, Q>> for PoolWorkplace<'p, J, A, Q, G>
where
    J: Job<A>,
    A: Allocator + Clone,
    Q: Queue<J, A>,
    G: Gate,
{
    ghost use Rattle.worker_pool.specs.Works.{IsAtWork, HasEnded};

    ghost is_at_work = { λ workplace state.
        IsAtWork Q.Queue J.Job workplace.pool.now workplace.ctx.now state };

    ghost has_ended = { λ workplace before after.
        HasEnded Q.Queue workplace.pool.now before after };

    fn work<RT: Wait>(&self, rt: &RT, state: WorkerState<J, A, Q>) -> WorkerState<J, A, Q> {
        take_turns(rt, self.pool, self.ctx, self.gate, state)
    }
}
