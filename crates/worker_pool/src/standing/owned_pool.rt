//! A pool and the context of its jobs, as a workplace that threads own. A worker's turns are those
//! of `working/worker.rt`; no gate is called before them.

use crate::gate::NoGate;
use crate::job::Job;
use crate::opening::start::Workplace;
use crate::queues::queue::Queue;
use crate::working::pool::Pool;
use crate::working::worker::{WorkerState, take_turns};
use std::alloc::Allocator;
use std::sync::Wait;

/// A pool, and the context of its jobs.
#[derive(Drop)]
pub(crate) struct OwnedPool<J, A, Q>
where
    J: Job<A>,
    J::Ctx: Drop,
    A: Allocator,
    Q: Queue<J, A>,
{
    pub(crate) pool: Pool<J, A, Q>,
    pub(crate) ctx: J::Ctx,
}

impl<J, A, Q> Workplace<WorkerState<J, A, Q>> for OwnedPool<J, A, Q>
where
    J: Job<A>,
    J::Ctx: Drop,
    A: Allocator + Clone,
    Q: Queue<J, A>,
{
    ghost use Rattle.worker_pool.specs.Works.{IsAtWork, HasEnded};

    ghost is_at_work = { λ owned state.
        IsAtWork Q.Queue J.Job owned.pool owned.ctx state };

    ghost has_ended = { λ owned before after. HasEnded Q.Queue owned.pool before after };

    fn work<RT: Wait>(&self, rt: &RT, state: WorkerState<J, A, Q>) -> WorkerState<J, A, Q> {
        take_turns(rt, &self.pool, &self.ctx, &NoGate, state)
    }
}
