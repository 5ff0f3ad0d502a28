//! A standing pool whose rows and wait point stand on one event count, so that the law
//! `jobs_are_not_slept_on` of `waking_rows` speaks of it.
ghost use Rattle.std.specs.Prelude.{◌≡◌, ◌↔◌, [], IfOk, IsErrOf};
ghost use Rattle.worker_pool.specs.Setup.{IsPoolSize, IsNoPoolSize, AreNoPartitions};
ghost use Rattle.worker_pool.specs.Standing.{roots_in, ctx_of, queue_in};

use crate::job::Job;
use crate::lists::VecLists;
use crate::queues::counted_queue::CountedQueue;
use crate::setup::{PoolFault, Setup};
use crate::standing::standing_pool::{StandingPool, Stands};
use std::alloc::Allocator;
use std::sync::Wait;
use std::thread::Threads;

/// A standing pool over one event count: no job lies forgotten in a row while all workers sleep.
pub type CountedPool<J, A> = StandingPool<J, A, CountedQueue<J, A>, VecLists>;

/// Opens a pool over one event count. A worker whose thread cannot be started takes no part.
pub fn open_counted<RT, J, A>(
    rt: &RT,
    alloc: A,
    setup: &Setup<A>,
    ctx: J::Ctx,
) -> Result<CountedPool<J, A>, PoolFault>
where
    RT: Threads + Wait + Copy + Send + 'static,
    J: Job<A> + Drop + Send + 'static,
    J::Ctx: Drop + Send + Sync + 'static,
    J::Out: Send + 'static,
    J::Abandoned: Send + 'static,
    A: Allocator + Clone + Send + Sync + 'static,
    ensures bad_workers { IsErrOf result PoolFault.BadWorkers ↔ IsNoPoolSize setup.now.workers }
    ensures bad_partition { IsErrOf result PoolFault.BadPartition
        ↔ (IsPoolSize setup.now.workers
        × AreNoPartitions setup.now.workers setup.now.partitions.items) }
    ensures standing { IfOk result ⟦<CountedPool<J, A> as Stands>⟧.is_standing }
    ensures no_roots { IfOk result (λ pool. roots_in pool ≡ []) }
    ensures ctx { IfOk result (λ pool. ctx_of pool ≡ ctx) }
    ensures workers { IfOk result (λ pool. (queue_in pool).workers ≡ setup.now.workers) }
{
    StandingPool::open(rt, alloc, setup, ctx)
}
