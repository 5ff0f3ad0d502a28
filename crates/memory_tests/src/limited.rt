//! Pools that may be cancelled, and of which only some workers may be started. `tasks.rt` runs
//! them.
ghost use Rattle.worker_pool.specs.Callers.{IsCaller, StaysCaller};

use crate::kept_rows::KeptRows;
use crate::splits::{Ends, Splits};
use event_count::{EventCount, WaitPoint};
use run_queue::{Rows, SlotRows};
use std::alloc::Allocator;
use std::sync::Wait;
use std::thread::Threads;
use worker_pool::{
    Caller, Closed, Job, Lists, NoGate, PoolFault, Setup, VecLists, with_pool_limited,
};

/// When the jobs of a pool can be taken out of its rows.
#[derive(Clone, Copy, Debug)]
pub(crate) enum Taken {
    AnyTime,
    /// Only when the pool is closed.
    AtTheEnd,
}

/// A pool in which jobs are scheduled.
#[derive(Clone, Copy, Debug)]
pub(crate) struct Limited {
    pub(crate) workers: u32,
    /// The number below which workers are started.
    pub(crate) starts: u32,
    /// How many jobs are scheduled before the pool is cancelled. It is cancelled only if there are
    /// more jobs.
    pub(crate) first: u64,
    pub(crate) taken: Taken,
}

/// Runs a pool over slots on the first jobs and on jobs that are scheduled once it is cancelled,
/// and returns what it leaves.
pub(crate) fn run_jobs<RT, A>(
    rt: &RT,
    alloc: A,
    pool: Limited,
    ends: &Ends,
    first: Vec<Splits>,
    cancelled: Vec<Splits>,
) -> Result<Closed<Splits, A>, PoolFault>
where
    RT: Threads + Wait + Sync,
    A: Allocator + Clone + Send + Sync,
{
    let setup = Setup {
        workers: pool.workers,
        partitions: Vec::new(alloc.clone()?),
    };
    let starts = pool.starts;
    match pool.taken {
        Taken::AnyTime => {
            run_over::<EventCount<A>, SlotRows<Splits, A>, VecLists, RT, Splits, A>(
                rt, alloc, &setup, ends, starts, first, cancelled,
            )
        }
        Taken::AtTheEnd => {
            run_over::<EventCount<A>, KeptRows<SlotRows<Splits, A>>, VecLists, RT, Splits, A>(
                rt, alloc, &setup, ends, starts, first, cancelled,
            )
        }
    }
}

/// Runs a pool over the given wait point and rows on these jobs, and returns what it leaves.
fn run_over<W, R, L, RT, J, A>(
    rt: &RT,
    alloc: A,
    setup: &Setup<A>,
    ctx: &J::Ctx,
    starts: u32,
    first: Vec<J>,
    cancelled: Vec<J>,
) -> Result<Closed<J, A>, PoolFault>
where
    RT: Threads + Wait + Sync,
    J: Job<A> + Drop + Send,
    J::Ctx: Sync,
    J::Out: Drop + Send,
    J::Abandoned: Send,
    A: Allocator + Clone + Send + Sync,
    W: WaitPoint<A> + Sync,
    W::Seat: Send,
    R: Rows<J, A> + Sync,
    R::Seat: Send,
    L: Lists<J::Out, A>,
{
    with_pool_limited::<W, R, L, RT, J, A, NoGate, _>(
        rt,
        alloc,
        setup,
        ctx,
        &NoGate,
        starts,
        |caller: &mut Caller<'_, J, A, W, R, L>|
            requires { IsCaller R.Rows W.WaitPoint J.Job L.Lists caller.old }
            ensures { StaysCaller R.Rows W.WaitPoint J.Job L.Lists caller.old caller.new }
        {
            schedule_all(rt, caller, first);
            if !cancelled.is_empty() {
                caller.cancel(rt);
            }
            schedule_all(rt, caller, cancelled);
        },
    )
}

/// Schedules the jobs.
fn schedule_all<RT, J, A, W, R, L>(rt: &RT, caller: &mut Caller<'_, J, A, W, R, L>, jobs: Vec<J>)
where
    RT: Wait,
    J: Job<A> + Drop,
    J::Out: Drop,
    A: Allocator + Clone,
    W: WaitPoint<A>,
    R: Rows<J, A>,
    L: Lists<J::Out, A>,
    requires { IsCaller R.Rows W.WaitPoint J.Job L.Lists caller.old }
    ensures { StaysCaller R.Rows W.WaitPoint J.Job L.Lists caller.old caller.new }
{
    for job in jobs {
        caller.schedule(rt, job);
    }
}
