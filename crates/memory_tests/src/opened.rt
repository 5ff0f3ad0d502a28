//! Pools over any allocator that begin with a root. `pools.rt` runs them.
ghost use Rattle.worker_pool.specs.Callers.{IsCaller, StaysCaller};

use crate::splits::{Ends, Splits};
use event_count::{LockedCount, WaitPoint};
use run_queue::{LockedRows, Rows};
use std::alloc::Allocator;
use std::sync::Wait;
use std::sync::atomic::{AtomicU64, Ordering};
use std::thread::Threads;
use worker_pool::{
    Caller, Closed, Job, Lists, NoGate, PoolFault, Setup, VecLists, with_counted_root, with_pool,
};

/// How a pool is opened.
#[derive(Clone, Copy, Debug)]
pub(crate) enum Entry {
    /// By `with_pool`, whose body schedules the root.
    Body,
    /// By `with_counted_root`.
    CountedRoot,
}

/// How often a pool called its body, or the function after its root, and how its jobs ended.
#[derive(Drop)]
pub(crate) struct Counts {
    calls: AtomicU64,
    pub(crate) ends: Ends,
}

impl Counts {
    pub(crate) fn new(starved_place: Option<u64>) -> Counts {
        Counts {
            calls: AtomicU64::new(0),
            ends: Ends::new(starved_place),
        }
    }

    pub(crate) fn calls(&self) -> u64 {
        self.calls.load(Ordering::SeqCst)
    }
}

/// Runs the root in a pool of the given number of workers, and returns what the pool leaves.
pub(crate) fn run_root<RT, A>(
    rt: &RT,
    alloc: A,
    entry: Entry,
    workers: u32,
    counts: &Counts,
    root: Splits,
) -> Result<Closed<Splits, A>, PoolFault>
where
    RT: Threads + Wait + Sync,
    A: Allocator + Clone + Send + Sync,
{
    let setup = Setup {
        workers,
        partitions: Vec::new(alloc.clone()?),
    };
    let Counts { calls, ends } = counts;
    match entry {
        Entry::Body => planted::<LockedCount<A>, LockedRows<Splits, A>, VecLists, RT, Splits, A>(
            rt, alloc, &setup, ends, calls, root,
        ),
        Entry::CountedRoot => counted(rt, alloc, &setup, ends, calls, root),
    }
}

/// Runs the root in a pool over the given wait point and rows, whose body schedules it.
fn planted<W, R, L, RT, J, A>(
    rt: &RT,
    alloc: A,
    setup: &Setup<A>,
    ctx: &J::Ctx,
    calls: &AtomicU64,
    root: J,
) -> Result<Closed<J, A>, PoolFault>
where
    RT: Threads + Wait + Sync,
    J: Job<A> + Drop + Send,
    J::Ctx: Sync,
    J::Out: Send,
    J::Abandoned: Send,
    A: Allocator + Clone + Send + Sync,
    W: WaitPoint<A> + Sync,
    W::Seat: Send,
    R: Rows<J, A> + Sync,
    R::Seat: Send,
    L: Lists<J::Out, A>,
{
    with_pool::<W, R, L, RT, J, A, NoGate, _>(
        rt,
        alloc,
        setup,
        ctx,
        &NoGate,
        |caller: &mut Caller<'_, J, A, W, R, L>|
            requires { IsCaller R.Rows W.WaitPoint J.Job L.Lists caller.old }
            ensures { StaysCaller R.Rows W.WaitPoint J.Job L.Lists caller.old caller.new }
        {
            caller.schedule(rt, root);
            calls.fetch_add(1, Ordering::SeqCst);
        },
    )
}

/// Runs the root by `with_counted_root`.
fn counted<RT, A>(
    rt: &RT,
    alloc: A,
    setup: &Setup<A>,
    ends: &Ends,
    calls: &AtomicU64,
    root: Splits,
) -> Result<Closed<Splits, A>, PoolFault>
where
    RT: Threads + Wait + Sync,
    A: Allocator + Clone + Send + Sync,
{
    with_counted_root::<VecLists, RT, Splits, A, NoGate, _>(
        rt,
        alloc,
        setup,
        ends,
        &NoGate,
        root,
        |_| {
            calls.fetch_add(1, Ordering::SeqCst);
        },
    )
}
