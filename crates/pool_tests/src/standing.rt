//! Tests of pools that stay open between calls, over one count and over slots.
use crate::setups::setup_of;
use crate::trees::{Tree, expect_leaves};
use event_count::EventCount;
use run_queue::SlotRows;
use std::alloc::Global;
use std::process::Abort;
use std::sync::Wait;
use std::test::Fail;
use std::thread::Threads;
use worker_pool::{
    Closed, JobQueue, PoolFault, Queue, Setup, StandingPool, Stands, VecLists, open_counted,
};

/// Rows and a wait point that are opened separately.
type SlotQueue = JobQueue<EventCount, SlotRows<Tree>>;

/// What a standing pool stands on.
#[derive(Clone, Copy)]
pub(crate) enum Kind {
    /// One count for the rows and the wait point.
    Counted,
    OverSlots,
}

/// Grows three trees of this height in an open pool, one scheduled after the other, and closes it.
/// Returns what the pool leaves, and how many workers it has started.
fn grow_in<RT, Q>(
    rt: &RT,
    mut pool: StandingPool<Tree, Global, Q, VecLists>,
    height: u32,
) -> (Closed<Tree>, u32)
where
    RT: Threads + Wait,
    Q: Queue<Tree, Global> + Send + Sync + 'static,
    Q::Row: Send + 'static,
    Q::Waker: Send + 'static,
    Q::Seat: Send + 'static,
    Q::Stop: Send + Sync + 'static,
    requires { ⟦<StandingPool<Tree, Global, Q, VecLists> as Stands>⟧.is_standing pool }
{
    let started = pool.workers();
    pool.schedule(rt, Tree { place: 2, height });
    pool.schedule(rt, Tree { place: 0, height });
    pool.schedule(rt, Tree { place: 1, height });
    (pool.close(rt), started)
}

/// Grows three trees of this height in a pool of this kind. Returns what the pool leaves, and how
/// many workers it has started.
pub(crate) fn grow_all<RT>(
    rt: &RT,
    alloc: Global,
    setup: &Setup,
    (kind, height): (Kind, u32),
) -> Result<(Closed<Tree>, u32), PoolFault>
where
    RT: Threads + Wait + Copy + Send + 'static,
{
    match kind {
        Kind::Counted => {
            let pool = open_counted(rt, alloc, setup, ())?;
            Ok(grow_in(rt, pool, height))
        }
        Kind::OverSlots => {
            let pool = StandingPool::<Tree, Global, SlotQueue, VecLists>::open(
                rt,
                alloc,
                setup,
                (),
            )?;
            Ok(grow_in(rt, pool, height))
        }
    }
}

/// A kind of pool, its workers, the height of its trees, and how many leaves the trees have.
type Grown = (Kind, u32, u32, u64);

const POOLS: &[Grown] = &[
    (Kind::Counted, 1, 0, 3),
    (Kind::Counted, 1, 12, 12_288),
    (Kind::Counted, 2, 12, 12_288),
    (Kind::Counted, 64, 12, 12_288),
    (Kind::Counted, 4, 16, 196_608),
    (Kind::Counted, 256, 8, 768),
    (Kind::OverSlots, 1, 0, 3),
    (Kind::OverSlots, 4, 16, 196_608),
    (Kind::OverSlots, 64, 12, 12_288),
];

/// Grows the trees of a table, checks that each of their leaves is once among the outs, and returns
/// how many workers were started, and how many there are.
fn expect_pools<RT>(rt: &RT, alloc: Global, pools: &[Grown]) -> Result<(u32, u32), Fail>
where
    RT: Threads + Wait + Abort + Copy + Send + 'static,
{
    let (mut all_started, mut all) = (0u32, 0u32);
    for &(kind, workers, height, leaves) in pools {
        let setup = setup_of(alloc, workers, &[])?;
        let (closed, started) = grow_all(rt, alloc, &setup, (kind, height))?;
        expect_leaves(rt, alloc, closed, (workers, leaves))?;
        all_started = all_started.wrapping_add(started);
        all = all.wrapping_add(workers);
    }
    Ok((all_started, all))
}

#[test]
fn each_leaf_of_trees_in_a_standing_pool(rt: HostRuntime) -> Result<(), Fail> {
    let (started, workers) = expect_pools(&rt, rt.alloc(), POOLS)?;
    assert_eq!(rt; started, workers);
    Ok(())
}

/// Pools that are small enough to be opened and closed for each start of a thread.
const FEW_WORKERS: &[Grown] = &[(Kind::Counted, 3, 8, 768), (Kind::OverSlots, 3, 8, 768)];

/// `tests/test_refusals.py` runs this test with some starts of threads refused, and with all.
#[test]
fn each_leaf_though_starts_are_refused(rt: HostRuntime) -> Result<(), Fail> {
    expect_pools(&rt, rt.alloc(), FEW_WORKERS)?;
    Ok(())
}
