//! Tests of pools that run jobs which fork into trees.
use crate::bodies::run_all;
use crate::setups::setup_of;
use crate::watch::{Watch, Way};
use event_count::{EventCount, LockedCount};
use run_queue::{LockedRows, SlotRows};
use std::alloc::{AllocError, Global};
use std::process::Abort;
use std::sync::Wait;
use std::test::Fail;
use std::thread::Threads;
use worker_pool::{Closed, Job, NoGate, PoolFault, Progress, Setup, VecLists, with_counted_root};

/// A job for the leaves of a tree, whose outs are their places. A tree of height 0 is a leaf.
#[derive(Drop)]
pub(crate) struct Tree {
    pub(crate) place: u64,
    pub(crate) height: u32,
}

impl Job<Global> for Tree {
    type Ctx = ();

    type Out = u64;

    type Abandoned = ();

    ghost weight_of = { λ tree. tree.height };

    ghost allows = { λ _ _ _. Unit {0} };

    ghost abandons = { λ _ _ _. Unit {0} };

    fn weight(&self) -> u64 {
        u64::from(self.height)
    }

    fn step(self, _alloc: Global, _ctx: &()) -> Result<Progress<Tree, u64>, AllocError> {
        let Some(height) = self.height.checked_sub(1) else {
            return Ok(Progress::Done(self.place));
        };
        let place = self.place.wrapping_mul(2);
        let kid = Tree { place, height };
        let place = place.wrapping_add(1);
        let rest = Tree { place, height };
        Ok(Progress::Fork { kid, rest })
    }

    fn abandon(self, _ctx: &()) {}
}

/// How a pool for a tree is opened, and its wait point and rows.
#[derive(Clone, Copy)]
pub(crate) enum Kind {
    /// Opened by `with_counted_root`, over one count.
    Counted,
    UnderLocks,
    OverSlots,
}

/// Runs a tree of this height in a pool, and returns what the pool leaves.
pub(crate) fn grow<RT: Threads + Wait + Sync>(
    rt: &RT,
    alloc: Global,
    kind: Kind,
    setup: &Setup,
    height: u32,
) -> Result<Closed<Tree>, PoolFault> {
    let watch = Watch::new(alloc, Way::AtOnce, None)?;
    let none = Vec::new(alloc);
    let root = Tree { place: 0, height };
    if matches!(kind, Kind::Counted) {
        return with_counted_root::<VecLists, RT, Tree, Global, NoGate, _>(
            rt,
            alloc,
            setup,
            &(),
            &NoGate,
            root,
            |_| {},
        );
    }
    let mut first = Vec::with_capacity(alloc, 1)?;
    first.push_reserved(root);
    match kind {
        Kind::OverSlots => run_all::<EventCount, SlotRows<Tree>, VecLists, RT, Tree>(
            rt,
            alloc,
            setup,
            &(),
            &watch,
            first,
            none,
        ),
        _ => run_all::<LockedCount, LockedRows<Tree>, VecLists, RT, Tree>(
            rt,
            alloc,
            setup,
            &(),
            &watch,
            first,
            none,
        ),
    }
}

/// Returns the first place that is not the next leaf's.
fn first_wrong(places: &[u64]) -> Option<u64> {
    let mut next = 0u64;
    for place in places {
        if *place != next {
            return Some(*place);
        }
        next = next.wrapping_add(1);
    }
    None
}

/// Checks that a pool leaves each of its leaves once, in a list for each of its workers and one
/// for the opener.
pub(crate) fn expect_leaves<R: Abort>(
    rt: &R,
    alloc: Global,
    closed: Closed<Tree>,
    (workers, leaves): (u32, u64),
) -> Result<(), Fail> {
    let lists = closed.outs.len() as u64;
    let rest = (closed.left.len(), closed.refused);
    let mut places = Vec::new(alloc);
    for list in closed.outs {
        places.extend(list)?;
    }
    places.sort_unstable();
    let found = (lists, places.len() as u64, rest, first_wrong(&places));
    let wanted = (u64::from(workers) + 1, leaves, (0, 0), None);
    assert_eq!(rt; found, wanted, "{leaves} leaves on {workers} workers");
    Ok(())
}

/// A kind of pool, its workers, the height of its tree, how many leaves this has, and how often a
/// pool is opened for it.
type Grown = (Kind, u32, u32, u64, u32);

const TREES: &[Grown] = &[
    (Kind::UnderLocks, 1, 16, 65_536, 1),
    (Kind::UnderLocks, 2, 16, 65_536, 1),
    (Kind::UnderLocks, 64, 16, 65_536, 1),
    (Kind::Counted, 1, 16, 65_536, 1),
    (Kind::Counted, 2, 16, 65_536, 1),
    (Kind::Counted, 64, 16, 65_536, 1),
    (Kind::Counted, 8, 20, 1_048_576, 1),
    (Kind::OverSlots, 8, 20, 1_048_576, 1),
    (Kind::UnderLocks, 8, 20, 1_048_576, 1),
    (Kind::OverSlots, 1, 0, 1, 10_000),
    (Kind::Counted, 1, 0, 1, 10_000),
];

/// Runs the trees of a table.
fn expect_trees<RT>(rt: &RT, alloc: Global, trees: &[Grown]) -> Result<(), Fail>
where
    RT: Threads + Wait + Abort + Sync,
{
    for &(kind, workers, height, leaves, times) in trees {
        let setup = setup_of(alloc, workers, &[])?;
        for _ in 0..times {
            let closed = grow(rt, alloc, kind, &setup, height)?;
            expect_leaves(rt, alloc, closed, (workers, leaves))?;
        }
    }
    Ok(())
}

#[test]
fn each_leaf_of_trees(rt: HostRuntime) -> Result<(), Fail> {
    expect_trees(&rt, rt.alloc(), TREES)
}

/// Pools that are opened for one leaf. The last one is opened fewer times, since starting 256
/// threads takes longest.
const OPENINGS: &[Grown] = &[
    (Kind::OverSlots, 2, 0, 1, 10_000),
    (Kind::OverSlots, 256, 0, 1, 100),
];

/// A test of its own, since a single test of all openings would take too long.
#[test]
fn pools_that_are_opened_again_and_again(rt: HostRuntime) -> Result<(), Fail> {
    expect_trees(&rt, rt.alloc(), OPENINGS)
}
