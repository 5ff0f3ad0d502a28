//! Tests of which setups a pool accepts.
use crate::runs::run_tasks;
use crate::standing::grow_all;
use crate::tasks::tenfolds;
use crate::trees::grow;
use crate::watch::{Watch, Way};
use crate::{runs, standing, trees};
use std::alloc::{AllocError, Global};
use std::sync::Wait;
use std::test::Fail;
use std::thread::Threads;
use steal_walk::Partition;
use worker_pool::{PoolFault, Setup};

/// Returns a setup of the given number of workers, with the partitions of these rows.
pub(crate) fn setup_of(
    alloc: Global,
    workers: u32,
    ranges: &[(u32, u32)],
) -> Result<Setup, AllocError> {
    let mut partitions = Vec::new(alloc);
    for &(start, limit) in ranges {
        if let Ok(partition) = Partition::new(start, limit, limit) {
            partitions.push(partition)?;
        }
    }
    Ok(Setup {
        workers,
        partitions,
    })
}

/// Numbers of workers, the rows of their partitions, and the fault of such a setup.
const SETUPS: &[(u32, &[(u32, u32)], Option<PoolFault>)] = &[
    (1, &[], None),
    (256, &[], None),
    (2, &[(0, 1), (1, 2)], None),
    (0, &[], Some(PoolFault::BadWorkers)),
    (257, &[], Some(PoolFault::BadWorkers)),
    (0, &[(0, 2)], Some(PoolFault::BadWorkers)),
    (2, &[(0, 1)], Some(PoolFault::BadPartition)),
    (2, &[(2, 4), (2, 4)], Some(PoolFault::BadPartition)),
    (2, &[(0, 2), (0, 2), (0, 2)], Some(PoolFault::BadPartition)),
];

/// Returns the fault of opening a pool over slots, of which at most `starts` workers are started.
fn fault_of<RT: Threads + Wait + Sync>(
    rt: &RT,
    alloc: Global,
    setup: &Setup,
    starts: Option<u32>,
) -> Result<Option<PoolFault>, AllocError> {
    let watch = Watch::new(alloc, Way::AtOnce, starts)?;
    let (first, none) = (tenfolds(alloc, 0, 1)?, Vec::new(alloc));
    let closed = run_tasks(rt, alloc, runs::Kind::OverSlots, setup, &watch, first, none);
    Ok(closed.err())
}

/// All ways to open a pool return the fault of the setup.
#[test]
fn setups_that_are_taken_and_refused(rt: HostRuntime) -> Result<(), Fail> {
    let alloc = rt.alloc();
    for &(workers, ranges, fault) in SETUPS {
        let setup = setup_of(alloc, workers, ranges)?;
        let found = [
            setup.check().err(),
            grow(&rt, alloc, trees::Kind::UnderLocks, &setup, 0).err(),
            grow(&rt, alloc, trees::Kind::Counted, &setup, 0).err(),
            fault_of(&rt, alloc, &setup, None)?,
            fault_of(&rt, alloc, &setup, Some(1))?,
            grow_all(&rt, alloc, &setup, (standing::Kind::Counted, 0)).err(),
            grow_all(&rt, alloc, &setup, (standing::Kind::OverSlots, 0)).err(),
        ];
        assert_eq!(rt; found, [fault; 7], "{workers} workers, {ranges:?}");
    }
    Ok(())
}
