//! Tests of ranges that are evaluated on workers.
use crate::kernels::{Meeting, Places};
use parallel_for::{ForFault, parallel_for};
use std::alloc::{AllocError, Global};
use std::process::Abort;
use std::sync::Wait;
use std::test::Fail;
use std::thread::Threads;
use steal_walk::Partition;
use worker_pool::{PoolFault, Setup};

/// Returns a setup of the given number of workers, with the partitions of these rows.
fn setup_of(alloc: Global, workers: u32, ranges: &[(u32, u32)]) -> Result<Setup, AllocError> {
    let mut partitions = Vec::new(alloc);
    for &(start, limit) in ranges {
        if let Ok(partition) = Partition::new(start, limit, limit) {
            partitions.push(partition)?;
        }
    }
    Ok(Setup {
        workers,
        partitions,
    })
}

/// Returns the first number that is not its place.
fn first_wrong(numbers: &[u64]) -> Option<u64> {
    let mut place = 0u64;
    for number in numbers {
        if *number != place {
            return Some(*number);
        }
        place = place.wrapping_add(1);
    }
    None
}

/// Checks that workers with the partitions of these rows return all places in order, by blocks, or
/// that the call returns this fault. The kernel is a reference to another.
fn expect_places<RT: Threads + Wait + Abort + Sync>(
    rt: &RT,
    alloc: Global,
    (workers, ranges): (u32, &[(u32, u32)]),
    (places, block): (u64, u64),
    fault: Option<ForFault>,
) -> Result<(), Fail> {
    let setup = setup_of(alloc, workers, ranges)?;
    let answer = parallel_for(rt, alloc, &setup, &&Places, places, block);
    let found = match &answer {
        Ok(items) => (Some(items.len() as u64), first_wrong(items), None),
        Err(fault) => (None, None, Some(*fault)),
    };
    let count = if fault.is_some() { None } else { Some(places) };
    assert_eq!(rt;
        found,
        (count, None, fault),
        "{workers} workers, {ranges:?}, {places} places by {block}"
    );
    Ok(())
}

const BAD_BLOCK: Option<ForFault> = Some(ForFault::BadBlock);

const BAD_WORKERS: Option<ForFault> = Some(ForFault::Pool(PoolFault::BadWorkers));

const BAD_PARTITION: Option<ForFault> = Some(ForFault::Pool(PoolFault::BadPartition));

/// Numbers of workers, the rows of their partitions, places, lengths of a block, and the fault.
const FAULTS: &[(u32, &[(u32, u32)], u64, u64, Option<ForFault>)] = &[
    (1, &[], 8, 0, BAD_BLOCK),
    (1, &[], 2_147_483_648, 1, BAD_BLOCK),
    (0, &[], 8, 4, BAD_WORKERS),
    (0, &[], 0, 4, BAD_WORKERS),
    (2, &[(0, 2)], 8, 4, BAD_PARTITION),
    (1, &[], 0, 4, None),
    (256, &[], 0, 1, None),
    // Each worker looks first in its own row, and then in all rows.
    (4, &[(0, 1), (1, 2), (2, 3), (3, 4)], 10_000, 1, None),
];

#[test]
fn faults_by_number(rt: HostRuntime) -> Result<(), Fail> {
    for &(workers, ranges, places, block, fault) in FAULTS {
        let workers = (workers, ranges);
        expect_places(&rt, rt.alloc(), workers, (places, block), fault)?;
    }
    Ok(())
}

/// Numbers of places, and lengths of a block.
const PLACES: &[(u64, u64)] = &[
    (0, 4),
    (1, 1),
    (4, 4),
    (5, 4),
    (10, 4),
    (1000, 7),
    (1000, 1),
    (65_536, 1),
];

#[test]
fn all_places_on_any_number_of_workers(rt: HostRuntime) -> Result<(), Fail> {
    for workers in [1, 2, 3, 64] {
        for &places in PLACES {
            expect_places(&rt, rt.alloc(), (workers, &[]), places, None)?;
        }
    }
    Ok(())
}

/// Numbers of leaves, which are also the numbers of workers, and how often the leaves meet.
const MEETINGS: &[(u32, u32)] = &[(2, 1_000), (16, 100)];

/// All leaves run at the same time, and each runs once. So no worker ends before the last leaf is
/// taken. A worker ends if it finds no job in a pool that is closing. If the caller did not wait
/// for the leaves, some worker would end too early at about one meeting in twenty, and so at some
/// of these.
#[test]
fn all_leaves_meet(rt: HostRuntime) -> Result<(), Fail> {
    for &(workers, times) in MEETINGS {
        let setup = setup_of(rt.alloc(), workers, &[])?;
        let leaves = u64::from(workers);
        for _ in 0..times {
            let kernel = Meeting::of(leaves);
            let items = parallel_for(&rt, rt.alloc(), &setup, &kernel, leaves, 1)?;
            let found = (items.len() as u64, kernel.counts());
            assert_eq!(rt; found, (leaves, (leaves, leaves)));
        }
    }
    Ok(())
}
