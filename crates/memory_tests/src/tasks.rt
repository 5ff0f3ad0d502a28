//! Tests of jobs of one step in pools that may be cancelled, with an allocator that refuses.
use crate::limited::{Limited, Taken, run_jobs};
use crate::refusing::Sparing;
use crate::splits::{Ends, Splits};
use std::alloc::{AllocError, Allocator, Global};
use std::process::Abort;
use std::sync::Wait;
use std::test::Fail;
use std::thread::Threads;
use worker_pool::{Closed, PoolFault};

/// How many jobs are scheduled.
const JOBS: u64 = 16;

/// The most allocations that a pool is tried with. They suffice for its opening and for all jobs.
const MOST: u64 = 64;

/// What a pool leaves of jobs of one step.
#[derive(Drop)]
struct Ended {
    fault: Option<PoolFault>,
    // The places of the outs and of the jobs that are left, sorted.
    places: Vec<u64>,
    outs: u64,
    left: u64,
    refused: u64,
    // How many jobs ran, and how many were abandoned.
    runs: u64,
    abandons: u64,
}

/// Collects what a pool leaves.
fn ended_of<A: Allocator>(
    alloc: Global,
    closed: Result<Closed<Splits, A>, PoolFault>,
    ends: &Ends,
) -> Result<Ended, AllocError> {
    let mut ended = Ended {
        fault: None,
        places: Vec::new(alloc),
        outs: 0,
        left: 0,
        refused: 0,
        runs: ends.steps(),
        abandons: ends.abandons(),
    };
    match closed {
        Ok(closed) => {
            for list in &closed.outs {
                ended.places.extend_from_slice(list)?;
            }
            ended.outs = ended.places.len() as u64;
            for job in &closed.left {
                ended.places.push(job.place)?;
            }
            ended.places.sort_unstable();
            ended.left = closed.left.len() as u64;
            ended.refused = closed.refused;
        }
        Err(fault) => ended.fault = Some(fault),
    }
    Ok(ended)
}

/// Returns jobs for the places in `[places.0, places.1)`, which split off no others.
fn singles(alloc: Global, places: (u64, u64)) -> Result<Vec<Splits>, AllocError> {
    let mut jobs = Vec::new(alloc);
    for place in places.0..places.1 {
        jobs.push(Splits { place, more: 0 })?;
    }
    Ok(jobs)
}

/// Runs jobs that count how they end, in a pool that gets the given number of allocations, and
/// returns what it leaves.
fn run_singles<RT: Threads + Wait + Sync>(
    rt: &RT,
    alloc: Global,
    allocations: u64,
    pool: Limited,
) -> Result<Ended, AllocError> {
    let heap = Sparing::new(alloc, allocations);
    let ends = Ends::new(None);
    let first = singles(alloc, (0, pool.first))?;
    let cancelled = singles(alloc, (pool.first, JOBS))?;
    let closed = run_jobs(rt, &heap, pool, &ends, first, cancelled);
    ended_of(alloc, closed, &ends)
}

/// Checks that each job ran once and has an out, or is left in a cancelled pool, or was refused. A
/// job was abandoned exactly if it was refused.
fn expect_each_once<R: Abort>(rt: &R, pool: Limited, ended: &Ended) {
    let jobs = (ended.places.len() as u64).checked_add(ended.refused);
    let found = (jobs, ended.runs, ended.abandons);
    let wanted = (Some(JOBS), ended.outs, ended.refused);
    assert_eq!(rt; found, wanted, "{pool:?}");
    let each_once = ended.places.windows(2).all(|pair| pair[0] < pair[1]);
    let each_below = ended.places.iter().all(|&place| place < JOBS);
    let may_be_left = pool.first < JOBS || ended.left == 0;
    assert!(rt; each_once && each_below && may_be_left, "{pool:?}");
}

/// Numbers of workers, how many are started, how many jobs are scheduled before a cancel, and when
/// they can be taken.
const POOLS: &[(u32, u32, u64, Taken)] = &[
    (1, 0, 16, Taken::AnyTime),
    (1, 1, 8, Taken::AnyTime),
    (2, 0, 16, Taken::AnyTime),
    (2, 0, 8, Taken::AnyTime),
    (2, 1, 16, Taken::AnyTime),
    (2, 1, 8, Taken::AnyTime),
    (2, 2, 8, Taken::AnyTime),
    (1, 1, 16, Taken::AtTheEnd),
    (1, 1, 8, Taken::AtTheEnd),
];

/// From the first number of allocations that opens the pool, each job ends in one way. With the
/// most allocations no job is refused.
#[test]
fn each_allocation_of_jobs_and_a_cancel(rt: HostRuntime) -> Result<(), Fail> {
    for &(workers, starts, first, taken) in POOLS {
        let pool = Limited {
            workers,
            starts,
            first,
            taken,
        };
        let mut is_opened = false;
        for left in 0..=MOST {
            let ended = run_singles(&rt, rt.alloc(), left, pool)?;
            if ended.fault.is_none() {
                is_opened = true;
                expect_each_once(&rt, pool, &ended);
            } else {
                let found = (ended.fault, ended.runs, is_opened);
                assert_eq!(rt; found, (Some(PoolFault::NoMemory), 0, false), "{pool:?}");
            }
            assert!(rt; ended.refused == 0 || left < MOST, "{pool:?}");
        }
        assert!(rt; is_opened, "{pool:?}");
    }
    Ok(())
}
