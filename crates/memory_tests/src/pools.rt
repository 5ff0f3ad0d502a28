//! Tests of pools that are opened, worked in and closed, with an allocator that refuses.
use crate::opened::{Counts, Entry, run_root};
use crate::refusing::Sparing;
use crate::splits::Splits;
use std::alloc::{AllocError, Global};
use std::process::Abort;
use std::sync::Wait;
use std::test::Fail;
use std::thread::Threads;
use worker_pool::PoolFault;

/// How many jobs the root becomes. Each has an out.
const JOBS: u64 = 40;

/// How many allocations after its opening a pool is tried with at most. They suffice for all jobs.
const MOST_MORE: u64 = 64;

/// How pools are opened, numbers of workers, and how many allocations an opening makes. With locks
/// the rows make three and one for each worker, the count makes nine, and the stop word two. Over
/// one count, rows and count make 26. The coprimes and the states of the workers make one each, and
/// the lists of what comes home four.
const OPENINGS: &[(Entry, u32, u64)] = &[
    (Entry::Body, 1, 21),
    (Entry::Body, 2, 22),
    (Entry::CountedRoot, 1, 32),
    (Entry::CountedRoot, 2, 32),
];

/// A pool that runs the root.
#[derive(Clone, Copy, Debug)]
struct Opened {
    entry: Entry,
    workers: u32,
    /// The place whose job runs out of memory in its last step, if there is one.
    starved_place: Option<u64>,
}

/// What a pool that ran the root leaves.
#[derive(Drop)]
struct Ran {
    fault: Option<PoolFault>,
    calls: u64,
    steps: u64,
    refused: u64,
    // How many jobs were abandoned, and how many ran out of memory in a step.
    abandons: u64,
    starved: u64,
    // How many jobs are handed back.
    left: usize,
    // How many lists of outs there are.
    lists: usize,
    // The outs of the first worker.
    first: Vec<u64>,
    // All outs, sorted.
    outs: Vec<u64>,
}

/// Returns a pool in which no step runs out of memory.
fn pool_of(entry: Entry, workers: u32) -> Opened {
    Opened {
        entry,
        workers,
        starved_place: None,
    }
}

/// Runs a pool that gets the given number of allocations, and returns what it leaves.
fn run_with<RT: Threads + Wait + Sync>(
    rt: &RT,
    alloc: Global,
    allocations: u64,
    pool: Opened,
) -> Result<Ran, AllocError> {
    let heap = Sparing::new(alloc, allocations);
    let counts = Counts::new(pool.starved_place);
    let root = Splits {
        place: 0,
        more: JOBS - 1,
    };
    let closed = run_root(rt, &heap, pool.entry, pool.workers, &counts, root);
    let mut ran = Ran {
        fault: None,
        calls: counts.calls(),
        steps: counts.ends.steps(),
        refused: 0,
        abandons: counts.ends.abandons(),
        starved: counts.ends.starved(),
        left: 0,
        lists: 0,
        first: Vec::new(alloc),
        outs: Vec::new(alloc),
    };
    match closed {
        Ok(closed) => {
            ran.refused = closed.refused;
            ran.left = closed.left.len();
            ran.lists = closed.outs.len();
            if let Some(list) = closed.outs.first() {
                ran.first.extend_from_slice(list)?;
            }
            for list in closed.outs.iter() {
                ran.outs.extend_from_slice(list)?;
            }
            ran.outs.sort_unstable();
        }
        Err(fault) => ran.fault = Some(fault),
    }
    Ok(ran)
}

/// Checks that each job has left its place once or was refused, and that no job was handed back. A
/// refused job was abandoned once, or ran out of memory in a step.
fn expect_all_ended<R: Abort>(rt: &R, pool: Opened, ran: &Ran) {
    let ended = (ran.fault, ran.calls, ran.left, ran.lists as u64);
    assert_eq!(rt; ended, (None, 1, 0, u64::from(pool.workers) + 1));
    let jobs = (ran.outs.len() as u64).checked_add(ran.refused);
    let refused = ran.abandons.checked_add(ran.starved);
    assert_eq!(rt;
        (jobs, refused),
        (Some(JOBS), Some(ran.refused)),
        "{pool:?}"
    );
    let each_once = ran.outs.windows(2).all(|pair| pair[0] < pair[1]);
    let each_below = ran.outs.iter().all(|&place| place < JOBS);
    assert!(rt; each_once && each_below, "{pool:?}");
}

/// If a pool is not opened, nothing is called, and no job takes a step.
#[test]
fn each_allocation_of_an_opening(rt: HostRuntime) -> Result<(), Fail> {
    for &(entry, workers, takes) in OPENINGS {
        let pool = pool_of(entry, workers);
        for left in 0..takes {
            let ran = run_with(&rt, rt.alloc(), left, pool)?;
            let found = (ran.fault, ran.calls, ran.steps);
            let none = (Some(PoolFault::NoMemory), 0, 0);
            assert_eq!(rt; found, none, "{entry:?}, after {left}");
        }
    }
    Ok(())
}

/// With the allocations of the opening alone, the root gets no memory for its out, and takes no
/// step. With ample memory no job is refused.
#[test]
fn no_allocation_after_an_opening_and_ample(rt: HostRuntime) -> Result<(), Fail> {
    for &(entry, workers, takes) in OPENINGS {
        let pool = pool_of(entry, workers);
        for (allocations, outs, refused) in [(takes, 0, 1), (u64::MAX, JOBS, 0)] {
            let ran = run_with(&rt, rt.alloc(), allocations, pool)?;
            let found = (ran.fault, ran.calls, ran.outs.len() as u64, ran.refused);
            assert_eq!(rt; found, (None, 1, outs, refused), "{pool:?}");
            let rest = (ran.left, ran.steps > 0, ran.abandons);
            assert_eq!(rt; rest, (0, outs > 0, refused), "{pool:?}");
        }
    }
    Ok(())
}

/// On any number of workers, the jobs that get no memory for their outs are refused. One more
/// allocation suffices for some jobs, and the most allocations suffice for all. One worker runs the
/// jobs in the order of their places, so the jobs that get memory are the first.
#[test]
fn each_allocation_after_an_opening(rt: HostRuntime) -> Result<(), Fail> {
    for &(entry, workers, takes) in OPENINGS {
        let pool = pool_of(entry, workers);
        let mut before = 0;
        for more in 1..=MOST_MORE {
            let ran = run_with(&rt, rt.alloc(), takes + more, pool)?;
            expect_all_ended(&rt, pool, &ran);
            let outs = ran.outs.len() as u64;
            let some = outs > 0 && (outs < JOBS || more > 1);
            let all = outs == JOBS || more < MOST_MORE;
            assert!(rt; some && all, "{pool:?}, {more} more");
            if workers == 1 {
                assert!(rt; before < outs || outs == JOBS, "{entry:?}, {more} more");
                let in_order = (0..outs).eq(ran.first.iter().copied());
                assert!(rt; in_order, "{entry:?}, {more} more");
            }
            before = outs;
        }
    }
    Ok(())
}

/// Each job in turn runs out of memory in its last step, if it got memory for its out.
#[test]
fn each_allocation_where_a_step_finds_no_memory(rt: HostRuntime) -> Result<(), Fail> {
    for &(entry, workers, takes) in OPENINGS {
        for more in 1..=MOST_MORE {
            let pool = Opened {
                starved_place: Some(more % JOBS),
                ..pool_of(entry, workers)
            };
            let ran = run_with(&rt, rt.alloc(), takes + more, pool)?;
            expect_all_ended(&rt, pool, &ran);
            let all = ran.refused == 1 && ran.starved == 1;
            assert!(rt; all || more < MOST_MORE, "{pool:?}, {more} more");
        }
    }
    Ok(())
}
