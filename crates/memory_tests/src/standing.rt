//! Tests of pools that stay open between calls, with an allocator that refuses. The threads of such
//! a pool own its allocator, so these tests never free theirs.
use crate::refusing::Sparing;
use crate::splits::{Ends, Splits};
use std::alloc::{AllocError, Global};
use std::process::Abort;
use std::sync::Wait;
use std::test::Fail;
use std::thread::Threads;
use worker_pool::{Closed, PoolFault, Setup, open_counted};

type Heap = Sparing<Global>;

/// How many jobs each of the two roots becomes. Each has an out.
const JOBS: u64 = 20;

/// How many allocations an opening makes: those of `with_counted_root`, the list of threads, and
/// the block that the threads own together.
const TAKES: u64 = 34;

/// How many allocations after its opening a pool is tried with at most. They suffice for all jobs.
const MOST_MORE: u64 = 64;

/// Returns an allocator that lets the given number of allocations through. It is never freed.
fn sparing(alloc: Global, allocations: u64) -> Result<&'static Heap, AllocError> {
    let heap = Box::new(alloc, Sparing::new(alloc, allocations))?;
    Ok(&*Box::leak(heap))
}

/// Runs two roots in a pool, one scheduled after the other, and returns what the pool leaves.
fn run_both<RT>(
    rt: &RT,
    heap: &'static Heap,
    workers: u32,
) -> Result<Closed<Splits, &'static Heap>, PoolFault>
where
    RT: Threads + Wait + Copy + Send + 'static,
{
    let setup = Setup {
        workers,
        partitions: Vec::new(heap),
    };
    let mut pool = open_counted(rt, heap, &setup, Ends::new(None))?;
    let more = JOBS - 1;
    pool.schedule(rt, Splits { place: 0, more });
    pool.schedule(rt, Splits { place: JOBS, more });
    Ok(pool.close(rt))
}

/// Checks that each job has left its place once or was refused, and that none is left. A root that
/// is refused has no kids. Returns how many jobs left their places, and how many were refused.
fn expect_all_ended<R: Abort>(
    rt: &R,
    alloc: Global,
    workers: u32,
    closed: &Closed<Splits, &'static Heap>,
) -> Result<(u64, u64), Fail> {
    let mut places = Vec::new(alloc);
    for list in closed.outs.iter() {
        places.extend_from_slice(list)?;
    }
    places.sort_unstable();
    let outs = places.len() as u64;
    let ended = outs.saturating_add(closed.refused);
    let are_all = ended == 2 || ended == JOBS + 1 || ended == 2 * JOBS;
    let found = (closed.left.len(), closed.outs.len() as u64, are_all);
    assert_eq!(rt; found, (0, u64::from(workers) + 1, true), "{ended} jobs");
    let each_once = places.windows(2).all(|pair| pair[0] < pair[1]);
    let each_below = places.iter().all(|&place| place < 2 * JOBS);
    assert!(rt; each_once && each_below, "{workers} workers");
    Ok((outs, closed.refused))
}

/// Each allocation of a pool and of its jobs is refused, with all later ones.
fn expect_each_allocation<RT>(rt: &RT, alloc: Global, workers: u32) -> Result<(), Fail>
where
    RT: Threads + Wait + Abort + Copy + Send + 'static,
{
    for allocations in 0..TAKES + MOST_MORE {
        let heap = sparing(alloc, allocations)?;
        match run_both(rt, heap, workers) {
            Ok(closed) => {
                let ended = expect_all_ended(rt, alloc, workers, &closed)?;
                let is_right = allocations > TAKES || allocations == TAKES && ended == (0, 2);
                assert!(rt; is_right, "{workers} workers, {allocations} allocations");
            }
            Err(fault) => {
                let found = (fault, allocations < TAKES);
                assert_eq!(rt; found, (PoolFault::NoMemory, true), "{workers} workers");
            }
        }
    }
    Ok(())
}

#[test]
fn each_allocation_of_a_standing_pool(rt: HostRuntime) -> Result<(), Fail> {
    for workers in [1, 2, 7] {
        expect_each_allocation(&rt, rt.alloc(), workers)?;
    }
    Ok(())
}

#[test]
fn ample_memory_for_a_standing_pool(rt: HostRuntime) -> Result<(), Fail> {
    for workers in [1, 2, 7] {
        let heap = sparing(rt.alloc(), u64::MAX)?;
        let closed = run_both(&rt, heap, workers)?;
        let ended = expect_all_ended(&rt, rt.alloc(), workers, &closed)?;
        assert_eq!(rt; ended, (2 * JOBS, 0), "{workers} workers");
    }
    Ok(())
}
