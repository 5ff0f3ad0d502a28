//! Tests of ranges that are evaluated on workers, with an allocator that refuses.
use crate::halves::Halves;
use crate::refusing::Sparing;
use parallel_for::{ForFault, Setup, parallel_for};
use std::alloc::Allocator;
use std::process::Abort;
use std::sync::Wait;
use std::test::Fail;
use std::thread::Threads;

/// A range is tried with each number of allocations below this one.
const MOST: u64 = 64;

const PLACES: u64 = 22;

/// The length of a block if there are to be six blocks.
const BLOCK: u64 = 4;

/// The length of a block if there are to be two blocks.
const HALF: u64 = 11;

/// Returns half of each place, computed by the given number of workers.
fn halves<RT, A>(rt: &RT, alloc: A, workers: u32, block: u64) -> Result<Vec<u64, A>, ForFault>
where
    RT: Threads + Wait + Sync,
    A: Allocator + Clone + Send + Sync,
{
    let setup = Setup {
        workers,
        partitions: Vec::new(alloc.clone()?),
    };
    parallel_for(rt, alloc, &setup, &Halves, PLACES, block)
}

/// Checks that the items are the kernel's.
fn expect_halves<R: Abort>(rt: &R, workers: u32, items: &[u64]) {
    assert_eq!(rt; items.len() as u64, PLACES, "{workers} workers");
    for (place, item) in (0..PLACES).zip(items.iter()) {
        assert_eq!(rt; *item, place / 2, "{workers} workers");
    }
}

/// Each allocation of a range is refused in turn. Two workers allocate one list of outs or two, so
/// only for one worker is it certain that more allocations suffice too. Of 64 workers as many are
/// started as there are blocks.
#[test]
fn each_allocation_of_a_range(rt: HostRuntime) -> Result<(), Fail> {
    for (workers, block) in [(1, BLOCK), (2, BLOCK), (64, HALF)] {
        let mut sufficed = false;
        for left in 0..MOST {
            let heap = Sparing::new(rt.alloc(), left);
            match halves(&rt, &heap, workers, block) {
                Ok(items) => {
                    expect_halves(&rt, workers, &items);
                    sufficed = true;
                }
                Err(fault) => {
                    assert_eq!(rt;
                        fault,
                        ForFault::NoMemory,
                        "{workers} workers, after {left}"
                    );
                    assert!(rt; !sufficed || workers > 1, "{workers} workers, after {left}");
                }
            }
        }
        assert!(rt; sufficed, "{workers} workers");
        expect_halves(&rt, workers, &halves(&rt, rt.alloc(), workers, block)?);
    }
    Ok(())
}

/// A block that is as long as the range is computed by the calling thread, in one allocation.
#[test]
fn each_allocation_of_one_block(rt: HostRuntime) -> Result<(), Fail> {
    let none = Sparing::new(rt.alloc(), 0);
    assert_eq!(rt;
        halves(&rt, &none, 2, PLACES).err(),
        Some(ForFault::NoMemory)
    );
    let one = Sparing::new(rt.alloc(), 1);
    expect_halves(&rt, 2, &halves(&rt, &one, 2, PLACES)?);
    Ok(())
}
