//! Tests of each caller in `uses` on a few values.

use event_word::{Event, Phase};
use parallel_for::{ForFault, Setup};
use std::test::Fail;
use steal_walk::Coprimes;
use tensor_ops::{Dims, Inputs, Tensor};
use uses::distances::row_distances;
use uses::fence::arrived;
use uses::hand_over::handed_over;
use uses::histogram::histogram;
use uses::leaves::{count_all_leaves, count_leaves};
use uses::queued_sum::queued_sum;
use uses::squares::squares_of;
use uses::stolen_sum::stolen_sum;
use uses::walk_once::first_waiting;
use uses::word_alone::tried;
use worker_pool::PoolFault;

#[test]
fn each_queue_is_found(rt: HostRuntime) -> Result<(), Fail> {
    let coprimes = Coprimes::new(rt.alloc(), 3)?;
    for word in [0, 1 << 31, u32::MAX] {
        assert_eq!(rt; first_waiting(&[0, 0, 7], &coprimes, word), Some(2));
        assert_eq!(rt; first_waiting(&[5, 0, 0], &coprimes, word), Some(0));
        assert_eq!(rt; first_waiting(&[0, 0, 0], &coprimes, word), None);
    }
    // The word picks where the walk begins.
    assert_eq!(rt; first_waiting(&[1, 1, 1], &coprimes, 1 << 31), Some(1));
    Ok(())
}

/// A job comes after a worker has looked at its row and before it sleeps. The worker does not fall
/// asleep.
#[test]
fn a_job_that_comes_late(rt: HostRuntime) -> Result<(), Fail> {
    let events = [
        Event::Prewait { seat: 0 },
        Event::PassFlag { seat: 0 },
        Event::Pass { seat: 0, row: 0 },
        Event::Publish { actor: 1, row: 0 },
        Event::Notify { actor: 1 },
        Event::Commit { seat: 0 },
    ];
    let world = tried(rt.alloc(), 1, 1, 1, &events)?;
    assert_eq!(rt; (world.phase(0), world.length(0)), (Phase::Running, 1));
    assert!(rt; world.stack().is_empty());
    Ok(())
}

#[test]
fn rows_of_three(rt: HostRuntime) -> Result<(), Fail> {
    let alloc = rt.alloc();
    // Columns come first: the rows are (1, 2, 3) and (4, 5, 6), and (1, 0, 3) and (4, 5, 9).
    let first = vec![in alloc; 1, 4, 2, 5, 3, 6]?;
    let second = vec![in alloc; 1, 4, 0, 5, 3, 9]?;
    let dims = Dims::new(&[2, 3])?;
    if dims.size() != 6 {
        return Err("six values".into());
    }
    let mut inputs = Inputs::new(Vec::new(alloc));
    inputs.push(Tensor::new(dims.copied(), first))?;
    inputs.push(Tensor::new(dims, second))?;
    let tensor = row_distances(alloc, &inputs)??;
    assert_eq!(rt; tensor.values(), [4, 9].as_slice());
    assert_eq!(rt; tensor.dims().as_slice(), [2].as_slice());
    Ok(())
}

#[test]
fn all_have_arrived(rt: HostRuntime) -> Result<(), Fail> {
    for threads in [1, 2, 16] {
        assert_eq!(rt; arrived(&rt, rt.alloc(), threads)?, u64::from(threads));
    }
    Ok(())
}

#[test]
fn a_thousand_numbers(rt: HostRuntime) -> Result<(), Fail> {
    let mut numbers = Vec::new(rt.alloc());
    for number in 0..1000 {
        numbers.push(number)?;
    }
    for places in [1, 2, 64] {
        let got = handed_over(&rt, rt.alloc(), &numbers, places)?;
        assert_eq!(rt; got.as_slice(), numbers.as_slice());
    }
    Ok(())
}

#[test]
fn sums_by_consumers(rt: HostRuntime) -> Result<(), Fail> {
    let mut numbers = Vec::new(rt.alloc());
    for number in 0..1500 {
        numbers.push(number)?;
    }
    numbers.push(u64::MAX)?;
    for consumers in [1, 2, 7] {
        let total = queued_sum(&rt, rt.alloc(), &numbers, consumers)?;
        assert_eq!(rt; total, 1_124_249);
    }
    Ok(())
}

#[test]
fn leaves_of_a_tree(rt: HostRuntime) -> Result<(), Fail> {
    for (height, count) in [(0, 1), (1, 1), (2, 2), (10, 89), (20, 10_946)] {
        assert_eq!(rt; count_leaves(&rt, rt.alloc(), 4, height)?, count);
    }
    assert_eq!(rt;
        count_leaves(&rt, rt.alloc(), 0, 1),
        Err(PoolFault::BadWorkers)
    );
    Ok(())
}

#[test]
fn leaves_of_many_trees(rt: HostRuntime) -> Result<(), Fail> {
    let heights = [0, 1, 2, 10, 20];
    for workers in [1, 4] {
        assert_eq!(rt;
            count_all_leaves(&rt, rt.alloc(), workers, &heights)?,
            11_039
        );
    }
    assert_eq!(rt; count_all_leaves(&rt, rt.alloc(), 2, &[])?, 0);
    assert_eq!(rt;
        count_all_leaves(&rt, rt.alloc(), 257, &[1]),
        Err(PoolFault::BadWorkers)
    );
    Ok(())
}

#[test]
fn squares_of_a_few(rt: HostRuntime) -> Result<(), Fail> {
    let alloc = rt.alloc();
    let setup = Setup {
        workers: 2,
        partitions: Vec::new(alloc),
    };
    let squares = squares_of(&rt, alloc, &setup, &[0, 1, 2, u32::MAX], 1)?;
    assert_eq!(rt;
        squares.as_slice(),
        [0, 1, 4, 18_446_744_065_119_617_025].as_slice()
    );
    Ok(())
}

#[test]
fn counts_of_a_few(rt: HostRuntime) -> Result<(), Fail> {
    let alloc = rt.alloc();
    let setup = Setup {
        workers: 2,
        partitions: Vec::new(alloc),
    };
    let mut few = [0; 256];
    for (byte, count) in [(b'a', 5), (b'b', 2), (b'c', 1), (b'd', 1), (b'r', 2)] {
        few[usize::from(byte)] = count;
    }
    for part_length in [1, 3, 4, 100] {
        let counts = histogram(&rt, alloc, &setup, b"abracadabra", part_length)?;
        assert_eq!(rt; counts.as_slice(), few.as_slice());
    }
    let none = histogram(&rt, alloc, &setup, b"", 1)?;
    assert_eq!(rt; none.as_slice(), [0; 256].as_slice());
    let uncut = histogram(&rt, alloc, &setup, b"abracadabra", 0);
    assert_eq!(rt; uncut.err(), Some(ForFault::BadBlock));
    Ok(())
}

#[test]
fn sums_by_thieves(rt: HostRuntime) -> Result<(), Fail> {
    let mut numbers = Vec::new(rt.alloc());
    for number in 0..1500 {
        numbers.push(number)?;
    }
    numbers.push(u64::MAX)?;
    for thieves in [0, 1, 7] {
        let total = stolen_sum(&rt, rt.alloc(), &numbers, thieves)?;
        assert_eq!(rt; total, 1_124_249);
    }
    Ok(())
}
