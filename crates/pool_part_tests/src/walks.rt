//! Worked examples of walks and of partitions.

use std::alloc::Global;
use std::process::Abort;
use steal_walk::{Coprimes, Partition, PartitionFault, Walk};

/// Checks the coprimes of a number, and the order in which a word of 2^31 visits as many rows.
fn expect_walk<R: Abort>(rt: &R, alloc: Global, count: u32, numbers: &[u32], rows: &[u32]) {
    assert!(rt; count > 0);
    let Ok(coprimes) = Coprimes::new(alloc, count) else {
        panic!(rt; "no coprimes")
    };
    assert!(rt; coprimes.numbers() == numbers, "of {count}");
    let walk = Walk::of(1 << 31, 0, count, &coprimes);
    assert!(rt; walk.eq(rows.iter().copied()), "over {count}");
}

#[test]
fn coprimes_and_walks(rt: HostRuntime) {
    expect_walk(&rt, rt.alloc(), 6, &[1, 5], &[3, 2, 1, 0, 5, 4]);
    expect_walk(&rt, rt.alloc(), 1, &[1], &[0]);
}

#[test]
fn partitions_of_four_rows(rt: HostRuntime) {
    let empty = Partition::new(0, 0, 4).err();
    let outside = Partition::new(2, 5, 4).err();
    assert!(rt; empty == Some(PartitionFault::Empty));
    assert!(rt; outside == Some(PartitionFault::OutOfPool));
    assert!(rt; Partition::new(2, 4, 4).is_ok());
}
