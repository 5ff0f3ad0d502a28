//! Tests of the numbers and the texts of faults, on which callers may rely.

use event_count::{CountFault, RowFault};
use pool_barrier::BarrierFault;
use run_queue::RowsFault;
use steal_walk::PartitionFault;

/// The numbers of faults, and the numbers that they must have.
const NUMBERS: &[(u8, u8)] = &[
    (PartitionFault::Empty as u8, 1),
    (PartitionFault::OutOfPool as u8, 2),
    (RowsFault::TooManyRows as u8, 1),
    (RowsFault::NoMemory as u8, 2),
    (BarrierFault::TooLarge as u8, 1),
    (BarrierFault::NoMemory as u8, 2),
    (CountFault::TooManyWaiters as u8, 1),
    (CountFault::NoMemory as u8, 2),
    (RowFault::TooManyWaiters as u8, 1),
    (RowFault::TooManyCredits as u8, 2),
    (RowFault::NoMemory as u8, 3),
];

const TEXTS: &str = "the partition is empty, the partition ends outside the pool, \
    more than 256 rows, out of memory";

#[test]
fn faults_have_numbers_and_texts(rt: HostRuntime) {
    for &(number, wanted) in NUMBERS {
        assert!(rt; number == wanted, "{number} for {wanted}");
    }
    let (empty, out_of_pool) = (PartitionFault::Empty, PartitionFault::OutOfPool);
    let (too_many, no_memory) = (RowsFault::TooManyRows, RowsFault::NoMemory);
    let told = format!(in rt.alloc(); "{empty}, {out_of_pool}, {too_many}, {no_memory}");
    let Ok(text) = told else {
        panic!(rt; "no memory")
    };
    assert!(rt; text.as_str() == TEXTS);
}
