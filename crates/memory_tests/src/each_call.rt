//! Tests of each call by itself: how many allocations it makes. The numbers change with what a call
//! allocates.

use crate::calls::{Answer, Call, make};
use crate::refusing::Sparing;

/// Calls, and how many allocations each makes.
const CALLS: &[(Call, u64)] = &[
    // A table takes two blocks.
    (Call::Barrier, 2),
    (Call::Notification, 2),
    // The words take one block, the seats take another, and a table takes two.
    (Call::EventCount, 4),
    (Call::EventCountAtTheLastEpoch, 4),
    (Call::EventCountAsPoint, 4),
    (Call::RowCount, 4),
    // The World takes eight blocks, and the seats take one.
    (Call::LockedCount, 9),
    // Nine lists take one allocation each, and each of the two workers takes a list of the rows
    // that it has passed. The events take none.
    (Call::World, 11),
    (Call::Row, 1),
    // The memory for all jobs, the list of rows, each of the two rows, and the seats.
    (Call::LockedRows, 5),
    // The backs; the memory for the jobs that are left, the list that hands it over, and the two
    // blocks of its table; the words, the seats, the slots, and the two blocks of the table.
    (Call::SlotRows, 10),
    // A count and the block that is shared; rows of slots; the memory for the jobs that are left
    // and for the seats, four allocations each; the seats of the rows; the list of the waiters and
    // the list of the other seats of the count.
    (Call::OnOneCount, 26),
    (Call::Coprimes, 1),
    (Call::Leaves, 1),
];

/// A number of allocations that is more than any of the calls makes.
const AMPLE: u64 = 28;

#[test]
fn each_allocation_of_each_call(rt: HostRuntime) {
    for &(call, takes) in CALLS {
        for left in 0..=AMPLE {
            let wanted = if left < takes {
                Answer::NoMemory
            } else {
                Answer::Right
            };
            let heap = Sparing::new(rt.alloc(), left);
            let found = make(&rt, call, &heap);
            assert_eq!(rt; found, wanted, "{call:?} after {left}");
        }
    }
}
