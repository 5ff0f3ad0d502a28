//! Tests of how a range is cut into blocks.

use parallel_for::{blocks, halve, leaves};
use std::test::Fail;

#[test]
fn ten_places_by_four(rt: HostRuntime) -> Result<(), Fail> {
    let list = leaves(rt.alloc(), 10, 4)?;
    assert_eq!(rt; list.as_slice(), [(0, 4), (4, 8), (8, 10)].as_slice());
    let none = leaves(rt.alloc(), 0, 4)?;
    assert_eq!(rt; (none.len(), blocks(10, 4)), (0, 3));
    let halves = [halve(0, 10, 4), halve(0, 8, 4), halve(0, 4, 4)];
    assert_eq!(rt; halves, [Some(8), Some(4), None]);
    Ok(())
}
