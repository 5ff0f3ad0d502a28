//! Tests of shards: the ranges into which the index lists of a reduction are cut.

use crate::told::expect;
use std::process::Abort;
use tensor_reduce::Shards;

/// Asserts that `inner` index lists have `count` shards of this width, each beginning where the one
/// before it ends. The last shard may be narrower.
fn are(rt: &impl Abort, inner: u64, block: u64, count: u64, width: u64) {
    let shards = Shards::of(inner, block);
    let mut first = 0u64;
    for shard in 0..shards.count() {
        let range = shards.range(shard);
        let wanted = (first, first.saturating_add(width).min(inner));
        expect(rt, (inner, block, shard), &range, &wanted);
        first = range.1;
    }
    let found = (shards.count(), first);
    expect(rt, (inner, block), &found, &(count, inner));
}

#[test]
fn shards_of_few_and_many(rt: HostRuntime) {
    are(&rt, 10, 4, 3, 4);
    are(&rt, 0, 4, 1, 4);
    are(&rt, 4096, 1, 1024, 4);
}
