//! The items of one leaf, as a worker hands them in. `range_job.rt` makes pieces, and
//! `collector.rt` takes them.

use pool_barrier::Share;
use std::alloc::{Allocator, Global};

/// The items at the places in `[first, last)`, which are one leaf.
#[derive(Drop)]
pub struct Piece<I, A: Allocator = Global> {
    pub first: u64,
    pub last: u64,
    pub items: Vec<I, A>,
    /// The leaf's share, which shows that the leaf gave its notice.
    pub share: Share,
}
