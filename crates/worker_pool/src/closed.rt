//! The result of a pool. `closing/close.rt` makes it, and every caller of a pool reads it.
use crate::job::Job;
use std::alloc::{Allocator, Global};

/// The result of a pool whose workers have all ended.
#[derive(Drop)]
pub struct Closed<J, A: Allocator = Global>
where
    J: Job<A>,
{
    /// The outs: a list for each worker of the setup, by number, and then the caller's list.
    pub outs: Vec<Vec<J::Out, A>, A>,
    /// The jobs that nobody ran. Only a pool that was cancelled has any.
    pub left: Vec<J, A>,
    /// How many jobs were abandoned or ran out of memory in a step, or `u64::MAX` if more.
    pub refused: u64,
}
