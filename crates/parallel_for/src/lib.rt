//! Evaluates a range of places by blocks, on the workers of a pool. README.md has a picture.
//! `tensor_reduce` runs its steps by this loop, so its contract and its costs reach the program.
#![tactic(auto)]

mod collector;
mod division;
mod evaluation;
mod fault;
mod halving;
mod kernel;
mod piece;
mod range_job;

pub use division::Division;
pub use evaluation::parallel_for;
pub use fault::ForFault;
pub use halving::{blocks, halve, leaves};
pub use kernel::Kernel;
pub use piece::Piece;
pub use range_job::{RangeContext, RangeJob};
pub use worker_pool::{PoolFault, Setup};
