//! The order in which a worker with nothing to do tries the rows of others.
//!
//! A walk goes once round the rows of a range. It starts at a random row, and goes on by a random
//! step that is coprime to the number of rows, as in Eigen's `NonBlockingThreadPool.h`.
//!
//! worker_pool draws the random words. Its proof that a worker looked at every row before it slept
//! rests on `VisitsEachOnce` (`specs/Walk.antt`).
#![tactic(auto)]

pub mod coprimes;
pub mod partition;
pub mod walk;

pub use coprimes::Coprimes;
pub use partition::{Partition, PartitionFault};
pub use walk::Walk;
