//! A pool that stays open between calls, until its owner closes it. A list of modules.
//!
//! The threads of such a pool own it together with the thread that opened it, so the pool may
//! outlive the call that opens it. Jobs are scheduled as through a `Caller`, and run by the same
//! turns as in `with_pool`. The close accounts for all of them.

mod counted_pool;
mod left_out;
pub(crate) mod owned_pool;
pub(crate) mod standing_pool;
pub(crate) mod threads;

pub use counted_pool::{CountedPool, open_counted};
pub use standing_pool::{StandingPool, Stands};
