//! Barriers: any threads give a number of notices, and one waiter sleeps until all are given.
//!
//! The word and its steps follow Eigen's `Barrier.h`. The right to notify is a `Share` of notices
//! here, which is split and moved to the threads that give them. So no barrier gets more notices
//! than it waits for.
//!
//! parallel_for waits on these barriers. A change to the word or to a step is a change to the rule
//! (`specs/BarrierWord.antt`).
#![tactic(auto)]

mod barrier;
mod fault;
mod laws;
mod notification;
mod plays;
mod rule;
mod share;
mod view;
mod woken;

pub use barrier::Barrier;
pub use fault::BarrierFault;
pub use laws::{all_notices_are_given, no_notice_is_left, word_is_barrier_word};
pub use notification::Notification;
pub use rule::{Law, MOST_NOTICES};
pub use share::{Share, Waiter};
pub use view::{Phase, View};
pub use woken::Woken;
