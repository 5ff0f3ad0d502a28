//! The packed word of an event count, and the event model on which proofs about waiting and waking
//! rest. The word's layout and its steps follow Eigen's EventCount.h, with 14-bit counts.
//!
//! The table rules of event_count and the laws of waking_rows and worker_pool are stated over this
//! model. A change of an event, a field or a law here is a change there.
#![tactic(auto)]

mod after;
mod event;
mod laws;
mod phase;
mod word;
mod world;

pub use after::{
    AfterCommit, AfterNotify, AfterNotifyAll, after_cancel, after_commit, after_notify,
    after_notify_all, after_pop, after_prewait,
};
pub use event::Event;
pub use laws::{
    events_leave_others_alone, plays_are_runs, runs_are_lawful, runs_balance, runs_stay_awake,
    runs_stay_awake_by_present, runs_wake_all, word_follows_world,
};
pub use phase::Phase;
pub use word::{Fields, NOBODY, PRE_WAITER, pack, unpack};
pub use world::World;
