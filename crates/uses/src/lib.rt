//! Complete callers of the crates that can be used alone, one or two for each. The pages
//! `CALLING.md` of those crates quote them, and `use_tests` runs them.
#![tactic(auto)]

pub mod distances;
pub mod fence;
pub mod hand_over;
pub mod histogram;
pub mod leaves;
pub mod queued_sum;
pub mod squares;
pub mod stolen_sum;
pub mod walk_once;
pub mod word_alone;
