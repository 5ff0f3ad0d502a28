//! Operations on single values, which are 64-bit integers that wrap: on one value and on two, the
//! reducers, and the turns in which the places of two lists alternate. A new operation is a variant
//! in `operations.rt` or `reducer.rt`; then the prover names each match that misses it.
#![tactic(auto)]

mod division;
mod operations;
mod reducer;
mod turns;

pub use division::quotients_leave_remainders;
pub use operations::{BinaryScalar, UnaryScalar, applied, combined, is_true};
pub use reducer::Reducer;
pub use turns::Turns;
