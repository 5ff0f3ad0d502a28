//! Operations along one axis of a tensor: cumulative sums and products, the first place of the
//! greatest or the least value, and the values that a list of numbers selects. README.md has the
//! picture of lines, numbers and blocks. `operands/along.rt` of tensor_ops fills ranges through
//! this crate; the cursor of tensor_terms evaluates single places through `Progress`.
#![tactic(auto)]

mod along;
mod lines;
mod located;
mod operation;
mod progress;
mod scanned;
mod taken;

pub use along::AlongLines;
pub use lines::Lines;
pub use operation::LineOperation;
pub use progress::Progress;
pub use taken::TakenLines;
