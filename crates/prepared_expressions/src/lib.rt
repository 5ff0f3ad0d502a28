//! Prepared expressions: an expression and the dims of its inputs, checked once and written as
//! numbers (a record), which is then evaluated over arrays again and again. A request is evaluated
//! by the same type, `Ready`. `tensor_c` is the only caller in this repository. The format of a
//! record is `specs/Prepared`, `Numbers` and `Recorded`; the writer (`written.rt`) and the reader
//! (`tree.rt`) change together.
#![tactic(auto)]

mod arguments;
mod by_runs;
mod head;
mod inputs;
mod kind;
mod prepared;
mod ready;
mod refusal;
mod tree;
mod written;

pub use prepared::{prepare, read_over};
pub use ready::Ready;
pub use refusal::Refusal;
