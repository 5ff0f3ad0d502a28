//! Says why a request text or a frame has its fault, and where: the place as a JSON pointer, and a
//! sentence that says what is there and what should be. It is proved that the fault and the place are
//! what the definition of a request says. What the sentences say is only tested (`tests/test_explain.py`).
#![tactic(auto)]

mod along;
mod explanation;
mod faultless;
mod fields;
mod found;
mod lets;
mod lines;
mod movements;
mod nodes;
mod operations;
mod pairs;
mod places;
mod pointers;
mod reasons;
mod shapes;
mod sizes;
mod source;
mod tensors;
mod texts;

pub use explanation::{Explanation, explain, explain_frame, no_memory};
pub use pointers::pointer;
