//! Dims of tensors, index lists and the places of elements. The layout is column-major as in
//! Eigen's Tensor module: the first axis is the fastest. A change of a number here touches
//! `specs/Legal`; a change of the layout touches every crate of tensors.
#![tactic(auto)]

mod bounds;
mod dims;
mod shape_fault;

pub use bounds::{Bounds, WIDEST};
pub use dims::{Dims, PerAxis};
pub use shape_fault::ShapeFault;

/// The highest rank of a tensor.
pub const MAX_RANK: usize = 8;

/// The greatest product of all dimensions of a tensor, a 0 counted as 1.
pub const MAX_ELEMENTS: u64 = 268_435_456;

/// The greatest product of all dimensions of a tensor in a request text, a 0 counted as 1.
pub const TEXT_ELEMENTS: u64 = 1_048_576;
