//! Expressions over tensors of wrapping 64-bit integers, and their meaning: the result dims or the
//! first fault, and the value at one place. Evaluation by ranges is in tensor_ops. A change of a
//! definition in `specs/` changes the meaning of the programs; every crate of tensors is proved
//! against these definitions.
#![tactic(auto)]

mod cursor;
mod dims;
mod expr;
mod fault;
mod index;
mod laws;
mod tensor;

pub use cursor::Cursor;
pub use dims::along_dims::{along_dims, taken_dims};
pub use dims::concatenation_dims::concatenated_dims;
pub use dims::contraction_dims::{TEXT_PRODUCTS, contracted_dims, paired_axes};
pub use dims::convolution_dims::convolved_dims;
pub use dims::movement_dims::{extend, moved_dims, shuffled};
pub use dims::reduction_dims::reduced_dims;
pub use expr::Expr;
pub use expr::node::{Binary, Movement, Node, Ternary, Unary};
pub use fault::ExprFault;
pub use index::axis_lines::lines_along;
pub use index::index_parts::{all_among, axes_first, dims_at, other_dims};
pub use index::interleaved_index::turns_along;
pub use index::merged::{among, next_among, next_other, others, span};
pub use laws::index_lists_are_merged_once;
pub use tensor::Tensor;
pub use tensor::inputs::Inputs;
pub use tensor::tensors::Tensors;
