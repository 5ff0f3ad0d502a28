//! Expressions over tensors of wrapping 64-bit integers, as in Eigen's Tensor module: their result
//! dims, the value at one place, and the values of any range of places, on one thread. An
//! expression is lowered to a tree without dims, its views are sunk to the lists that they read,
//! and the values are then computed by loops over places. README.md has the picture, CALLING.md the
//! calls in order.
//!
//! The readers of requests, prepared_expressions, tensor_reduce and tensor_runner use what is
//! public here. The contracts of lowering and of evaluation meet in specs/private/Meaning, which
//! no other crate cites.
#![tactic(auto)]

mod evaluator;
mod lowered;
mod lowering;
mod operands;
mod part_evaluator;

pub use evaluator::TensorEvaluator;
pub use evaluator::plain::eval_plain;
pub use part_evaluator::PartEvaluator;
pub use tensor_kernels::{BAND_COLUMNS, PAIRED_COLUMNS, TILED_ROWS, WIDE_BAND_COLUMNS};
pub use tensor_scans::LineOperation;
pub use tensor_shape::{Bounds, Dims, MAX_ELEMENTS, MAX_RANK, ShapeFault, TEXT_ELEMENTS, WIDEST};
pub use tensor_terms::{
    Binary, Cursor, Expr, ExprFault, Inputs, Movement, Node, TEXT_PRODUCTS, Tensor, Ternary, Unary,
    index_lists_are_merged_once,
};
pub use tensor_values::{BinaryScalar, Reducer, UnaryScalar};
