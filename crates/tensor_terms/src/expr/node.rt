//! The view of an expression by the number of its operands. A variant here is a constructor in
//! `specs/Term` and a line of `specs/Tree`; tensor_ops, tensor_reduce, expr_reader and
//! prepared_expressions match on these enums.

use crate::expr::Expr;
use tensor_scans::LineOperation;
use tensor_values::{BinaryScalar, Reducer, UnaryScalar};

/// An operation that moves values and changes none, with its arguments.
#[derive(Clone, Copy, Drop)]
pub enum Movement<'a> {
    /// The count of repetitions along each axis.
    Broadcast(&'a [u64]),
    /// The offset and the extent along each axis.
    Slice(&'a [u64], &'a [u64]),
    /// The operand's axis for each axis of the result.
    Shuffle(&'a [u64]),
    /// The sizes of the result.
    Reshape(&'a [u64]),
    /// The offset, and the axis that is dropped.
    Chip(u64, u64),
    /// Whether each axis is reversed.
    Reverse(&'a [bool]),
    /// The step along each axis.
    Stride(&'a [u64]),
}

/// An operation on one tensor.
#[derive(Clone, Copy, Drop)]
pub enum Unary<'a> {
    /// An operation on each value.
    Each(UnaryScalar),
    /// This value at all places.
    Constant(i64),
    /// A movement.
    Move(Movement<'a>),
    /// How many zeroes stand before and after the operand, along each axis.
    Pad(&'a [(u64, u64)]),
    /// A reduction over these axes.
    Reduce(Reducer, &'a [u64]),
    /// An operation along this axis.
    Along(LineOperation, u64),
}

/// An operation on two tensors.
#[derive(Clone, Copy, Drop)]
pub enum Binary<'a> {
    /// An operation on two values at the same place.
    Pairwise(BinaryScalar),
    /// The first operand followed by the second along this axis.
    Concat(u64),
    /// A contraction over pairs of axes: an axis of the first operand and one of the second.
    Contract(&'a [(u64, u64)]),
    /// A convolution along these axes, one for each axis of the kernel.
    Convolve(&'a [u64]),
    /// The first operand's values at the indices along this axis that the second operand holds.
    Take(u64),
}

/// An operation on three tensors.
#[derive(Clone, Copy, Drop)]
pub enum Ternary {
    /// The second operand's value where the first operand's value is true, else the third
    /// operand's.
    Select,
}

/// The operation of an expression, with its operands.
#[derive(Clone, Copy, Drop)]
pub enum Node<'a> {
    /// The input with this number.
    Input(u32),
    /// An operation on one tensor.
    Unary(Unary<'a>, &'a Expr),
    /// An operation on two tensors.
    Binary(Binary<'a>, &'a Expr, &'a Expr),
    /// An operation on three tensors.
    Ternary(Ternary, &'a Expr, &'a Expr, &'a Expr),
}
