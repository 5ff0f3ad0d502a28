//! Expressions: one variant for each operation. A new variant needs a line of `term_of`
//! (`specs/Tree`) and an arm of `Expr::node`; the other crates see expressions through `Node`.

mod facts;
pub(crate) mod node;
pub(crate) mod rebuilt;

ghost use Rattle.std.specs.Prelude.{◌≡◌};
ghost use Rattle.tensor_terms.specs.Term.{unary, binary, along, each, movement, reduce, pairwise};
ghost use Rattle.tensor_terms.specs.Tree.{term_of, movement_at, term_at};

use crate::expr::node::{Binary, Movement, Node, Ternary, Unary};
use std::alloc::Global;
use tensor_scans::LineOperation;
use tensor_values::{BinaryScalar, Reducer, UnaryScalar, binary_names, unary_names};

/// A tree of operations over inputs, with one variant for each operation. Values are 64-bit signed
/// integers, and results are taken modulo 2^64. A value is true if it isn't 0. Comparisons and
/// logical operations give 1 for true and 0 for false. The operands of an operation on two or three
/// tensors value by value have equal dims.
pub enum Expr {
    /// The input with this number, counted from 0.
    Input(u32),
    /// Each value negated.
    Neg(Box<Expr>),
    /// The absolute value of each value.
    Abs(Box<Expr>),
    /// The square of each value.
    Square(Box<Expr>),
    /// Whether each value is 0.
    Not(Box<Expr>),
    /// The bitwise complement of each value.
    BitNot(Box<Expr>),
    /// How many bits of the absolute value of each value are set.
    BitCount(Box<Expr>),
    /// The sum of two values.
    Add(Box<Expr>, Box<Expr>),
    /// The first value less the second.
    Sub(Box<Expr>, Box<Expr>),
    /// The product of two values.
    Mul(Box<Expr>, Box<Expr>),
    /// The greater of two values.
    CwiseMax(Box<Expr>, Box<Expr>),
    /// The lesser of two values.
    CwiseMin(Box<Expr>, Box<Expr>),
    /// Whether the first value is below the second.
    Lt(Box<Expr>, Box<Expr>),
    /// Whether the first value is at most the second.
    Le(Box<Expr>, Box<Expr>),
    /// Whether two values are equal.
    Eq(Box<Expr>, Box<Expr>),
    /// Whether two values differ.
    Ne(Box<Expr>, Box<Expr>),
    /// Whether the first value is above the second.
    Gt(Box<Expr>, Box<Expr>),
    /// Whether the first value is at least the second.
    Ge(Box<Expr>, Box<Expr>),
    /// Whether both values are true.
    And(Box<Expr>, Box<Expr>),
    /// Whether at least one of two values is true.
    Or(Box<Expr>, Box<Expr>),
    /// The first value divided by the second, rounded down; 0 if the second is 0.
    FloorDivide(Box<Expr>, Box<Expr>),
    /// The remainder of that division, which has the sign of the second value; 0 if the second is
    /// 0.
    Remainder(Box<Expr>, Box<Expr>),
    /// The bitwise and of two values.
    BitAnd(Box<Expr>, Box<Expr>),
    /// The bitwise or of two values.
    BitOr(Box<Expr>, Box<Expr>),
    /// The bitwise exclusive or of two values.
    BitXor(Box<Expr>, Box<Expr>),
    /// The first value shifted left by the second, x * 2^y; 0 if y is below 0 or above 63.
    ShiftLeft(Box<Expr>, Box<Expr>),
    /// The first value shifted right by the second, x / 2^y rounded down. If y is below 0 or above
    /// 63, the result is 0, or -1 for a negative x.
    ShiftRight(Box<Expr>, Box<Expr>),
    /// The second operand's value where the first operand's value is true, else the third
    /// operand's.
    Select(Box<Expr>, Box<Expr>, Box<Expr>),
    /// This value at each place of the operand's dims.
    Constant(Box<Expr>, i64),
    /// The operand repeated along each axis, by the count given for that axis.
    Broadcast(Box<Expr>, Vec<u64>),
    /// The part of the operand that begins at these offsets and has these extents, one for each
    /// axis.
    Slice(Box<Expr>, Vec<u64>, Vec<u64>),
    /// The operand with its axes in this order: axis k of the result is axis `order[k]` of the
    /// operand.
    Shuffle(Box<Expr>, Vec<u64>),
    /// The operand's values in order of their places, over dims of these sizes.
    Reshape(Box<Expr>, Vec<u64>),
    /// The slice at an offset along an axis, which the result lacks: first the offset, then the
    /// axis.
    Chip(Box<Expr>, u64, u64),
    /// The operand reversed along each axis whose flag is set.
    Reverse(Box<Expr>, Vec<bool>),
    /// Every step-th value along each axis, beginning at index 0; one step for each axis.
    Stride(Box<Expr>, Vec<u64>),
    /// The operand with zeroes before and after it along each axis: one pair of counts for each
    /// axis.
    Pad(Box<Expr>, Vec<(u64, u64)>),
    /// The first operand followed by the second along this axis. Their other dimensions are equal.
    Concat(Box<Expr>, Box<Expr>, u64),
    /// The sum of the values along these axes, which the result lacks.
    Sum(Box<Expr>, Vec<u64>),
    /// The product of the values along these axes, which the result lacks.
    Prod(Box<Expr>, Vec<u64>),
    /// The greatest value along these axes, which the result lacks; the least `i64` if there are
    /// none.
    Maximum(Box<Expr>, Vec<u64>),
    /// The least value along these axes, which the result lacks; the greatest `i64` if there are
    /// none.
    Minimum(Box<Expr>, Vec<u64>),
    /// Whether all values along these axes, which the result lacks, are true.
    All(Box<Expr>, Vec<u64>),
    /// Whether at least one value along these axes, which the result lacks, is true.
    Any(Box<Expr>, Vec<u64>),
    /// The sums of products along pairs of axes, an axis of the first operand and one of the
    /// second. The result has the first operand's other axes and then the second operand's.
    Contract(Box<Expr>, Box<Expr>, Vec<(u64, u64)>),
    /// The sums of products of the kernel, which is the second operand, and the values under it, at
    /// each position where the kernel lies within the first operand. `axes[k]` is the axis of the
    /// first operand along which axis k of the kernel lies. The kernel is not reversed.
    Convolve(Box<Expr>, Box<Expr>, Vec<u64>),
    /// The sum of each value and all values before it along this axis.
    Cumsum(Box<Expr>, u64),
    /// The product of each value and all values before it along this axis.
    Cumprod(Box<Expr>, u64),
    /// The first index along this axis at which the greatest value stands; 0 if the axis has size
    /// 0. The result lacks the axis.
    Argmax(Box<Expr>, u64),
    /// The first index along this axis at which the least value stands; 0 if the axis has size 0.
    /// The result lacks the axis.
    Argmin(Box<Expr>, u64),
    /// The first operand's values at the indices along this axis that the second operand holds; 0
    /// for an index outside the axis. The second operand's axes take the place of this axis.
    Take(Box<Expr>, Box<Expr>, u64),
}

/// Returns the expression that the operation makes of the operands.
macro_rules! expression {
    (($($name:ident)*), $kind:ident, $operation:expr, $operands:tt) => {
        match $operation {
            $($kind::$name => Expr::$name $operands,)*
        }
    };
}

/// Matches each expression by one of the operations.
macro_rules! any_of {
    (($($name:ident)*), $fields:tt) => { $(Expr::$name $fields)|* };
}

// One `drop` for all variants: the prover unfolds a derived one wherever an expression is dropped.
impl Drop for Expr {
    fn drop(self) {
        match self {
            Expr::Input(_)
            | unary_names!(any_of, (_))
            | binary_names!(any_of, (_, _))
            | Expr::Select(_, _, _)
            | Expr::Constant(_, _)
            | Expr::Broadcast(_, _)
            | Expr::Slice(_, _, _)
            | Expr::Shuffle(_, _)
            | Expr::Reshape(_, _)
            | Expr::Chip(_, _, _)
            | Expr::Reverse(_, _)
            | Expr::Stride(_, _)
            | Expr::Pad(_, _)
            | Expr::Concat(_, _, _)
            | Expr::Sum(_, _)
            | Expr::Prod(_, _)
            | Expr::Maximum(_, _)
            | Expr::Minimum(_, _)
            | Expr::All(_, _)
            | Expr::Any(_, _)
            | Expr::Contract(_, _, _)
            | Expr::Convolve(_, _, _)
            | Expr::Cumsum(_, _)
            | Expr::Cumprod(_, _)
            | Expr::Argmax(_, _)
            | Expr::Argmin(_, _)
            | Expr::Take(_, _, _) => {}
        }
    }
}

impl Expr {
    /// Returns an operation on each value.
    pub fn each(operation: UnaryScalar, operand: Box<Expr>) -> Expr
        ensures { term_of result ≡ unary (each operation) (term_of operand.value) }
    {
        unary_names!(expression, UnaryScalar, operation, (operand))
    }

    /// Returns an operation on the values of two tensors of equal dims, value by value.
    pub fn pairwise(operation: BinaryScalar, left: Box<Expr>, right: Box<Expr>) -> Expr
        ensures { term_of result
            ≡ binary (pairwise operation) (term_of left.value) (term_of right.value) }
    {
        binary_names!(expression, BinaryScalar, operation, (left, right))
    }

    /// Returns a reduction over axes.
    pub fn reduction(reducer: Reducer, operand: Box<Expr>, axes: Vec<u64>) -> Expr
        ensures { term_of result ≡ unary (reduce reducer axes.items) (term_of operand.value) }
    {
        match reducer {
            Reducer::Sum => Expr::Sum(operand, axes),
            Reducer::Prod => Expr::Prod(operand, axes),
            Reducer::Max => Expr::Maximum(operand, axes),
            Reducer::Min => Expr::Minimum(operand, axes),
            Reducer::All => Expr::All(operand, axes),
            Reducer::Any => Expr::Any(operand, axes),
        }
    }

    /// Returns an operation along an axis.
    pub fn along(operation: LineOperation, operand: Box<Expr>, axis: u64) -> Expr
        ensures { term_of result ≡ unary (along operation axis) (term_of operand.value) }
    {
        match operation {
            LineOperation::Cumsum => Expr::Cumsum(operand, axis),
            LineOperation::Cumprod => Expr::Cumprod(operand, axis),
            LineOperation::Argmax => Expr::Argmax(operand, axis),
            LineOperation::Argmin => Expr::Argmin(operand, axis),
        }
    }

    /// Returns the operation and its operands.
    pub fn node(&self) -> Node<'_>
        ensures { term_at result ≡ term_of self.now }
    {
        match self {
            Expr::Input(number) => Node::Input(*number),
            Expr::Neg(a) => applied(UnaryScalar::Neg, a),
            Expr::Abs(a) => applied(UnaryScalar::Abs, a),
            Expr::Square(a) => applied(UnaryScalar::Square, a),
            Expr::Not(a) => applied(UnaryScalar::Not, a),
            Expr::BitNot(a) => applied(UnaryScalar::BitNot, a),
            Expr::BitCount(a) => applied(UnaryScalar::BitCount, a),
            Expr::Add(a, b) => combined(BinaryScalar::Add, a, b),
            Expr::Sub(a, b) => combined(BinaryScalar::Sub, a, b),
            Expr::Mul(a, b) => combined(BinaryScalar::Mul, a, b),
            Expr::CwiseMax(a, b) => combined(BinaryScalar::CwiseMax, a, b),
            Expr::CwiseMin(a, b) => combined(BinaryScalar::CwiseMin, a, b),
            Expr::Lt(a, b) => combined(BinaryScalar::Lt, a, b),
            Expr::Le(a, b) => combined(BinaryScalar::Le, a, b),
            Expr::Eq(a, b) => combined(BinaryScalar::Eq, a, b),
            Expr::Ne(a, b) => combined(BinaryScalar::Ne, a, b),
            Expr::Gt(a, b) => combined(BinaryScalar::Gt, a, b),
            Expr::Ge(a, b) => combined(BinaryScalar::Ge, a, b),
            Expr::And(a, b) => combined(BinaryScalar::And, a, b),
            Expr::Or(a, b) => combined(BinaryScalar::Or, a, b),
            Expr::FloorDivide(a, b) => combined(BinaryScalar::FloorDivide, a, b),
            Expr::Remainder(a, b) => combined(BinaryScalar::Remainder, a, b),
            Expr::BitAnd(a, b) => combined(BinaryScalar::BitAnd, a, b),
            Expr::BitOr(a, b) => combined(BinaryScalar::BitOr, a, b),
            Expr::BitXor(a, b) => combined(BinaryScalar::BitXor, a, b),
            Expr::ShiftLeft(a, b) => combined(BinaryScalar::ShiftLeft, a, b),
            Expr::ShiftRight(a, b) => combined(BinaryScalar::ShiftRight, a, b),
            Expr::Select(c, a, b) => Node::Ternary(Ternary::Select, c, a, b),
            Expr::Constant(a, value) => Node::Unary(Unary::Constant(*value), a),
            Expr::Broadcast(a, counts) => moved(Movement::Broadcast(counts), a),
            Expr::Slice(a, offsets, extents) => moved(Movement::Slice(offsets, extents), a),
            Expr::Shuffle(a, order) => moved(Movement::Shuffle(order), a),
            Expr::Reshape(a, sizes) => moved(Movement::Reshape(sizes), a),
            Expr::Chip(a, offset, axis) => moved(Movement::Chip(*offset, *axis), a),
            Expr::Reverse(a, flags) => moved(Movement::Reverse(flags), a),
            Expr::Stride(a, steps) => moved(Movement::Stride(steps), a),
            Expr::Pad(a, pairs) => Node::Unary(Unary::Pad(pairs), a),
            Expr::Concat(a, b, axis) => Node::Binary(Binary::Concat(*axis), a, b),
            Expr::Sum(a, axes) => reduced(Reducer::Sum, axes, a),
            Expr::Prod(a, axes) => reduced(Reducer::Prod, axes, a),
            Expr::Maximum(a, axes) => reduced(Reducer::Max, axes, a),
            Expr::Minimum(a, axes) => reduced(Reducer::Min, axes, a),
            Expr::All(a, axes) => reduced(Reducer::All, axes, a),
            Expr::Any(a, axes) => reduced(Reducer::Any, axes, a),
            Expr::Contract(a, b, pairs) => Node::Binary(Binary::Contract(pairs), a, b),
            Expr::Convolve(a, b, axes) => Node::Binary(Binary::Convolve(axes), a, b),
            Expr::Cumsum(a, axis) => along(LineOperation::Cumsum, *axis, a),
            Expr::Cumprod(a, axis) => along(LineOperation::Cumprod, *axis, a),
            Expr::Argmax(a, axis) => along(LineOperation::Argmax, *axis, a),
            Expr::Argmin(a, axis) => along(LineOperation::Argmin, *axis, a),
            Expr::Take(a, b, axis) => Node::Binary(Binary::Take(*axis), a, b),
        }
    }
}

/// Returns the node of an operation on each value.
fn applied<'a>(operation: UnaryScalar, operand: &'a Expr) -> Node<'a>
    ensures { term_at result ≡ unary (each operation) (term_of operand.now) }
{
    Node::Unary(Unary::Each(operation), operand)
}

/// Returns the node of an operation on two tensors value by value.
fn combined<'a>(operation: BinaryScalar, left: &'a Expr, right: &'a Expr) -> Node<'a>
    ensures { term_at result
        ≡ binary (pairwise operation) (term_of left.now) (term_of right.now) }
{
    Node::Binary(Binary::Pairwise(operation), left, right)
}

/// Returns the node of a movement.
fn moved<'a>(moving: Movement<'a>, operand: &'a Expr) -> Node<'a>
    ensures { term_at result ≡ unary (movement (movement_at moving.entry)) (term_of operand.now) }
{
    Node::Unary(Unary::Move(moving), operand)
}

/// Returns the node of a reduction.
fn reduced<'a>(reducer: Reducer, axes: &'a [u64], operand: &'a Expr) -> Node<'a>
    ensures { term_at result ≡ unary (reduce reducer axes.now) (term_of operand.now) }
{
    Node::Unary(Unary::Reduce(reducer, axes), operand)
}

/// Returns the node of an operation along an axis.
fn along<'a>(operation: LineOperation, axis: u64, operand: &'a Expr) -> Node<'a>
    ensures { term_at result ≡ unary (along operation axis) (term_of operand.now) }
{
    Node::Unary(Unary::Along(operation, axis), operand)
}
