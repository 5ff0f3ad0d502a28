//! The cost of a step: about how long one thread takes for its values, in nanoseconds. A table has
//! the times for a thousand values in the cache, on an idle machine. It changes times alone, and no
//! value.

use crate::schedule::places_read::dims_of;
use crate::schedule::rows::row_width;
use crate::step::Step;
use tensor_ops::{
    Binary, BinaryScalar, Dims, Expr, Inputs, Movement, Node, Reducer, Tensor, Unary, UnaryScalar,
};

/// A thousand sums, differences, negations, absolute values or bitwise operations.
const SUMS: u64 = 200;

/// A thousand products, comparisons, shifts or choices.
const PRODUCTS: u64 = 400;

/// A thousand quotients or remainders.
const QUOTIENTS: u64 = 3_000;

/// A thousand values of a tensor, read in rows.
const IN_ROWS: u64 = 250;

/// A thousand values of a tensor, read in another order.
const SCATTERED: u64 = 300;

/// A thousand values, added up.
const ADDED_UP: u64 = 400;

/// A thousand values, combined by another reducer.
const COMBINED: u64 = 800;

/// A thousand products of a contraction or a convolution, added up.
const MULTIPLIED: u64 = 200;

/// A thousand places of a contraction's operands, read and packed.
const PACKED: u64 = 350;

/// A thousand values of a convolution, besides their products.
const SLID: u64 = 2_000;

/// The most values of an operand of a broadcast that are computed once, before all leaves, as
/// tensor_ops does.
const KEPT: u64 = 32_768;

/// Returns the time of one thread to compute a step's values, over inputs and the tensors of
/// earlier steps and of the steps left. Writing the values isn't counted.
pub(crate) fn cost_of(step: &Step, inputs: &Inputs, earlier: &[Tensor], left: &[Step]) -> u64 {
    let values = step.dims().size();
    let thousandfold = match step.expr().node() {
        Node::Unary(Unary::Reduce(reducer, _), operand) => {
            let places = size_of(operand, inputs, earlier, left);
            places.saturating_mul(combining(reducer))
        }
        Node::Binary(Binary::Contract(pairs), first, second) => {
            let width = match known_dims(first, inputs, earlier, left) {
                Some(dims) => row_width(dims, pairs, true),
                None => 1,
            };
            let (one, other) = (
                size_of(first, inputs, earlier, left),
                size_of(second, inputs, earlier, left),
            );
            let products = values.saturating_mul(width).saturating_mul(MULTIPLIED);
            products.saturating_add(one.saturating_add(other).saturating_mul(PACKED))
        }
        Node::Binary(Binary::Convolve(_), _, kernel) => {
            let width = size_of(kernel, inputs, earlier, left);
            values.saturating_mul(width.saturating_mul(MULTIPLIED).saturating_add(SLID))
        }
        Node::Unary(Unary::Along(operation, _), operand) => {
            let places = size_of(operand, inputs, earlier, left);
            places.saturating_mul(combining(operation.reducer()))
        }
        Node::Binary(Binary::Take(_), _, _) => values.saturating_mul(SCATTERED),
        _ => values.saturating_mul(thousand_of(step.expr(), values)),
    };
    thousandfold / 1000
}

/// Returns the number of values of an operand that is a tensor of known size, or else 0.
fn size_of(operand: &Expr, inputs: &Inputs, earlier: &[Tensor], left: &[Step]) -> u64 {
    match known_dims(operand, inputs, earlier, left) {
        Some(dims) => dims.size(),
        None => 0,
    }
}

/// Returns the dims of an operand that is a tensor: an input, or the tensor of an earlier step or
/// of one of the steps left.
fn known_dims<'a>(
    operand: &Expr,
    inputs: &'a Inputs,
    earlier: &'a [Tensor],
    left: &'a [Step],
) -> Option<&'a Dims> {
    if let Some(dims) = dims_of(operand, inputs, earlier) {
        return Some(dims);
    }
    let Node::Input(number) = operand.node() else {
        return None;
    };
    let before = u64::from(inputs.len()) + earlier.len() as u64;
    let step = left.get(u64::from(number).checked_sub(before)? as usize)?;
    Some(step.dims())
}

/// Returns the time for a thousand values of an expression, of which `places` values are needed.
fn thousand_of(expr: &Expr, places: u64) -> u64 {
    match expr.node() {
        Node::Input(_) | Node::Unary(Unary::Constant(_), _) => 0,
        Node::Unary(Unary::Move(Movement::Broadcast(counts)), a) => {
            if places / times(counts).max(1) <= KEPT {
                return IN_ROWS;
            }
            thousand_of(a, places).saturating_add(IN_ROWS)
        }
        Node::Unary(operation, a) => thousand_of(a, places).saturating_add(one_operand(operation)),
        Node::Binary(operation, a, b) => thousand_of(a, places)
            .saturating_add(thousand_of(b, places))
            .saturating_add(two_operands(operation)),
        Node::Ternary(_, a, b, c) => thousand_of(a, places)
            .saturating_add(thousand_of(b, places))
            .saturating_add(thousand_of(c, places))
            .saturating_add(PRODUCTS),
    }
}

/// Returns the time for a thousand values of an operation on one operand, without the operand's
/// time.
fn one_operand(operation: Unary<'_>) -> u64 {
    match operation {
        Unary::Each(UnaryScalar::Square | UnaryScalar::Not) => PRODUCTS,
        Unary::Each(_) => SUMS,
        Unary::Move(Movement::Reshape(_)) | Unary::Constant(_) => 0,
        Unary::Move(Movement::Shuffle(_) | Movement::Stride(_)) | Unary::Pad(_) => SCATTERED,
        Unary::Move(_) => IN_ROWS,
        Unary::Reduce(reducer, _) => combining(reducer),
        Unary::Along(operation, _) => combining(operation.reducer()),
    }
}

/// Returns the time for a thousand values of an operation on two operands, without the operands'
/// time.
fn two_operands(operation: Binary<'_>) -> u64 {
    match operation {
        Binary::Pairwise(
            BinaryScalar::Add
            | BinaryScalar::Sub
            | BinaryScalar::BitAnd
            | BinaryScalar::BitOr
            | BinaryScalar::BitXor,
        ) => SUMS,
        Binary::Pairwise(BinaryScalar::FloorDivide | BinaryScalar::Remainder) => QUOTIENTS,
        Binary::Pairwise(_) => PRODUCTS,
        Binary::Concat(_) | Binary::Take(_) => SCATTERED,
        Binary::Contract(_) | Binary::Convolve(_) => MULTIPLIED,
    }
}

/// Returns the time to combine a thousand values.
fn combining(reducer: Reducer) -> u64 {
    match reducer {
        Reducer::Sum => ADDED_UP,
        _ => COMBINED,
    }
}

/// Returns how many times a broadcast repeats its operand.
fn times(counts: &[u64]) -> u64 {
    let mut times = 1u64;
    for count in counts {
        times = times.saturating_mul(*count);
    }
    times
}
