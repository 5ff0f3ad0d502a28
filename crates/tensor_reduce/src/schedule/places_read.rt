//! The sizes of the tensors that expressions read.

use crate::schedule::rows::row_width;
use tensor_ops::{Binary, Dims, Expr, Inputs, Movement, Node, Tensor, Unary};

/// The most values of a tensor that is read as fast in any order as in its own: 256 KiB.
const NEAR: u64 = 32_768;

/// Returns the size of the larger operand of a step that combines values: a reduction, contraction,
/// convolution, take or operation along an axis. It is 0 for other steps.
pub(crate) fn places_combined(expr: &Expr, inputs: &Inputs, earlier: &[Tensor]) -> u64 {
    match expr.node() {
        Node::Unary(operation, a) if operation.combines() => places_of(a, inputs, earlier),
        Node::Binary(operation, a, b) if operation.combines() => {
            places_of(a, inputs, earlier).max(places_of(b, inputs, earlier))
        }
        _ => 0,
    }
}

/// Returns the size of an operand that is an input or the tensor of an earlier step, or else 0.
fn places_of(operand: &Expr, inputs: &Inputs, earlier: &[Tensor]) -> u64 {
    match dims_of(operand, inputs, earlier) {
        Some(dims) => dims.size(),
        None => 0,
    }
}

/// Returns the dims of an operand that is an input or the tensor of an earlier step.
pub(crate) fn dims_of<'a>(
    operand: &Expr,
    inputs: &'a Inputs,
    earlier: &'a [Tensor],
) -> Option<&'a Dims> {
    let Node::Input(number) = operand.node() else {
        return None;
    };
    if number < inputs.len() {
        return Some(inputs.get(number).dims());
    }
    let tensor = earlier.get((number - inputs.len()) as usize)?;
    Some(tensor.dims())
}

/// Returns the number of rows of a column of a contraction's result, if the first operand is a
/// tensor: a row for each index list of that operand's axes that aren't paired.
pub(crate) fn rows_of_column(expr: &Expr, inputs: &Inputs, earlier: &[Tensor]) -> Option<u64> {
    let Node::Binary(Binary::Contract(pairs), first, _) = expr.node() else {
        return None;
    };
    let dims = dims_of(first, inputs, earlier)?;
    Some(dims.size() / row_width(dims, pairs, true).max(1))
}

/// Returns whether the values of an expression are computed as fast in any order as in the order of
/// their places: it has only operations on values and movements other than reshapes, and the
/// tensors that it reads are small.
pub(crate) fn is_read_in_any_order(expr: &Expr, inputs: &Inputs, earlier: &[Tensor]) -> bool {
    match expr.node() {
        Node::Input(_) => places_of(expr, inputs, earlier) <= NEAR,
        Node::Unary(
            Unary::Move(Movement::Reshape(_))
            | Unary::Pad(_)
            | Unary::Reduce(_, _)
            | Unary::Along(_, _),
            _,
        ) => false,
        Node::Unary(_, a) => is_read_in_any_order(a, inputs, earlier),
        Node::Binary(Binary::Pairwise(_), a, b) => {
            is_read_in_any_order(a, inputs, earlier) && is_read_in_any_order(b, inputs, earlier)
        }
        Node::Binary(_, _, _) => false,
        Node::Ternary(_, a, b, c) => {
            is_read_in_any_order(a, inputs, earlier)
                && is_read_in_any_order(b, inputs, earlier)
                && is_read_in_any_order(c, inputs, earlier)
        }
    }
}
