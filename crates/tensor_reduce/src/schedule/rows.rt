//! The width of the rows of a contraction's operand, and which of the two operands a tensor is.

ghost use Rattle.std.specs.Prelude.{◌≡◌};
ghost use Rattle.tensor_ops.specs.Tree.{term_of};
ghost use Rattle.tensor_reduce.specs.private.Readers.{is_tensor};

use tensor_ops::{Dims, Expr, Node};

/// Returns the number of values of a row of the first or the second operand of a contraction.
pub(crate) fn row_width(dims: &Dims, pairs: &[(u64, u64)], is_first: bool) -> u64 {
    let mut width = 1u64;
    for pair in pairs {
        let axis = if is_first { pair.0 } else { pair.1 };
        if let Some(size) = dims.as_slice().get(axis as usize) {
            width = width.saturating_mul(*size);
        }
    }
    width
}

/// Returns whether an expression is the tensor of a number.
pub(crate) fn is_tensor(expr: &Expr, number: u64) -> bool
    ensures { result ≡ is_tensor number (term_of expr.now) }
{
    let Node::Input(other) = expr.node() else {
        return false;
    };
    u64::from(other) == number
}
