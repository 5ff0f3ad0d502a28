//! Chooses the reductions that are evaluated run by run, without a list of the values that they
//! combine. The choice changes time and memory only, no value.

ghost use Rattle.std.specs.Prelude.{length, IsTrue};
ghost use Rattle.tensor_ops.specs.Parts.{has_parts};
ghost use Rattle.tensor_ops.specs.Term.{has_inputs};
ghost use Rattle.tensor_ops.specs.Tree.{term_of};

use tensor_ops::{Binary, Expr, Inputs, Node, Unary};
use tensor_terms::all_among;

/// Returns whether an expression is a reduction along the first axes of an element-wise operation.
/// The values that it combines into one then lie in a run, and a `PartEvaluator` combines them as
/// it computes them. A `TensorEvaluator` would first store all of them.
pub(crate) fn combines_an_operation(expr: &Expr, inputs: &Inputs) -> bool
    requires { IsTrue (has_inputs (term_of expr.now) (length inputs.now.tensors)) }
    ensures { IsTrue result → IsTrue (has_parts (term_of expr.now)) }
{
    let Node::Unary(Unary::Reduce(_, axes), operand) = expr.node() else {
        return false;
    };
    let Ok(dims) = operand.dims(inputs) else {
        return false;
    };
    is_on_values(operand) && come_first(all_among(axes, dims.rank()).as_slice())
}

/// Returns whether the last operation of an expression is element-wise: each value is computed from
/// the operands' values at its own place.
fn is_on_values(expr: &Expr) -> bool {
    match expr.node() {
        Node::Unary(Unary::Each(_), _)
        | Node::Binary(Binary::Pairwise(_), _, _)
        | Node::Ternary(_, _, _, _) => true,
        _ => false,
    }
}

/// Returns whether these axes, in ascending order, are the first axes: 0, 1, 2 and so on.
fn come_first(axes: &[u64]) -> bool {
    axes.iter().enumerate().all(|(k, axis)| *axis == k as u64)
}
