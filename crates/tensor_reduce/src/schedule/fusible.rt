//! Which steps may be fused into their readers, and which readers may have steps fused into them.

ghost use Rattle.std.specs.Prelude.{IsTrue};
ghost use Rattle.tensor_ops.specs.Parts.{has_parts};
ghost use Rattle.tensor_ops.specs.Tree.{term_of};
ghost use Rattle.tensor_reduce.specs.Plan.{term_of_step};

use crate::schedule::sharding::{are_first, has_contiguous_parts};
use crate::step::Step;
use tensor_ops::{Binary, Expr, Node, Unary};

/// An operand of at most this number of values gets a tensor of its own, though it is read once.
pub(crate) const SHORT: u64 = 4096;

/// Returns whether a step has many values, and each can be computed as it is read. A step that
/// combines values is not fusible, since its values are computed together by all workers.
pub(crate) fn is_fusible(step: &Step) -> bool {
    step.dims().size() > SHORT && !step.expr().combines()
}

/// Returns whether an expression is a reduction into which its operand may be fused: the values
/// that are combined lie side by side, or can be read in any order.
pub(crate) fn is_fusing_reduction(expr: &Expr, in_any_order: bool) -> bool
    ensures { IsTrue result → IsTrue (has_parts (term_of expr.now)) }
{
    match expr.node() {
        Node::Unary(Unary::Reduce(_, axes), _) => in_any_order || are_first(axes),
        _ => false,
    }
}

/// Returns whether a step is a contraction of one value over the first axes of both operands.
pub(crate) fn is_inner_product(step: &Step) -> bool
    ensures { IsTrue result → IsTrue (has_parts (term_of_step step.now)) }
{
    let is_contraction = matches!(step.expr().node(), Node::Binary(Binary::Contract(_), _, _));
    step.dims().size() == 1 && is_contraction && has_contiguous_parts(step.expr())
}

/// Returns whether an expression is a strided view: a tensor, moved so that a contraction can read
/// its values where they lie.
pub(crate) fn is_strided_view(expr: &Expr) -> bool {
    match expr.node() {
        Node::Input(_) => true,
        Node::Unary(Unary::Move(movement), a) => movement.keeps_strides() && is_strided_view(a),
        _ => false,
    }
}
