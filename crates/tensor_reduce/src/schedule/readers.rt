//! Which steps read a tensor. Fusing and freeing rest on this; specs/Readers and
//! specs/private/Readers define it.

ghost use Rattle.std.specs.Prelude.{◌≡◌, ◌+◌, ◌<◌, ◌^◌, false};
ghost use Rattle.tensor_ops.specs.Tree.{term_of};
ghost use Rattle.tensor_reduce.specs.Plan.{term_of_step};
ghost use Rattle.tensor_reduce.specs.Readers.{reads};
ghost use Rattle.tensor_reduce.specs.private.Readers.{are_reading, is_over};

use crate::schedule::rows::is_tensor;
use crate::step::Step;
use tensor_ops::{Expr, Node};

/// Returns whether one of the steps reads the tensor of a number.
pub(crate) fn are_reading(steps: &[Step], number: u32) -> bool
    ensures { result ≡ are_reading number steps.now }
{
    for step in steps {
        if reads(step.expr(), number) {
            return true;
        }
    }
    false
}

/// Returns whether two operands are read elsewhere: the second step reads the first one's tensor,
/// which has the given number, or a later step reads the tensor of either.
pub(crate) fn are_read_elsewhere(number: u32, second: &Step, later: &[Step]) -> bool
    requires { number + 1 < 2 ^ 32 }
    ensures second { result ≡ false → reads number (term_of_step second.now) ≡ false }
    ensures first_later { result ≡ false → are_reading number later.now ≡ false }
    ensures second_later { result ≡ false → are_reading (number + 1) later.now ≡ false }
{
    reads(second.expr(), number) || are_reading(later, number) || are_reading(later, number + 1)
}

/// Returns whether an expression reads the tensor of a number.
pub fn reads(expr: &Expr, number: u32) -> bool
    ensures { result ≡ reads number (term_of expr.now) }
{
    match expr.node() {
        Node::Input(other) => other == number,
        Node::Unary(_, a) => reads(a, number),
        Node::Binary(_, a, b) => reads(a, number) || reads(b, number),
        Node::Ternary(_, a, b, c) => reads(a, number) || (reads(b, number) || reads(c, number)),
    }
}

/// Returns whether an expression is one operation on the tensor of a number alone.
pub(crate) fn is_over(expr: &Expr, number: u32) -> bool
    ensures { result ≡ is_over number (term_of expr.now) }
{
    match expr.node() {
        Node::Unary(_, operand) => is_tensor(operand, u64::from(number)),
        Node::Input(_) | Node::Binary(_, _, _) | Node::Ternary(_, _, _, _) => false,
    }
}
