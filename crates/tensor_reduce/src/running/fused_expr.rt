//! Fused expressions: an operation reads an expression instead of a tensor. What they mean is
//! defined in specs/private/Fusing.

ghost use Rattle.std.specs.Prelude.{◌≡◌, ◌+◌, ◌<◌, ◌^◌, IfOk};
ghost use Rattle.tensor_ops.specs.Tree.{term_of};
ghost use Rattle.tensor_reduce.specs.private.Fusing.{instead, fused_with};

use std::alloc::{AllocError, Global};
use tensor_ops::{Expr, Node};

/// Returns an operation in which `expr` replaces each operand that is the tensor of a number.
pub(crate) fn fused_with(
    alloc: Global,
    reader: &Expr,
    number: u32,
    expr: &Expr,
) -> Result<Expr, AllocError>
    ensures { IfOk result (λ e.
        term_of e ≡ fused_with number (term_of expr.now) (term_of reader.now)) }
{
    match reader.node() {
        Node::Unary(operation, a) => operation.over(alloc, instead(alloc, a, number, expr)?),
        Node::Binary(operation, a, b) => {
            let first = instead(alloc, a, number, expr)?;
            operation.over(alloc, first, instead(alloc, b, number, expr)?)
        }
        Node::Input(_) | Node::Ternary(_, _, _, _) => copied(alloc, reader),
    }
}

/// Returns an operation in which `first` replaces each operand that is the tensor of a number, and
/// `second` each operand that is the tensor of the next number.
pub(crate) fn fused_with_both(
    alloc: Global,
    reader: &Expr,
    number: u32,
    first: &Expr,
    second: &Expr,
) -> Result<Expr, AllocError>
    requires { number + 1 < 2 ^ 32 }
    ensures { IfOk result (λ e. term_of e ≡ fused_with number (term_of first.now)
        (fused_with (number + 1) (term_of second.now) (term_of reader.now))) }
{
    let half = fused_with(alloc, reader, number + 1, second)?;
    fused_with(alloc, &half, number, first)
}

/// Returns a copy of an operand, or of `expr` if the operand is the tensor of a number.
fn instead(alloc: Global, operand: &Expr, number: u32, expr: &Expr) -> Result<Expr, AllocError>
    ensures { IfOk result (λ e.
        term_of e ≡ instead number (term_of expr.now) (term_of operand.now)) }
{
    match operand.node() {
        Node::Input(other) => {
            if other == number {
                return copied(alloc, expr);
            }
            Ok(Expr::Input(other))
        }
        _ => copied(alloc, operand),
    }
}

/// Returns a copy of an expression.
pub(crate) fn copied(alloc: Global, expr: &Expr) -> Result<Expr, AllocError>
    ensures { IfOk result (λ copy. term_of copy ≡ term_of expr.now) }
{
    match expr.node() {
        Node::Input(number) => Ok(Expr::Input(number)),
        Node::Unary(operation, a) => operation.over(alloc, copied(alloc, a)?),
        Node::Binary(operation, a, b) => {
            operation.over(alloc, copied(alloc, a)?, copied(alloc, b)?)
        }
        Node::Ternary(operation, a, b, c) => {
            let first = copied(alloc, a)?;
            operation.over(alloc, first, copied(alloc, b)?, copied(alloc, c)?)
        }
    }
}
