//! Reads an expression from the numbers that record it. `write_tree` in `written.rt` writes them,
//! and `specs/Recorded` defines them.

ghost use Rattle.std.specs.Prelude.{◌≡◌, IfOk, IsTrue};
ghost use Rattle.tensor_terms.specs.Term.{has_inputs};
ghost use Rattle.tensor_terms.specs.Tree.{term_of};
ghost use Rattle.prepared_expressions.specs.Recorded.{recorded};
ghost use Rattle.prepared_expressions.specs.private.Told.{IsToldOf};

use crate::arguments::{binary_over, input_of, select_over, unary_over};
use crate::head::read_head;
use crate::kind::Kind;
use crate::refusal::Refusal;
use std::alloc::Global;
use tensor_terms::Expr;

/// The most nodes of an expression that lie one below the other. It limits the recursion.
pub(crate) const MAX_HEIGHT: u32 = 127;

/// An expression that was read, and the numbers after it.
#[derive(Drop)]
pub(crate) struct Read<'a> {
    pub(crate) expr: Expr,
    pub(crate) rest: &'a [u64],
}

/// Reads the expression that the first numbers record, over `inputs` tensors. `NoRecord` if more
/// than `height` of its nodes lie one below the other.
pub(crate) fn read_tree<'a>(
    alloc: Global,
    numbers: &'a [u64],
    inputs: u32,
    height: u32,
) -> Result<Read<'a>, Refusal>
    ensures found { IfOk result (λ read.
        numbers.now ≡ recorded (term_of read.expr) read.rest.now) }
    ensures inputs { IfOk result (λ read. IsTrue (has_inputs (term_of read.expr) inputs)) }
    ensures whole { IsToldOf numbers.now inputs height result }
{
    if height == 0 {
        return Err(Refusal::NoRecord);
    }
    let Some(head) = read_head(numbers) else {
        return Err(Refusal::NoRecord);
    };
    match head.kind {
        Kind::Input => {
            let expr = input_of(head.arguments, inputs)?;
            Ok(Read {
                expr,
                rest: head.rest,
            })
        }
        Kind::One(kind) => {
            let first = read_tree(alloc, head.rest, inputs, height - 1)?;
            let expr = unary_over(alloc, kind, head.arguments, first.expr)?;
            Ok(Read {
                expr,
                rest: first.rest,
            })
        }
        Kind::Two(kind) => {
            let first = read_tree(alloc, head.rest, inputs, height - 1)?;
            let second = read_tree(alloc, first.rest, inputs, height - 1)?;
            let expr = binary_over(alloc, kind, head.arguments, first.expr, second.expr)?;
            Ok(Read {
                expr,
                rest: second.rest,
            })
        }
        Kind::Select => {
            let first = read_tree(alloc, head.rest, inputs, height - 1)?;
            let second = read_tree(alloc, first.rest, inputs, height - 1)?;
            let third = read_tree(alloc, second.rest, inputs, height - 1)?;
            let expr = select_over(alloc, head.arguments, first.expr, second.expr, third.expr)?;
            Ok(Read {
                expr,
                rest: third.rest,
            })
        }
    }
}
