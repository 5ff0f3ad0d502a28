//! The operation of an expression, over other operands. tensor_reduce replaces parts of an
//! expression through these calls; a new variant of `Node` needs an arm here.

ghost use Rattle.std.specs.Prelude.{◌≡◌, IfOk};
ghost use Rattle.tensor_terms.specs.Term.{unary, binary, ternary, movement};
ghost use Rattle.tensor_terms.specs.Tree.{term_of, movement_at, unary_at, binary_at, ternary_at};

use crate::expr::Expr;
use crate::expr::node::{Binary, Movement, Ternary, Unary};
use std::alloc::{AllocError, Global};

impl Unary<'_> {
    /// Returns this operation over another operand. Copies the arguments.
    pub fn over(self, alloc: Global, operand: Expr) -> Result<Expr, AllocError>
        ensures { IfOk result (λ e. term_of e ≡ unary (unary_at self.entry) (term_of operand)) }
    {
        let operand = Box::new(alloc, operand)?;
        match self {
            Unary::Each(operation) => Ok(Expr::each(operation, operand)),
            Unary::Constant(value) => Ok(Expr::Constant(operand, value)),
            Unary::Move(movement) => moved(alloc, movement, operand),
            Unary::Pad(pairs) => Ok(Expr::Pad(operand, pairs.to_vec(alloc)?)),
            Unary::Reduce(reducer, axes) => {
                Ok(Expr::reduction(reducer, operand, axes.to_vec(alloc)?))
            }
            Unary::Along(operation, axis) => Ok(Expr::along(operation, operand, axis)),
        }
    }
}

impl Binary<'_> {
    /// Returns this operation over other operands. Copies the arguments.
    pub fn over(self, alloc: Global, first: Expr, second: Expr) -> Result<Expr, AllocError>
        ensures { IfOk result (λ e. term_of e
            ≡ binary (binary_at self.entry) (term_of first) (term_of second)) }
    {
        let first = Box::new(alloc, first)?;
        let second = Box::new(alloc, second)?;
        match self {
            Binary::Pairwise(operation) => Ok(Expr::pairwise(operation, first, second)),
            Binary::Concat(axis) => Ok(Expr::Concat(first, second, axis)),
            Binary::Contract(pairs) => Ok(Expr::Contract(first, second, pairs.to_vec(alloc)?)),
            Binary::Convolve(axes) => Ok(Expr::Convolve(first, second, axes.to_vec(alloc)?)),
            Binary::Take(axis) => Ok(Expr::Take(first, second, axis)),
        }
    }
}

impl Ternary {
    /// Returns this operation over other operands.
    pub fn over(
        self,
        alloc: Global,
        first: Expr,
        second: Expr,
        third: Expr,
    ) -> Result<Expr, AllocError>
        ensures { IfOk result (λ e. term_of e
            ≡ ternary (ternary_at self) (term_of first) (term_of second) (term_of third)) }
    {
        let first = Box::new(alloc, first)?;
        let second = Box::new(alloc, second)?;
        let third = Box::new(alloc, third)?;
        match self {
            Ternary::Select => Ok(Expr::Select(first, second, third)),
        }
    }
}

/// Returns the movement of an operand. Copies the arguments.
fn moved(alloc: Global, moving: Movement<'_>, operand: Box<Expr>) -> Result<Expr, AllocError>
    ensures { IfOk result (λ e. term_of e
        ≡ unary (movement (movement_at moving.entry)) (term_of operand.value)) }
{
    Ok(match moving {
        Movement::Broadcast(counts) => Expr::Broadcast(operand, counts.to_vec(alloc)?),
        Movement::Slice(offsets, extents) => {
            Expr::Slice(operand, offsets.to_vec(alloc)?, extents.to_vec(alloc)?)
        }
        Movement::Shuffle(order) => Expr::Shuffle(operand, order.to_vec(alloc)?),
        Movement::Reshape(sizes) => Expr::Reshape(operand, sizes.to_vec(alloc)?),
        Movement::Chip(offset, axis) => Expr::Chip(operand, offset, axis),
        Movement::Reverse(flags) => Expr::Reverse(operand, flags.to_vec(alloc)?),
        Movement::Stride(steps) => Expr::Stride(operand, steps.to_vec(alloc)?),
    })
}
