//! The last operation of an expression, made ready to be evaluated by ranges of places. A new
//! operation that needs lists for operands is added here and in `lowering`; specs/private/Root
//! defines the values.

ghost use Rattle.std.specs.Prelude.{◌≡◌, ◌<◌, ◌≤◌, ◌+◌, ◌-◌, ℕ, length, map, IsTrue, IsOk, IfOk};
ghost use Rattle.std.specs.Prelude.{OnOk};
ghost use Rattle.std.specs.List.{range_with_len};
ghost use Rattle.tensor_shape.specs.Legal.{widest};
ghost use Rattle.tensor_ops.specs.private.Lowering.{Gives, HasValues};
ghost use Rattle.tensor_values.specs.Values.{value_in};
ghost use Rattle.tensor_terms.specs.Result.{dims_of, shape_of};
ghost use Rattle.tensor_terms.specs.Tensors.{tensors_in};
ghost use Rattle.tensor_terms.specs.Term.{has_inputs};
ghost use Rattle.tensor_terms.specs.Tree.{term_of};
ghost use Rattle.tensor_terms.specs.Value.{value};

use crate::lowered::Lowered;
use crate::lowered::sinking::sunk_over;
use crate::lowering::axis::{along_of, take_of};
use crate::lowering::convolution::convolution_of;
use crate::lowering::part::Part;
use crate::lowering::ready::{contraction_of, reduction_of};
use crate::lowering::{lower, lower_two};
use crate::operands::along::LineResults;
use crate::operands::reduction::Reduction;
use std::alloc::{AllocError, Allocator, Global};
use tensor_kernels::Contraction;
use tensor_shape::Dims;
use tensor_terms::{Binary, Expr, Node, Tensors, Unary};

/// The most places of operands of broadcasts that are evaluated when an expression is lowered, all
/// together: 256 KiB of values.
pub(crate) const MOST_STORED: usize = 32_768;

/// An expression made ready: a lowered tree, or the last operation with its operands as lists.
pub(crate) enum Root<'a> {
    Lowered(Lowered<'a>),
    Reduction(Reduction<'a>),
    Contraction(Contraction<'a>),
    Along(LineResults<'a>),
}

// Written out, as a derived drop would be unfolded in each proof that drops a root.
impl Drop for Root<'_> {
    fn drop(self) {
        match self {
            Root::Lowered(_) | Root::Reduction(_) | Root::Contraction(_) | Root::Along(_) => {}
        }
    }
}

impl<'a> Root<'a> {
    ghost use Rattle.tensor_ops.specs.private.Root.{root_value, root_count, IsSoundRoot};

    /// Returns the root of an expression and its result dims.
    pub(crate) fn of(
        alloc: Global,
        expr: &Expr,
        tensors: Tensors<'a>,
    ) -> Result<(Root<'a>, Dims), AllocError>
        requires inputs { IsTrue (has_inputs (term_of expr.now) (length (tensors_in tensors))) }
        requires dims { IsOk (dims_of widest (term_of expr.now) (tensors_in tensors)) }
        ensures sound { IfOk result (λ r. IsSoundRoot r.0) }
        ensures values { IfOk result (λ r. HasValues (root_count r.0) (root_value r.0) r.1
            (value (term_of expr.now) (tensors_in tensors.entry))) }
        ensures dims { IfOk result (λ r.
            r.1 ≡ shape_of (term_of expr.now) (tensors_in tensors.entry)) }
    {
        let mut room = MOST_STORED;
        match expr.node() {
            Node::Unary(Unary::Reduce(reducer, axes), operand) => {
                let operand = lower(alloc, operand, tensors, &mut room)?;
                let (reduction, dims) = reduction_of(alloc, reducer, axes, operand)?;
                Ok((Root::Reduction(reduction), dims))
            }
            Node::Binary(Binary::Contract(pairs), first, second) => {
                let (first, second) = lower_two(alloc, first, second, tensors, &mut room)?;
                let (contraction, dims) = contraction_of(alloc, pairs, first, second)?;
                Ok((Root::Contraction(contraction), dims))
            }
            Node::Binary(Binary::Convolve(axes), operand, kernel) => {
                let (operand, kernel) = lower_two(alloc, operand, kernel, tensors, &mut room)?;
                let (contraction, dims) = convolution_of(alloc, axes, operand, kernel)?;
                Ok((Root::Contraction(contraction), dims))
            }
            Node::Unary(Unary::Along(operation, axis), operand) => {
                let operand = lower(alloc, operand, tensors, &mut room)?;
                let (along, dims) = along_of(alloc, operation, axis, operand)?;
                Ok((Root::Along(along), dims))
            }
            Node::Binary(Binary::Take(axis), first, second) => {
                let (first, second) = lower_two(alloc, first, second, tensors, &mut room)?;
                let (along, dims) = take_of(alloc, axis, first, second)?;
                Ok((Root::Along(along), dims))
            }
            _ => {
                let part = lower_and_sink(alloc, expr, tensors, &mut room)?;
                Ok((Root::Lowered(part.lowered), part.dims))
            }
        }
    }

    /// Returns the values at the places `[first, last)`, in order. `target` allocates the values,
    /// `alloc` what is needed meanwhile.
    pub(crate) fn values<A: Allocator>(
        &self,
        alloc: Global,
        target: A,
        first: usize,
        last: usize,
    ) -> Result<Vec<i64, A>, AllocError>
        requires order { first ≤ last }
        requires sound { IsSoundRoot self.now }
        requires within { last ≤ root_count self.now }
        ensures { IfOk result (λ v. v.items
            ≡ map (root_value self.now) (range_with_len first (last - first))) }
    {
        match self {
            Root::Lowered(lowered) => lowered.values(alloc, target, first, last),
            Root::Reduction(reduction) => reduction.values(target, first, last),
            Root::Contraction(contraction) => contraction.values(target, first, last),
            Root::Along(along) => along.values(target, first, last),
        }
    }

    /// Writes the values at the places `[first, last)` to `out`.
    pub(crate) fn fill(
        &self,
        alloc: Global,
        first: usize,
        last: usize,
        out: &mut [i64],
    ) -> Result<(), AllocError>
        requires order { first ≤ last }
        requires sound { IsSoundRoot self.now }
        requires within { last ≤ root_count self.now }
        requires long { length out.old ≡ last - first }
        ensures len { length out.new ≡ length out.old }
        ensures each { OnOk result ((k : ℕ) → k < length out.old
            → value_in out.new k ≡ root_value self.now (first + k)) }
    {
        match self {
            Root::Lowered(lowered) => lowered.fill(alloc, first, last, out)?,
            Root::Reduction(reduction) => reduction.fill(first, out),
            Root::Contraction(contraction) => contraction.fill(first, out)?,
            Root::Along(along) => along.fill(first, out),
        }
        Ok(())
    }
}

/// Returns an expression, lowered and sunk, and its dims.
fn lower_and_sink<'a>(
    alloc: Global,
    expr: &Expr,
    tensors: Tensors<'a>,
    room: &mut usize,
) -> Result<Part<'a>, AllocError>
    requires inputs { IsTrue (has_inputs (term_of expr.now) (length (tensors_in tensors))) }
    requires dims { IsOk (dims_of widest (term_of expr.now) (tensors_in tensors)) }
    ensures lowered { IfOk result (λ r.
        Gives r.lowered r.dims (value (term_of expr.now) (tensors_in tensors.entry))) }
    ensures dims { IfOk result (λ r.
        r.dims ≡ shape_of (term_of expr.now) (tensors_in tensors.entry)) }
{
    let part = lower(alloc, expr, tensors, room)?;
    let dims = part.dims;
    let pieces = part.pieces;
    let lowered = sunk_over(alloc, part.lowered, &dims)?;
    Ok(Part {
        lowered,
        dims,
        pieces,
    })
}
