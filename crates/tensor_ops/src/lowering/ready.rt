//! Reductions and contractions of lowered operands, made ready for ranges of places.
//! `evaluator::root` and `part_evaluator` take them so; below the root they are evaluated here.

ghost use Rattle.std.specs.Prelude.{◌≡◌, Ok, IsOk, IfOk};
ghost use Rattle.tensor_shape.specs.Legal.{widest};
ghost use Rattle.tensor_shape.specs.Index.{size_of};
ghost use Rattle.tensor_kernels.specs.Contracting.{contraction_count, contraction_value};
ghost use Rattle.tensor_terms.specs.Contraction.{contracted, contracted_dims};
ghost use Rattle.tensor_ops.specs.private.Meaning.{count_of, IsSound};
ghost use Rattle.tensor_ops.specs.private.Lowering.{Gives, HasValues, contraction_at, meaning_at};
ghost use Rattle.tensor_ops.specs.private.Reduced.{places_of_result, reduction_at};
ghost use Rattle.tensor_terms.specs.Reduction.{reduced, reduced_dims};

use crate::lowered::Lowered;
use crate::lowering::part::Part;
use crate::operands::contraction::paired_contraction;
use crate::operands::reduction::Reduction;
use std::alloc::{AllocError, Global};
use std::borrow::CowSlice;
use tensor_kernels::Contraction;
use tensor_shape::{Dims, WIDEST};
use tensor_terms::{contracted_dims, reduced_dims};
use tensor_values::Reducer;

/// Returns a reduction of an operand over axes, made ready, and its result dims.
pub(crate) fn reduction_of<'a>(
    alloc: Global,
    reducer: Reducer,
    axes: &[u64],
    operand: Part<'a>,
) -> Result<(Reduction<'a>, Dims), AllocError>
    requires sound { IsSound operand.lowered }
    requires count { count_of operand.lowered ≡ size_of operand.dims }
    requires dims { IsOk (reduced_dims axes.now operand.dims) }
    ensures dims { IfOk result (λ r. reduced_dims axes.now operand.entry.dims ≡ Ok r.1) }
    ensures values { IfOk result (λ r. HasValues (places_of_result r.0) (reduction_at r.0) r.1
        (reduced reducer axes.now operand.entry.dims
        (meaning_at operand.entry.lowered operand.entry.dims))) }
{
    let dims = reduced_dims(axes, &operand.dims).unwrap();
    let values = operand.lowered.into_values(alloc, &operand.dims)?;
    let reduction = Reduction::of(alloc, reducer, &operand.dims, values, axes)?;
    Ok((reduction, dims))
}

/// Returns a contraction of two operands over pairs of axes, made ready, and its result dims.
pub(crate) fn contraction_of<'a>(
    alloc: Global,
    pairs: &[(u64, u64)],
    first: Part<'a>,
    second: Part<'a>,
) -> Result<(Contraction<'a>, Dims), AllocError>
    requires first { IsSound first.lowered }
    requires second { IsSound second.lowered }
    requires count_first { count_of first.lowered ≡ size_of first.dims }
    requires count_second { count_of second.lowered ≡ size_of second.dims }
    requires dims { IsOk (contracted_dims widest pairs.now first.dims second.dims) }
    ensures dims { IfOk result (λ r.
        contracted_dims widest pairs.now first.entry.dims second.entry.dims ≡ Ok r.1) }
    ensures values { IfOk result (λ r. HasValues (contraction_count r.0) (contraction_value r.0)
        r.1 (contracted pairs.now first.entry.dims second.entry.dims
        (meaning_at first.entry.lowered first.entry.dims)
        (meaning_at second.entry.lowered second.entry.dims))) }
{
    let dims = contracted_dims(WIDEST, pairs, &first.dims, &second.dims).unwrap();
    let left = first.lowered.into_operand(alloc, &first.dims)?;
    let right = second.lowered.into_operand(alloc, &second.dims)?;
    let contraction = paired_contraction(alloc, &first.dims, left, &second.dims, right, pairs)?;
    Ok((contraction, dims))
}

/// Returns a reduction, evaluated.
pub(crate) fn lower_reduction<'a>(
    alloc: Global,
    reducer: Reducer,
    axes: &[u64],
    operand: Part<'a>,
) -> Result<Part<'a>, AllocError>
    requires sound { IsSound operand.lowered }
    requires count { count_of operand.lowered ≡ size_of operand.dims }
    requires dims { IsOk (reduced_dims axes.now operand.dims) }
    ensures dims { IfOk result (λ r. reduced_dims axes.now operand.entry.dims ≡ Ok r.dims) }
    ensures lowered { IfOk result (λ r. Gives r.lowered r.dims
        (reduced reducer axes.now operand.entry.dims
        (meaning_at operand.entry.lowered operand.entry.dims))) }
{
    let (reduction, dims) = reduction_of(alloc, reducer, axes, operand)?;
    let count = dims.size() as usize;
    Ok(Part {
        lowered: Lowered::Stored(reduction.values(alloc, 0, count)?),
        dims,
        pieces: 0,
    })
}

/// Returns a contraction, evaluated.
pub(crate) fn lower_contraction<'a>(
    alloc: Global,
    pairs: &[(u64, u64)],
    first: Part<'a>,
    second: Part<'a>,
) -> Result<Part<'a>, AllocError>
    requires first { IsSound first.lowered }
    requires second { IsSound second.lowered }
    requires count_first { count_of first.lowered ≡ size_of first.dims }
    requires count_second { count_of second.lowered ≡ size_of second.dims }
    requires dims { IsOk (contracted_dims widest pairs.now first.dims second.dims) }
    ensures dims { IfOk result (λ r.
        contracted_dims widest pairs.now first.entry.dims second.entry.dims ≡ Ok r.dims) }
    ensures lowered { IfOk result (λ r. Gives r.lowered r.dims
        (contracted pairs.now first.entry.dims second.entry.dims
        (meaning_at first.entry.lowered first.entry.dims)
        (meaning_at second.entry.lowered second.entry.dims))) }
{
    let (contraction, dims) = contraction_of(alloc, pairs, first, second)?;
    worked_out(alloc, contraction, dims)
}

/// Returns a contraction that was made ready, evaluated, with the given result dims.
pub(crate) fn worked_out<'a>(
    alloc: Global,
    contraction: Contraction<'a>,
    dims: Dims,
) -> Result<Part<'a>, AllocError>
    requires { contraction_count contraction ≡ size_of dims }
    ensures dims { IfOk result (λ r. r.dims ≡ dims) }
    ensures lowered { IfOk result (λ r.
        Gives r.lowered r.dims (contraction_at contraction.entry dims)) }
{
    let count = dims.size() as usize;
    Ok(Part {
        lowered: Lowered::Stored(contraction.values(alloc, 0, count)?),
        dims,
        pieces: 0,
    })
}
