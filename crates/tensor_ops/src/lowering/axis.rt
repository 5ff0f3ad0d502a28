//! Operations along one axis, and takes, of lowered operands. `evaluator::root` evaluates these by
//! ranges; below the root they are evaluated here.

ghost use Rattle.std.specs.Prelude.{◌≡◌, Ok, IsOk, IfOk};
ghost use Rattle.tensor_ops.specs.private.LineResults.{places_along, value_along};
ghost use Rattle.tensor_ops.specs.private.Lowering.{Gives, HasValues, along_at, meaning_at};
ghost use Rattle.tensor_ops.specs.private.Meaning.{count_of, IsSound};
ghost use Rattle.tensor_shape.specs.Index.{size_of};
ghost use Rattle.tensor_shape.specs.Legal.{widest};
ghost use Rattle.tensor_terms.specs.Along.{along_dims, along_value, taken, taken_dims};

use crate::lowered::Lowered;
use crate::lowering::part::Part;
use crate::operands::along::{LineResults, PerLine};
use std::alloc::{AllocError, Global};
use tensor_scans::LineOperation;
use tensor_shape::{Dims, WIDEST};
use tensor_terms::{along_dims, lines_along, taken_dims};

/// Returns an operation along an axis of an operand, made ready, and its result dims.
pub(crate) fn along_of<'a>(
    alloc: Global,
    operation: LineOperation,
    axis: u64,
    operand: Part<'a>,
) -> Result<(LineResults<'a>, Dims), AllocError>
    requires sound { IsSound operand.lowered }
    requires count { count_of operand.lowered ≡ size_of operand.dims }
    requires dims { IsOk (along_dims operation axis operand.dims) }
    ensures dims { IfOk result (λ r. along_dims operation axis operand.entry.dims ≡ Ok r.1) }
    ensures values { IfOk result (λ r. HasValues (places_along r.0) (value_along r.0) r.1
        (along_value operation axis operand.entry.dims
        (meaning_at operand.entry.lowered operand.entry.dims))) }
{
    let dims = along_dims(operation, axis, &operand.dims).unwrap();
    let lines = lines_along(axis, &operand.dims);
    let values = operand.lowered.into_values(alloc, &operand.dims)?;
    let per_line = PerLine::Operation(operation);
    let along = LineResults {
        lines,
        values,
        per_line,
    };
    Ok((along, dims))
}

/// Returns a take along an axis of the first operand, at the numbers that the second has, made
/// ready, and its result dims.
pub(crate) fn take_of<'a>(
    alloc: Global,
    axis: u64,
    first: Part<'a>,
    second: Part<'a>,
) -> Result<(LineResults<'a>, Dims), AllocError>
    requires first { IsSound first.lowered }
    requires second { IsSound second.lowered }
    requires count_first { count_of first.lowered ≡ size_of first.dims }
    requires count_second { count_of second.lowered ≡ size_of second.dims }
    requires dims { IsOk (taken_dims widest axis first.dims second.dims) }
    ensures dims { IfOk result (λ r.
        taken_dims widest axis first.entry.dims second.entry.dims ≡ Ok r.1) }
    ensures values { IfOk result (λ r. HasValues (places_along r.0) (value_along r.0) r.1
        (taken axis first.entry.dims second.entry.dims
        (meaning_at first.entry.lowered first.entry.dims)
        (meaning_at second.entry.lowered second.entry.dims))) }
{
    let dims = taken_dims(WIDEST, axis, &first.dims, &second.dims).unwrap();
    let lines = lines_along(axis, &first.dims);
    let values = first.lowered.into_values(alloc, &first.dims)?;
    let numbers = second.lowered.into_values(alloc, &second.dims)?;
    let per_line = PerLine::Taken(numbers);
    let along = LineResults {
        lines,
        values,
        per_line,
    };
    Ok((along, dims))
}

/// Returns an operation along an axis, evaluated.
pub(crate) fn lower_along<'a>(
    alloc: Global,
    operation: LineOperation,
    axis: u64,
    operand: Part<'a>,
) -> Result<Part<'a>, AllocError>
    requires sound { IsSound operand.lowered }
    requires count { count_of operand.lowered ≡ size_of operand.dims }
    requires dims { IsOk (along_dims operation axis operand.dims) }
    ensures dims { IfOk result (λ r. along_dims operation axis operand.entry.dims ≡ Ok r.dims) }
    ensures lowered { IfOk result (λ r. Gives r.lowered r.dims
        (along_value operation axis operand.entry.dims
        (meaning_at operand.entry.lowered operand.entry.dims))) }
{
    let (along, dims) = along_of(alloc, operation, axis, operand)?;
    worked_out(alloc, along, dims)
}

/// Returns a take along an axis, evaluated.
pub(crate) fn lower_take<'a>(
    alloc: Global,
    axis: u64,
    first: Part<'a>,
    second: Part<'a>,
) -> Result<Part<'a>, AllocError>
    requires first { IsSound first.lowered }
    requires second { IsSound second.lowered }
    requires count_first { count_of first.lowered ≡ size_of first.dims }
    requires count_second { count_of second.lowered ≡ size_of second.dims }
    requires dims { IsOk (taken_dims widest axis first.dims second.dims) }
    ensures dims { IfOk result (λ r.
        taken_dims widest axis first.entry.dims second.entry.dims ≡ Ok r.dims) }
    ensures lowered { IfOk result (λ r. Gives r.lowered r.dims
        (taken axis first.entry.dims second.entry.dims
        (meaning_at first.entry.lowered first.entry.dims)
        (meaning_at second.entry.lowered second.entry.dims))) }
{
    let (along, dims) = take_of(alloc, axis, first, second)?;
    worked_out(alloc, along, dims)
}

/// Returns the values of lines that were made ready, as a list with the given dims.
fn worked_out<'a>(alloc: Global, along: LineResults<'_>, dims: Dims) -> Result<Part<'a>, AllocError>
    requires { places_along along ≡ size_of dims }
    ensures dims { IfOk result (λ r. r.dims ≡ dims) }
    ensures lowered { IfOk result (λ r. Gives r.lowered r.dims (along_at along.entry dims)) }
{
    let count = dims.size() as usize;
    Ok(Part {
        lowered: Lowered::Stored(along.values(alloc, 0, count)?),
        dims,
        pieces: 0,
    })
}
