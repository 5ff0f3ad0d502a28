//! Concatenations and pads of lowered operands. Both become two operands in turns.

ghost use Rattle.std.specs.Prelude.{◌≡◌, ℕ, pos, ◌+◌, ◌<◌, length, slice_index, slice_set};
ghost use Rattle.std.specs.Prelude.{Ok, IsOk, IfOk};
ghost use Rattle.tensor_shape.specs.Index.{size_of};
ghost use Rattle.tensor_shape.specs.Legal.{widest, IsLegal};
ghost use Rattle.tensor_terms.specs.Concatenation.{concatenated, concatenated_dims};
ghost use Rattle.tensor_ops.specs.private.Meaning.{meaning, count_of, IsSound};
ghost use Rattle.tensor_terms.specs.Padding.{padded, pad_dims};
ghost use Rattle.tensor_values.specs.Interleaving.{padded_along};
ghost use Rattle.tensor_ops.specs.private.Lowering.{Gives, meaning_at};

use crate::lowered::Lowered;
use crate::lowering::part::Part;
use std::alloc::{AllocError, Global};
use tensor_shape::{Dims, PerAxis, WIDEST};
use tensor_terms::{concatenated_dims, extend, turns_along};

/// Returns a concatenation along an axis, lowered.
pub(crate) fn lower_concatenation<'a>(
    alloc: Global,
    axis: u64,
    first: Part<'a>,
    second: Part<'a>,
) -> Result<Part<'a>, AllocError>
    requires first { IsSound first.lowered }
    requires second { IsSound second.lowered }
    requires count_first { count_of first.lowered ≡ size_of first.dims }
    requires count_second { count_of second.lowered ≡ size_of second.dims }
    requires dims { IsOk (concatenated_dims widest axis first.dims second.dims) }
    ensures dims { IfOk result (λ r.
        concatenated_dims widest axis first.entry.dims second.entry.dims ≡ Ok r.dims) }
    ensures lowered { IfOk result (λ r. Gives r.lowered r.dims
        (concatenated axis first.entry.dims
        (meaning_at first.entry.lowered first.entry.dims)
        (meaning_at second.entry.lowered second.entry.dims))) }
{
    let dims = concatenated_dims(WIDEST, axis, &first.dims, &second.dims).unwrap();
    if dims.size() == 0 {
        return Ok(Part {
            lowered: Lowered::Filled(0, 0),
            dims,
            pieces: 1,
        });
    }
    let turns = turns_along(axis, &first.dims, &second.dims);
    if turns.first == 0 {
        return Ok(Part { dims, ..second });
    }
    if turns.second == 0 {
        return Ok(Part { dims, ..first });
    }
    let pieces = first.pieces.max(second.pieces.saturating_add(1));
    let first = Box::new(alloc, first.lowered)?;
    let second = Box::new(alloc, second.lowered)?;
    Ok(Part {
        lowered: Lowered::Interleaved(turns, first, second),
        dims,
        pieces: pieces.saturating_add(1),
    })
}

/// Returns a pad, lowered: zeroes are concatenated at both ends of each axis.
pub(crate) fn lower_pad<'a>(
    alloc: Global,
    pairs: &[(u64, u64)],
    operand: Part<'a>,
) -> Result<Part<'a>, AllocError>
    requires sound { IsSound operand.lowered }
    requires count { count_of operand.lowered ≡ size_of operand.dims }
    requires dims { IsOk (pad_dims widest pairs.now operand.dims) }
    ensures dims { IfOk result (λ r.
        pad_dims widest pairs.now operand.entry.dims ≡ Ok r.dims) }
    ensures lowered { IfOk result (λ r. Gives r.lowered r.dims
        (padded pairs.now operand.entry.dims
        (meaning_at operand.entry.lowered operand.entry.dims))) }
{
    let mut padded = operand;
    for axis in 0..pairs.len() {
        padded = with_zeroes(alloc, axis, pairs[axis], padded)?;
    }
    Ok(padded)
}

/// Returns a part with the given numbers of zeroes before it and after it along an axis.
fn with_zeroes<'a>(
    alloc: Global,
    axis: usize,
    pair: (u64, u64),
    part: Part<'a>,
) -> Result<Part<'a>, AllocError>
    requires sound { IsSound part.lowered }
    requires count { count_of part.lowered ≡ size_of part.dims }
    requires axis { axis < length part.dims }
    requires legal { IsLegal
        (slice_set part.dims axis (pair.0 + slice_index part.dims axis + pair.1)) }
    ensures dims { IfOk result (λ r. r.dims ≡ slice_set part.entry.dims axis
        (pair.0 + slice_index part.entry.dims axis + pair.1)) }
    ensures lowered { IfOk result (λ r. Gives r.lowered r.dims
        (padded_along axis pair.0 part.entry.dims
        (meaning_at part.entry.lowered part.entry.dims))) }
{
    let (before, behind) = pair;
    let front = zeroes(axis, before, &part.dims);
    let back = zeroes(axis, behind, &part.dims);
    let part = lower_concatenation(alloc, axis as u64, front, part)?;
    lower_concatenation(alloc, axis as u64, part, back)
}

/// Returns zeroes with the given dims, except that they have the given size along an axis.
fn zeroes<'a>(axis: usize, size: u64, dims: &Dims) -> Part<'a>
    requires axis { axis < length dims.now }
    requires legal { IsLegal (slice_set dims.now axis size) }
    ensures dims { result.dims ≡ slice_set dims.now axis size }
    ensures sound { IsSound result.lowered }
    ensures count { count_of result.lowered ≡ size_of result.dims }
    ensures zero { (p : ℕ) → meaning result.lowered p ≡ pos 0 }
{
    let sizes = dims.as_slice();
    let mut zeroes = PerAxis::new();
    extend(&mut zeroes, &sizes[..axis]);
    zeroes.push(size);
    extend(&mut zeroes, &sizes[axis + 1..]);
    let Ok(dims) = Dims::within(WIDEST, zeroes.as_slice()) else {
        unreachable!()
    };
    let count = dims.size() as usize;
    Part {
        lowered: Lowered::Filled(0, count),
        dims,
        pieces: 1,
    }
}
