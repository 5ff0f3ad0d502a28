//! Contractions of operands over pairs of their axes. Here the layout of the operands is chosen, as
//! slices or as rows by tables; the contraction itself is in tensor_kernels.

ghost use Rattle.std.specs.Prelude.{◌≡◌, ◌<◌, ℕ, IfOk, IsOk};
ghost use Rattle.tensor_shape.specs.Legal.{widest};
ghost use Rattle.tensor_shape.specs.Index.{size_of, place, index_of};
ghost use Rattle.tensor_kernels.specs.Contracting.{contraction_count, contraction_value};
ghost use Rattle.tensor_terms.specs.Contraction.{firsts, seconds, contracted, contracted_dims};
ghost use Rattle.tensor_terms.specs.Contraction.{outer_dims};
ghost use Rattle.tensor_ops.specs.private.Operand.{operand_at, operand_count};

use crate::operands::operand::Operand;
use crate::operands::rows::rows_of;
use crate::operands::strips::{strip_width, strips_of};
use std::alloc::{AllocError, Global};
use tensor_kernels::{Contraction, TILED_ROWS};
use tensor_shape::Dims;
use tensor_terms::paired_axes;

/// The shortest rows that are taken as slices. Shorter ones take more time to find than to sum.
const SHORTEST_STRIP: usize = 64;

/// Returns the contraction of two operands over pairs of their axes. Takes a number for each kept
/// index list of each operand. If the rows aren't taken as slices, it also takes one for each
/// paired index list.
///
/// An operand that is read along a view is stored only if the rows are taken as slices, if an axis
/// of the view is reversed, or if adding the places of its two tables carries along the view.
pub(crate) fn paired_contraction<'a>(
    alloc: Global,
    first_dims: &Dims,
    first: Operand<'a>,
    second_dims: &Dims,
    second: Operand<'a>,
    pairs: &[(u64, u64)],
) -> Result<Contraction<'a>, AllocError>
    requires dims { IsOk (contracted_dims widest pairs.now first_dims.now second_dims.now) }
    requires first { operand_count first ≡ size_of first_dims.now }
    requires second { operand_count second ≡ size_of second_dims.now }
    ensures count { IfOk result (λ c. contraction_count c
        ≡ size_of (outer_dims pairs.now first_dims.now second_dims.now)) }
    ensures each { IfOk result (λ c. (p : ℕ) → p < contraction_count c
        → contraction_value c p ≡ contracted pairs.now first_dims.now second_dims.now
        (λ js. operand_at first.entry (place first_dims.now js))
        (λ js. operand_at second.entry (place second_dims.now js))
        (index_of (outer_dims pairs.now first_dims.now second_dims.now) p)) }
{
    let (firsts, seconds) = paired_axes(pairs, first_dims).unwrap();
    let (first_axes, second_axes) = (firsts.as_slice(), seconds.as_slice());
    let (first_count, second_count) = (first_dims.size() as usize, second_dims.size() as usize);
    let width = strip_width(first_dims, first_axes);
    let second_width = strip_width(second_dims, second_axes);
    let (one, few) = (first_count == width, second_count < TILED_ROWS * width);
    if SHORTEST_STRIP <= width && SHORTEST_STRIP <= second_width && (one || few) {
        let list = first.into_list(alloc, first_count)?;
        let left = strips_of(alloc, first_dims, list, first_axes)?;
        let other = second.into_list(alloc, second_count)?;
        let right = strips_of(alloc, second_dims, other, second_axes)?;
        return Ok(Contraction::of_strips(left, right));
    }
    let first = rows_of(alloc, first_dims, first, first_axes)?;
    let second = rows_of(alloc, second_dims, second, second_axes)?;
    Contraction::of_rows(alloc, first, second)
}
