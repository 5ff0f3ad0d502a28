//! Tables of places of index lists in two parts: an index list's place is the sum of two entries,
//! so loops of contractions need no division. A change touches `specs/Offsets` and the tables of
//! tensor_ops.

ghost use Rattle.std.specs.Prelude.{◌≡◌, ◌<◌, ◌≤◌, ◌+◌, ◌*◌, ◌/◌, ◌%◌, ◌^◌, ℕ, length, drop, slice_index};
ghost use Rattle.std.specs.Prelude.{IsTrue, IfOk};
ghost use Rattle.tensor_shape.specs.Index.{size_of, index_of};
ghost use Rattle.tensor_shape.specs.Legal.{most_elements, IsLegal};
ghost use Rattle.tensor_views.specs.Offsets.{offset_of, HasTables};
ghost use Rattle.tensor_terms.specs.Reduction.{are_axes};
ghost use Rattle.tensor_views.specs.Stepped.{stepped};
ghost use Rattle.tensor_terms.specs.Merged.{dims_at};

use std::alloc::{AllocError, Global};
use tensor_shape::Dims;
use tensor_terms::{others, shuffled};

/// Returns where each row of an operand starts, and how far each value of a row lies from its
/// start. A row is the values along `axes`, in their order. Allocates a number for each row, and
/// one for each value of a row.
pub fn tables(
    alloc: Global,
    dims: &Dims,
    axes: &[u64],
) -> Result<(Vec<usize>, Vec<usize>), AllocError>
    requires { IsTrue (are_axes (length dims.now) axes.now) }
    ensures tables { IfOk result (λ t. HasTables t.0.items t.1.items axes.now dims.now) }
    ensures few { IfOk result (λ t. length t.0.items ≤ most_elements) }
    ensures short { IfOk result (λ t. length t.1.items ≤ most_elements) }
{
    let rank = dims.as_slice().len();
    let kept = others(axes, 0, rank as u64);
    let starts = offsets(alloc, dims, kept.as_slice())?;
    Ok((starts, offsets(alloc, dims, axes)?))
}

/// Returns the places of the index lists that have any indices at `axes` and 0 at the other axes.
/// The first of `axes` is the fastest. Added to the place of an index list that is 0 at `axes`,
/// they are the places of all index lists that agree with it at the other axes. Allocates a number
/// for each.
pub fn offsets(alloc: Global, dims: &Dims, axes: &[u64]) -> Result<Vec<usize>, AllocError>
    requires { IsTrue (are_axes (length dims.now) axes.now) }
    ensures len { IfOk result (λ v. length v.items ≡ size_of (dims_at axes.now dims.now)) }
    ensures each { IfOk result (λ v. (p : ℕ) → p < size_of (dims_at axes.now dims.now)
        → slice_index v.items p ≡ offset_of axes.now dims.now p) }
    ensures small { IfOk result (λ v. (p : ℕ) → p < size_of (dims_at axes.now dims.now)
        → slice_index v.items p < most_elements) }
{
    let sizes = shuffled(axes, dims.as_slice());
    let strides = dims.strides();
    let steps = shuffled(axes, strides.as_slice());
    stepped_places(alloc, sizes.as_slice(), steps.as_slice(), 0)
}

/// Returns, for each index list of the sizes from axis `first` on, in order of their places, the
/// sum of each index times the step of its axis. Allocates a number for each index list.
pub fn stepped_places(
    alloc: Global,
    sizes: &[u64],
    steps: &[u64],
    first: usize,
) -> Result<Vec<usize>, AllocError>
    requires legal { IsLegal sizes.now }
    requires rank { length steps.now ≡ length sizes.now }
    requires short { (k : ℕ) → k < length sizes.now
        → slice_index sizes.now k * slice_index steps.now k ≤ most_elements }
    requires first { first ≤ length sizes.now }
    ensures len { IfOk result (λ v. length v.items ≡ size_of (drop first sizes.now)) }
    ensures each { IfOk result (λ v. (p : ℕ) → p < size_of (drop first sizes.now)
        → slice_index v.items p
        ≡ stepped (drop first steps.now) (index_of (drop first sizes.now) p)) }
{
    let mut places = vec![in alloc; 0usize]?;
    for k in (first..sizes.len()).rev() {
        places = with_axis(alloc, &places, sizes[k] as usize, steps[k] as usize)?;
    }
    Ok(places)
}

/// Returns the table with one more axis, which is the fastest: each entry plus each index times
/// `step`.
fn with_axis(
    alloc: Global,
    places: &[usize],
    size: usize,
    step: usize,
) -> Result<Vec<usize>, AllocError>
    requires few { length places.now * size < 2 ^ 32 }
    requires small { (k i : ℕ) → k < length places.now → i < size
        → slice_index places.now k + i * step < 2 ^ 32 }
    ensures len { IfOk result (λ v. length v.items ≡ length places.now * size) }
    ensures each { IfOk result (λ v. (p : ℕ) → p < length places.now * size
        → slice_index v.items p ≡ slice_index places.now (p / size) + p % size * step) }
{
    let mut moved = Vec::with_capacity(alloc, places.len() * size)?;
    for place in places {
        for index in 0..size {
            moved.push_reserved(*place + index * step);
        }
    }
    Ok(moved)
}
