//! The result dims of concatenations. A change touches `specs/Concatenation`.

ghost use Rattle.std.specs.Prelude.{◌≡◌, ◌≤◌, ◌<◌, ◌+◌, ◌^◌, length, slice_index, remove};
ghost use Rattle.std.specs.Prelude.{nat_eq, Ok, IsOk};
ghost use Rattle.std.specs.Cmp.Lexicographic.{pointwise};
ghost use Rattle.tensor_shape.specs.Legal.{highest_rank, IsPossible};
ghost use Rattle.tensor_terms.specs.Concatenation.{joined_dims, concatenated_dims};
ghost use Rattle.tensor_terms.specs.Shaped.{legal_dims};

use crate::dims::movement_dims::{extend, legal_dims};
use crate::fault::ExprFault;
use tensor_shape::{Bounds, Dims, PerAxis};

/// Returns the result dims of a concatenation along an axis within `bounds`, or the fault of the
/// first check that fails.
pub fn concatenated_dims(
    bounds: Bounds,
    axis: u64,
    first: &Dims,
    second: &Dims,
) -> Result<Dims, ExprFault>
    requires { IsPossible bounds }
    ensures { result ≡ concatenated_dims bounds axis first.now second.now }
{
    let firsts = first.as_slice();
    let seconds = second.as_slice();
    if firsts.len() != seconds.len() {
        return Err(ExprFault::ShapeMismatch);
    }
    if axis >= firsts.len() as u64 {
        return Err(ExprFault::OutOfRange);
    }
    if !agree_but_at(axis as usize, firsts, seconds) {
        return Err(ExprFault::ShapeMismatch);
    }
    joined_dims(bounds, axis as usize, firsts, seconds)
}

/// Whether all sizes but the one of this axis are equal.
fn agree_but_at(axis: usize, firsts: &[u64], seconds: &[u64]) -> bool
    requires axis { axis < length firsts.now }
    requires same { length seconds.now ≡ length firsts.now }
    ensures { result ≡ pointwise nat_eq (remove firsts.now axis) (remove seconds.now axis) }
{
    firsts[..axis] == seconds[..axis] && firsts[axis + 1..] == seconds[axis + 1..]
}

/// Returns the first sizes with the second size added along one axis, if they are within `bounds`.
fn joined_dims(
    bounds: Bounds,
    axis: usize,
    firsts: &[u64],
    seconds: &[u64],
) -> Result<Dims, ExprFault>
    requires bounds { IsPossible bounds }
    requires axis { axis < length firsts.now }
    requires same { length seconds.now ≡ length firsts.now }
    requires few { length firsts.now ≤ highest_rank }
    requires small { slice_index firsts.now axis + slice_index seconds.now axis < 2 ^ 64 }
    ensures { result ≡ legal_dims bounds (joined_dims axis firsts.now seconds.now) }
{
    let mut joined = PerAxis::new();
    extend(&mut joined, &firsts[..axis]);
    joined.push(firsts[axis] + seconds[axis]);
    extend(&mut joined, &firsts[axis + 1..]);
    legal_dims(bounds, joined.as_slice())
}
