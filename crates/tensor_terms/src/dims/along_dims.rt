//! The result dims of operations along one axis, and of takes. A change touches `specs/Along`.

ghost use Rattle.std.specs.Prelude.{◌≡◌, ◌≤◌, ◌<◌, length};
ghost use Rattle.tensor_shape.specs.Legal.{highest_rank, IsPossible};
ghost use Rattle.tensor_terms.specs.Along.{along_dims, replaced_dims, taken_dims};
ghost use Rattle.tensor_terms.specs.Shaped.{legal_dims};

use crate::dims::movement_dims::{dims_without, extend, legal_dims};
use crate::fault::ExprFault;
use tensor_scans::LineOperation;
use tensor_shape::{Bounds, Dims, MAX_RANK, PerAxis};

/// Returns the result dims of an operation along an axis of an operand of these dims, or the fault
/// of its check.
pub fn along_dims(operation: LineOperation, axis: u64, dims: &Dims) -> Result<Dims, ExprFault>
    ensures { result ≡ along_dims operation axis dims.now }
{
    let sizes = dims.as_slice();
    if axis >= sizes.len() as u64 {
        return Err(ExprFault::OutOfRange);
    }
    if operation.is_cumulative() {
        return Ok(dims.copied());
    }
    // The result is legal, since it only lacks a factor.
    dims_without(axis as usize, sizes)
}

/// Returns the result dims of a take within `bounds`, or the fault of the first check that fails.
/// The axis of `first` is replaced by all axes of `second`, which holds the indices to take.
pub fn taken_dims(bounds: Bounds, axis: u64, first: &Dims, second: &Dims) -> Result<Dims, ExprFault>
    requires { IsPossible bounds }
    ensures { result ≡ taken_dims bounds axis first.now second.now }
{
    let sizes = first.as_slice();
    if axis >= sizes.len() as u64 {
        return Err(ExprFault::OutOfRange);
    }
    replaced_dims(bounds, axis as usize, sizes, second.as_slice())
}

/// Returns the sizes with `others` in the place of the size of one axis, if they are within
/// `bounds`.
fn replaced_dims(
    bounds: Bounds,
    axis: usize,
    sizes: &[u64],
    others: &[u64],
) -> Result<Dims, ExprFault>
    requires bounds { IsPossible bounds }
    requires axis { axis < length sizes.now }
    requires few { length sizes.now ≤ highest_rank }
    requires few_others { length others.now ≤ highest_rank }
    ensures { result ≡ legal_dims bounds (replaced_dims axis others.now sizes.now) }
{
    if sizes.len() - 1 + others.len() > MAX_RANK {
        return Err(ExprFault::TooLarge);
    }
    let mut replaced = PerAxis::new();
    extend(&mut replaced, &sizes[..axis]);
    extend(&mut replaced, others);
    extend(&mut replaced, &sizes[axis + 1..]);
    legal_dims(bounds, replaced.as_slice())
}
