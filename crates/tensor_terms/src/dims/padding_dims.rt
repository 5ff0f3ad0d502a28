//! The result dims of pads. A change touches `specs/Padding`.

ghost use Rattle.std.specs.Prelude.{◌≡◌, ◌≤◌, ◌<◌, ◌+◌, length, Ok, IsOk, IfSome, IsNone};
ghost use Rattle.tensor_shape.specs.Legal.{highest_rank, most_elements, IsPossible};
ghost use Rattle.tensor_terms.specs.Padding.{padded_dims, pad_dims};
ghost use Rattle.tensor_terms.specs.Shaped.{legal_dims};

use crate::dims::movement_dims::legal_dims;
use crate::fault::ExprFault;
use tensor_shape::{Bounds, Dims, PerAxis};

/// Returns the result dims of a pad within `bounds`, or the fault of the first check that fails.
pub(crate) fn pad_dims(bounds: Bounds, pairs: &[(u64, u64)], dims: &Dims) -> Result<Dims, ExprFault>
    requires { IsPossible bounds }
    ensures { result ≡ pad_dims bounds pairs.now dims.now }
{
    if pairs.len() != dims.rank() {
        return Err(ExprFault::ShapeMismatch);
    }
    padded_dims(bounds, pairs, dims.as_slice())
}

/// Returns the dims in which each size has the zeroes before and after it added. A sum that
/// overflows 64 bits is `TooLarge`.
fn padded_dims(bounds: Bounds, pairs: &[(u64, u64)], sizes: &[u64]) -> Result<Dims, ExprFault>
    requires bounds { IsPossible bounds }
    requires same { length pairs.now ≡ length sizes.now }
    requires few { length sizes.now ≤ highest_rank }
    ensures { result ≡ legal_dims bounds (padded_dims pairs.now sizes.now) }
{
    let mut padded = PerAxis::new();
    for axis in 0..sizes.len() {
        let (before, behind) = pairs[axis];
        let Some(size) = sum(before, sizes[axis], behind) else {
            return Err(ExprFault::TooLarge);
        };
        padded.push(size);
    }
    legal_dims(bounds, padded.as_slice())
}

/// Returns the sum of three numbers; `None` if it overflows 64 bits.
fn sum(before: u64, size: u64, behind: u64) -> Option<u64>
    ensures some { IfSome result (λ n. n ≡ before + size + behind) }
    ensures none { IsNone result → most_elements < before + size + behind }
{
    before.checked_add(size)?.checked_add(behind)
}
