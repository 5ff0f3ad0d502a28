//! The result dims of reductions, and the check of a list of axes. A change touches
//! `specs/Reduction`.

ghost use Rattle.std.specs.Prelude.{◌≡◌};
ghost use Rattle.tensor_terms.specs.Reduction.{are_axes, reduced_dims};

use crate::dims::movement_dims::is_among;
use crate::fault::ExprFault;
use crate::index::index_parts::other_dims;
use tensor_shape::Dims;

/// Returns the result dims of a reduction over axes of an operand of these dims, or the fault of
/// its check.
pub fn reduced_dims(axes: &[u64], dims: &Dims) -> Result<Dims, ExprFault>
    ensures { result ≡ reduced_dims axes.now dims.now }
{
    if are_axes(dims.rank() as u64, axes) {
        Ok(other_dims(axes, dims))
    } else {
        Err(ExprFault::OutOfRange)
    }
}

/// Whether each axis is below the rank and no axis appears twice.
pub(crate) fn are_axes(rank: u64, axes: &[u64]) -> bool
    ensures { result ≡ are_axes rank axes.now }
{
    match axes {
        [] => true,
        [axis, rest @ ..] => *axis < rank && !is_among(*axis, rest) && are_axes(rank, rest),
    }
}
