//! The result dims of convolutions. A change touches `specs/Convolution`.

ghost use Rattle.std.specs.Prelude.{◌≡◌, length, true};
ghost use Rattle.tensor_terms.specs.Convolution.{convolved_dims, fit_along, window_dims};
ghost use Rattle.tensor_terms.specs.Reduction.{are_axes};

use crate::dims::contraction_dims::products_within;
use crate::dims::movement_dims::{extend, legal_dims};
use crate::dims::reduction_dims::are_axes;
use crate::fault::ExprFault;
use tensor_shape::{Bounds, Dims, PerAxis, WIDEST};

/// Returns the result dims of a convolution along axes within `bounds`, or the fault of the first
/// check that fails.
pub fn convolved_dims(
    bounds: Bounds,
    axes: &[u64],
    dims: &Dims,
    kernel: &Dims,
) -> Result<Dims, ExprFault>
    ensures { result ≡ convolved_dims bounds axes.now dims.now kernel.now }
{
    if !are_axes(dims.rank() as u64, axes) {
        return Err(ExprFault::OutOfRange);
    }
    if kernel.rank() != axes.len() {
        return Err(ExprFault::ShapeMismatch);
    }
    if !fit_along(axes, kernel.as_slice(), dims.as_slice()) {
        return Err(ExprFault::OutOfRange);
    }
    let window_index = window_dims(axes, kernel.as_slice(), dims);
    if window_index.size() * kernel.size() > products_within(bounds) {
        return Err(ExprFault::TooLarge);
    }
    Ok(window_index)
}

/// Whether each size of a kernel is at least 1 and at most the size of its axis.
fn fit_along(axes: &[u64], kernel: &[u64], sizes: &[u64]) -> bool
    requires { are_axes (length sizes.now) axes.now ≡ true }
    ensures { result ≡ fit_along axes.now kernel.now sizes.now }
{
    let [axis, axes @ ..] = axes else {
        return true;
    };
    let [size, kernel @ ..] = kernel else {
        return true;
    };
    (1 <= *size && *size <= sizes[*axis as usize]) && fit_along(axes, kernel, sizes)
}

/// Returns the dims of the kernel's positions: along each axis of the kernel, the number of
/// positions at which it lies within `dims`. The result is legal, since no size grows.
fn window_dims(axes: &[u64], kernel: &[u64], dims: &Dims) -> Dims
    requires axes { are_axes (length dims.now) axes.now ≡ true }
    requires kernel { length kernel.now ≡ length axes.now }
    requires fits { fit_along axes.now kernel.now dims.now ≡ true }
    ensures { result ≡ window_dims axes.now kernel.now dims.now }
{
    let sizes = dims.as_slice();
    let mut window_index = PerAxis::new();
    extend(&mut window_index, sizes);
    for k in (0..axes.len()).rev() {
        let axis = axes[k] as usize;
        window_index[axis] = sizes[axis] - kernel[k] + 1;
    }
    legal_dims(WIDEST, window_index.as_slice()).unwrap()
}
