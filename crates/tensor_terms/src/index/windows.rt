//! The places of an operand that lie under a kernel. A change touches `specs/Convolution`.

ghost use Rattle.std.specs.Prelude.{◌≡◌, ◌<◌, ◌≤◌, ◌+◌, ◌^◌, ℕ, length, slice_index, Ok};
ghost use Rattle.tensor_shape.specs.Index.{size_of, place, index_of};
ghost use Rattle.tensor_shape.specs.Legal.{highest_rank, widest};
ghost use Rattle.tensor_terms.specs.Convolution.{convolved_dims, window_index};

use crate::dims::movement_dims::extend;
use tensor_shape::{Dims, PerAxis};

/// Returns the place of the operand that lies under place `inner` of the kernel, if the kernel
/// stands at the position of place `outer` of the result. `dims` are the operand's dims.
pub(crate) fn window_place(
    axes: &[u64],
    dims: &Dims,
    kernel: &Dims,
    result_dims: &Dims,
    inner: u64,
    outer: u64,
) -> u64
    requires dims { convolved_dims widest axes.now dims.now kernel.now ≡ Ok result_dims.now }
    requires inner { inner < size_of kernel.now }
    requires outer { outer < size_of result_dims.now }
    ensures value { result ≡ place dims.now
        (window_index axes.now (index_of kernel.now inner) (index_of result_dims.now outer)) }
    ensures below { result < size_of dims.now }
{
    let sizes = dims.as_slice();
    let top = kernel.index_of(inner);
    let index = result_dims.index_of(outer);
    prove!(index.len() == sizes.len());
    dims.linear(window_index(axes, top.as_slice(), index.as_slice()).as_slice())
}

/// Returns the index list with `top[k]` added at axis `axes[k]`.
fn window_index(axes: &[u64], top: &[u64], index: &[u64]) -> PerAxis
    requires few { length index.now ≤ highest_rank }
    requires same { length top.now ≡ length axes.now }
    requires axes { (k : ℕ) → k < length axes.now → slice_index axes.now k < length index.now }
    requires small { (k : ℕ) → k < length axes.now
        → slice_index index.now (slice_index axes.now k) + slice_index top.now k < 2 ^ 64 }
    ensures { result.items ≡ window_index axes.now top.now index.now }
{
    let mut under = PerAxis::new();
    extend(&mut under, index);
    for k in (0..axes.len()).rev() {
        let axis = axes[k] as usize;
        under[axis] = index[axis] + top[k];
    }
    under
}
