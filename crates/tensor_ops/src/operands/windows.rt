//! The operand of a convolution as runs: the places of the result along its first axis. In a run
//! the values under a place of the kernel lie side by side. specs/private/Windows defines the
//! values.

ghost use Rattle.std.specs.Prelude.{◌≡◌, length};
ghost use Rattle.std.specs.Prelude.{IfOk, Ok};
ghost use Rattle.std.specs.Cow.{cow_slice_items};
ghost use Rattle.tensor_shape.specs.Index.{size_of};
ghost use Rattle.tensor_shape.specs.Legal.{widest};
ghost use Rattle.tensor_terms.specs.Convolution.{convolved_dims};
ghost use Rattle.tensor_ops.specs.private.FirstRun.{run_axes, run_width};
ghost use Rattle.tensor_ops.specs.private.Windows.{IsUnderKernel};
ghost use Rattle.tensor_kernels.specs.Windows.{window_count, window_length, window_value};

use std::alloc::{AllocError, Global};
use std::borrow::CowSlice;
use tensor_kernels::Windows;
use tensor_shape::Dims;
use tensor_terms::shuffled;
use tensor_views::stepped_places;

/// Returns the runs of the operand of a convolution. `window_index` has the result's dims. Takes a
/// number for each run, and one for each place of the kernel.
pub(crate) fn windows_under_kernel<'a>(
    alloc: Global,
    axes: &[u64],
    dims: &Dims,
    values: CowSlice<'a, i64, Global>,
    kernel: &Dims,
    window_index: &Dims,
) -> Result<Windows<'a>, AllocError>
    requires dims { convolved_dims widest axes.now dims.now kernel.now ≡ Ok window_index.now }
    requires values { length (cow_slice_items values) ≡ size_of dims.now }
    ensures { IfOk result (λ runs.
        IsUnderKernel (window_count runs) (window_length runs) (window_value runs)
        (cow_slice_items values.entry) axes.now dims.now kernel.now window_index.now) }
{
    let sizes = dims.as_slice();
    let strides = dims.strides();
    prove!(strides.len() == sizes.len());
    let steps = shuffled(axes, strides.as_slice());
    let (first, width) = first_run(window_index.as_slice());
    let starts = stepped_places(alloc, window_index.as_slice(), strides.as_slice(), first)?;
    let offsets = stepped_places(alloc, kernel.as_slice(), steps.as_slice(), 0)?;
    Ok(Windows::new(values, starts, width, offsets))
}

/// Returns the number of first axes that a run goes along (1, or 0 if there is no axis), and the
/// number of places of a run.
fn first_run(sizes: &[u64]) -> (usize, usize)
    ensures axes { result.0 ≡ run_axes sizes.now }
    ensures width { result.1 ≡ run_width sizes.now }
{
    match sizes {
        [first, ..] => (1, *first as usize),
        [] => (0, 1),
    }
}
