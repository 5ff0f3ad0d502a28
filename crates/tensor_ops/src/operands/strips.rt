//! An operand of a contraction as slices, if its paired axes are its first ones, in order.
//! `operands::contraction` decides when they are used.

ghost use Rattle.std.specs.Prelude.{◌≡◌, ◌<◌, ◌≤◌, length};
ghost use Rattle.std.specs.Prelude.{IsTrue, IfOk};
ghost use Rattle.std.specs.Cow.{cow_slice_items};
ghost use Rattle.std.specs.List.{range_with_len};
ghost use Rattle.tensor_shape.specs.Index.{size_of};
ghost use Rattle.tensor_shape.specs.Legal.{most_elements};
ghost use Rattle.tensor_values.specs.Values.{value_in};
ghost use Rattle.tensor_terms.specs.Reduction.{are_axes};
ghost use Rattle.tensor_terms.specs.Merged.{dims_at};
ghost use Rattle.tensor_ops.specs.private.OperandRows.{IsOperand};
ghost use Rattle.tensor_kernels.specs.Strips.{strip_count, strip_length, strip_value};

use std::alloc::{AllocError, Global};
use std::borrow::CowSlice;
use tensor_kernels::Strips;
use tensor_shape::Dims;
use tensor_terms::{others, span};
use tensor_views::offsets;

/// Returns the rows of an operand whose paired axes are its first ones. Takes a number for each
/// row.
pub(crate) fn strips_of<'a>(
    alloc: Global,
    dims: &Dims,
    values: CowSlice<'a, i64, Global>,
    axes: &[u64],
) -> Result<Strips<'a>, AllocError>
    requires axes { IsTrue (are_axes (length dims.now) axes.now) }
    requires first { axes.now ≡ range_with_len 0 (length axes.now) }
    requires some { 0 < size_of (dims_at axes.now dims.now) }
    requires values { length (cow_slice_items values) ≡ size_of dims.now }
    ensures { IfOk result (λ strips.
        IsOperand (strip_count strips) (strip_length strips) (strip_value strips)
        (value_in (cow_slice_items values.entry)) dims.now axes.now) }
{
    let rank = dims.as_slice().len();
    let kept = others(axes, 0, rank as u64);
    let starts = offsets(alloc, dims, kept.as_slice())?;
    Ok(Strips::new(values, starts, strip_width(dims, axes)))
}

/// Returns the number of values of a row if the paired axes are the first ones, in order, or else
/// 0.
pub(crate) fn strip_width(dims: &Dims, axes: &[u64]) -> usize
    requires { IsTrue (are_axes (length dims.now) axes.now) }
    ensures first { 0 < result → axes.now ≡ range_with_len 0 (length axes.now) }
    ensures value { axes.now ≡ range_with_len 0 (length axes.now)
        → result ≡ size_of (dims_at axes.now dims.now) }
    ensures small { result ≤ most_elements }
{
    for k in 0..axes.len() {
        if axes[k] != k as u64 {
            return 0;
        }
    }
    span(dims.as_slice(), 0, axes.len())
}
