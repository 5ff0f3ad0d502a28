//! An operand of a contraction as rows by tables: a row for each kept index list, in it a value for
//! each paired index list. The kernel of a convolution is one row. specs/private/OperandRows
//! defines the values.

ghost use Rattle.std.specs.Prelude.{◌≡◌, ◌<◌, length};
ghost use Rattle.std.specs.Prelude.{IsTrue, IfOk};
ghost use Rattle.std.specs.Cow.{cow_slice_items};
ghost use Rattle.tensor_shape.specs.Index.{size_of};
ghost use Rattle.tensor_values.specs.Values.{value_in};
ghost use Rattle.tensor_terms.specs.Reduction.{are_axes};
ghost use Rattle.tensor_ops.specs.private.Operand.{operand_at, operand_count, viewed_count};
ghost use Rattle.tensor_ops.specs.private.Operand.{viewed_value};
ghost use Rattle.tensor_ops.specs.private.OperandRows.{IsOperand};
ghost use Rattle.tensor_kernels.specs.Rows.{row_count, row_length, row_value};
ghost use Rattle.tensor_ops.specs.private.Windows.{IsOneRow};

use crate::operands::operand::{Operand, Viewed};
use std::alloc::{AllocError, Global};
use std::borrow::CowSlice;
use tensor_kernels::Rows;
use tensor_shape::Dims;
use tensor_views::{ViewRef, are_apart, map_through, tables};

/// Returns the rows of an operand with the given dims and paired axes. Takes a number for each row,
/// and one for each value of a row. A list along a view is stored in order only if an axis is
/// reversed, or if adding a row's start and an offset carries along the view.
pub(crate) fn rows_of<'a>(
    alloc: Global,
    dims: &Dims,
    operand: Operand<'a>,
    axes: &[u64],
) -> Result<Rows<'a>, AllocError>
    requires axes { IsTrue (are_axes (length dims.now) axes.now) }
    requires values { operand_count operand ≡ size_of dims.now }
    ensures { IfOk result (λ rows.
        IsOperand (row_count rows) (row_length rows) (row_value rows)
        (operand_at operand.entry) dims.now axes.now) }
{
    match operand {
        Operand::InOrder(values) => rows_in_order(alloc, dims, values, axes),
        Operand::Along(viewed) => rows_along(alloc, dims, viewed, axes),
    }
}

/// Returns the rows of an operand whose values lie in order.
fn rows_in_order<'a>(
    alloc: Global,
    dims: &Dims,
    values: CowSlice<'a, i64, Global>,
    axes: &[u64],
) -> Result<Rows<'a>, AllocError>
    requires axes { IsTrue (are_axes (length dims.now) axes.now) }
    requires values { length (cow_slice_items values) ≡ size_of dims.now }
    ensures { IfOk result (λ rows.
        IsOperand (row_count rows) (row_length rows) (row_value rows)
        (value_in (cow_slice_items values.entry)) dims.now axes.now) }
{
    let (starts, offsets) = tables(alloc, dims, axes)?;
    Ok(Rows::new(values, starts, offsets))
}

/// Returns the rows of an operand that is read along a view. Both tables are mapped along the view.
/// The offsets are mapped from start 0, since each is added to the start of a row.
fn rows_along<'a>(
    alloc: Global,
    dims: &Dims,
    viewed: Viewed<'a>,
    axes: &[u64],
) -> Result<Rows<'a>, AllocError>
    requires axes { IsTrue (are_axes (length dims.now) axes.now) }
    requires values { viewed_count viewed ≡ size_of dims.now }
    ensures { IfOk result (λ rows.
        IsOperand (row_count rows) (row_length rows) (row_value rows)
        (viewed_value viewed.entry) dims.now axes.now) }
{
    let (mut starts, mut offsets) = tables(alloc, dims, axes)?;
    let view = viewed.view.as_ref();
    let count = dims.size() as usize;
    if count == 0 || !are_apart(view.axes, 1, &starts, &offsets) {
        let values = viewed.into_list(alloc, count)?;
        return Ok(Rows::new(values, starts, offsets));
    }
    let from_none = ViewRef {
        start: 0,
        axes: view.axes,
    };
    map_through(&mut starts, view);
    map_through(&mut offsets, from_none);
    Ok(Rows::new(viewed.list, starts, offsets))
}

/// Returns one row with all values, in order. Takes a number for each value.
pub(crate) fn one_row<'a>(
    alloc: Global,
    dims: &Dims,
    values: CowSlice<'a, i64, Global>,
) -> Result<Rows<'a>, AllocError>
    requires { length (cow_slice_items values) ≡ size_of dims.now }
    ensures { IfOk result (λ rows.
        IsOneRow (row_count rows) (row_length rows) (row_value rows)
        (cow_slice_items values.entry) (size_of dims.now)) }
{
    let count = dims.size() as usize;
    let starts = vec![in alloc; 0usize]?;
    let mut offsets = Vec::with_capacity(alloc, count)?;
    for place in 0..count {
        offsets.push_reserved(place);
    }
    Ok(Rows::new(values, starts, offsets))
}
