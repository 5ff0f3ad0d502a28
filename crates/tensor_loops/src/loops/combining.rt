//! Values combined with a list that is read along a view, row by row. The values read are never
//! stored in a list of their own. tensor_ops chooses this way by `has_long_rows`.

ghost use Rattle.std.specs.Prelude.{◌≡◌, ◌<◌, ◌≤◌, ◌-◌, ◌+◌, ◌*◌, ◌/◌, ◌^◌, ℕ, pos, length};
ghost use Rattle.std.specs.Prelude.{OnOk, slice_index_or};
ghost use Rattle.tensor_loops.specs.Loops.{either_way, has_long_rows};
ghost use Rattle.tensor_values.specs.Values.{value_in};
ghost use Rattle.tensor_views.specs.Reading.{read_at};
ghost use Rattle.tensor_views.specs.View.{view_size, reached, along};

use crate::loops::chain::Link;
use crate::loops::combine_row;
use std::alloc::{AllocError, Global};
use tensor_views::{Axis, Reading, Row, rows_of};

/// The shortest row that is read value by value here.
const SHORTEST_READ_ROW: usize = 16;

/// Whether the rows along the first axis of a size other than 1 have at least 16 places. Then
/// [`combine_along`] is the faster way; no value depends on it.
pub fn has_long_rows(axes: &[Axis]) -> bool
    ensures { result ≡ has_long_rows axes.now }
{
    match axes {
        [] => false,
        [axis, rest @ ..] if axis.size == 1 => has_long_rows(rest),
        [axis, ..] => axis.size >= SHORTEST_READ_ROW,
    }
}

/// Replaces each value by the result of the operation on it and the value that the reading has at
/// its place of `[first, last)`. If the link is swapped, the value read is the first operand.
pub fn combine_along(
    alloc: Global,
    link: Link,
    values: &mut [i64],
    reading: Reading<'_>,
    first: usize,
    last: usize,
) -> Result<(), AllocError>
    requires order { first ≤ last }
    requires within { last ≤ view_size reading.view.axes.now }
    requires same { length values.old ≡ last - first }
    requires inside { (p : ℕ) → p < view_size reading.view.axes.now
        → reached reading.view.start reading.view.axes.now p < length reading.list.now }
    requires few { length reading.list.now < 2 ^ 32 }
    ensures len { OnOk result (length values.new ≡ length values.old) }
    ensures each { OnOk result ((k : ℕ) → k < last - first
        → slice_index_or values.new k (pos 0)
        ≡ either_way link.operation link.swapped (slice_index_or values.old k (pos 0))
        (read_at reading.entry (first + k))) }
{
    if first == last {
        return Ok(());
    }
    let (axis, rows) = rows_of(alloc, reading.view, first, last)?;
    combine_rows(link, values, reading.list, &rows, axis, first, last);
    Ok(())
}

/// Combines values with a list's values row by row. The first and the last row are cut to the run.
fn combine_rows(
    link: Link,
    values: &mut [i64],
    list: &[i64],
    rows: &[u32],
    axis: Axis,
    first: usize,
    last: usize,
)
    requires size { 0 < axis.size }
    requires order { first ≤ last }
    requires rows { last ≤ axis.size * (first / axis.size + length rows.now) }
    requires same { length values.old ≡ last - first }
    requires inside { (p : ℕ) → first ≤ p → p < last
        → along rows.now axis first p < length list.now }
    ensures len { length values.new ≡ length values.old }
    ensures each { (k : ℕ) → k < last - first → slice_index_or values.new k (pos 0)
        ≡ either_way link.operation link.swapped (slice_index_or values.old k (pos 0))
        (value_in list.now (along rows.now axis first (first + k))) }
{
    let mut place = first;
    let mut from = first % axis.size;
    for start in rows {
        let count = (axis.size - from).min(last - place);
        let row = Row {
            start: *start as usize,
            axis,
            from,
            count,
        };
        combine_row(link, values, place - first, list, row);
        place += count;
        from = 0;
    }
}
