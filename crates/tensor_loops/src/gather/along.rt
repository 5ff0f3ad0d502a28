//! Values read along a view and written into the caller's buffer, row by row. It reads what
//! `picked_along` reads and allocates only the starts of rows.

ghost use Rattle.std.specs.Prelude.{◌≡◌, ◌<◌, ◌≤◌, ◌-◌, ◌+◌, ◌*◌, ◌/◌, ◌^◌, ℕ, length, OnOk};
ghost use Rattle.tensor_loops.specs.Putting.{PutsRow};
ghost use Rattle.tensor_values.specs.Values.{value_in};
ghost use Rattle.tensor_views.specs.Reading.{read_at};
ghost use Rattle.tensor_views.specs.View.{view_size, reached, along, IsRowIn};

use std::alloc::{AllocError, Global};
use tensor_views::{Axis, Reading, Row, rows_of, steps_to};

/// The rows that hold a run of a view's places.
#[derive(Clone, Copy, Drop)]
struct Rows<'a> {
    /// The place at which each row starts in the list.
    starts: &'a [u32],
    /// The axis along which all rows go.
    axis: Axis,
}

/// Writes the values that a reading has at the places `[first, first + values.len())`, and
/// overwrites what is in `values`. Fails if the list of row starts can't be allocated.
pub fn put_along(
    alloc: Global,
    values: &mut [i64],
    reading: Reading<'_>,
    first: usize,
) -> Result<(), AllocError>
    requires fits { first + length values.old < 2 ^ 64 }
    requires within { first + length values.old ≤ view_size reading.view.axes.now }
    requires inside { (p : ℕ) → p < view_size reading.view.axes.now
        → reached reading.view.start reading.view.axes.now p < length reading.list.now }
    requires few { length reading.list.now < 2 ^ 32 }
    ensures len { length values.new ≡ length values.old }
    ensures each { OnOk result ((k : ℕ) → k < length values.old
        → value_in values.new k ≡ read_at reading.entry (first + k)) }
{
    if values.is_empty() {
        return Ok(());
    }
    let (axis, starts) = rows_of(alloc, reading.view, first, first + values.len())?;
    let rows = Rows {
        starts: &starts,
        axis,
    };
    put_rows(values, reading.list, rows, first);
    Ok(())
}

/// Writes the values of a run row by row. The first and the last row are cut to the run.
fn put_rows(values: &mut [i64], list: &[i64], rows: Rows<'_>, first: usize)
    requires size { 0 < rows.axis.size }
    requires rows { first + length values.old
        ≤ rows.axis.size * (first / rows.axis.size + length rows.starts.now) }
    requires inside { (p : ℕ) → first ≤ p → p < first + length values.old
        → along rows.starts.now rows.axis first p < length list.now }
    ensures len { length values.new ≡ length values.old }
    ensures each { (k : ℕ) → k < length values.old → value_in values.new k
        ≡ value_in list.now (along rows.entry.starts.now rows.entry.axis first (first + k)) }
{
    let axis = rows.axis;
    let mut at = 0;
    let mut from = first % axis.size;
    for start in rows.starts {
        let count = (axis.size - from).min(values.len() - at);
        let row = Row {
            start: *start as usize,
            axis,
            from,
            count,
        };
        put_row(values, at, list, row);
        at += count;
        from = 0;
    }
}

/// Writes the values of one row into `values` from index `at` on. The step is a constant if it is 1
/// or 0, so that the compiler makes a loop for it.
fn put_row(values: &mut [i64], at: usize, list: &[i64], row: Row)
    requires row { IsRowIn row (length list.now) }
    requires room { at + row.count ≤ length values.old }
    ensures { PutsRow values.old list.now row at row.count values.new }
{
    match (row.axis.step, row.axis.reversed) {
        (1, false) => put_places(values, at, list, row.known(1, false)),
        (1, true) => put_places(values, at, list, row.known(1, true)),
        (0, false) => put_places(values, at, list, row.known(0, false)),
        _ => put_places(values, at, list, row),
    }
}

/// Writes the values of one row into `values` from index `at` on, one by one.
#[inline(always)]
fn put_places(values: &mut [i64], at: usize, list: &[i64], row: Row)
    requires row { IsRowIn row (length list.now) }
    requires room { at + row.count ≤ length values.old }
    ensures { PutsRow values.old list.now row at row.count values.new }
{
    for k in 0..row.count {
        values[at + k] = list[row.start + steps_to(row.axis, row.from + k) * row.axis.step];
    }
}
