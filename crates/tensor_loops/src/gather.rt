//! Gathers: the values of a list at places, and along a view. A change of what is read touches
//! `specs/Reading` of tensor_views; evaluation by ranges in tensor_ops is built on these calls.

pub(crate) mod along;
pub(crate) mod interleaved;
pub(crate) mod tiles;

ghost use Rattle.std.specs.Prelude.{◌≡◌, ◌<◌, ◌≤◌, ◌-◌, ◌+◌, ◌*◌, ◌/◌, ◌^◌, ◌++◌, ℕ, length, map};
ghost use Rattle.std.specs.Prelude.{IfOk, OnOk, slice_index, vec_len, vec_capacity};
ghost use Rattle.std.specs.Cow.{cow_slice_items};
ghost use Rattle.std.specs.List.{range_with_len};
ghost use Rattle.tensor_views.specs.Places.{places_of, AreBelow};
ghost use Rattle.tensor_values.specs.Values.{value_in};
ghost use Rattle.tensor_views.specs.Reading.{read_at};
ghost use Rattle.tensor_views.specs.View.{view_size, reached, along, steps_to};

use std::alloc::{AllocError, Global};
use std::borrow::CowSlice;
use tensor_views::{Axis, Places, Reading, looked_up, rows_of, steps_to};

/// Returns the values of a list at places. A run is borrowed, and nothing is allocated for it.
pub fn picked<'a>(
    alloc: Global,
    values: &'a [i64],
    places: &Places<'_>,
) -> Result<CowSlice<'a, i64, Global>, AllocError>
    requires { AreBelow places.now (length values.now) }
    ensures { IfOk result (λ v. cow_slice_items v
        ≡ map (value_in values.now) (places_of places.now)) }
{
    match places {
        Places::Run(first, last) => Ok(CowSlice::Borrowed(&values[*first..*last])),
        Places::Listed(places) => Ok(CowSlice::Owned(gathered(alloc, values, places)?)),
    }
}

/// Returns the values of a list at listed places.
fn gathered(alloc: Global, values: &[i64], places: &[u32]) -> Result<Vec<i64>, AllocError>
    requires { (k : ℕ) → k < length places.now → slice_index places.now k < length values.now }
    ensures { IfOk result (λ v. v.items ≡ map (value_in values.now) places.now) }
{
    let mut gathered = Vec::with_capacity(alloc, places.len())?;
    for place in places {
        gathered.push_reserved(values[*place as usize]);
    }
    Ok(gathered)
}

/// Returns the values that a reading has at places.
pub fn picked_along(
    alloc: Global,
    reading: Reading<'_>,
    places: &Places<'_>,
) -> Result<Vec<i64>, AllocError>
    requires within { AreBelow places.now (view_size reading.view.axes.now) }
    requires inside { (p : ℕ) → p < view_size reading.view.axes.now
        → reached reading.view.start reading.view.axes.now p < length reading.list.now }
    requires few { length reading.list.now < 2 ^ 32 }
    ensures { IfOk result (λ v. v.items ≡ map (read_at reading.entry) (places_of places.now)) }
{
    match places {
        Places::Run(first, last) => gathered_along(alloc, reading, *first, *last),
        Places::Listed(places) => {
            let sources = looked_up(alloc, reading.view, places)?;
            gathered(alloc, reading.list, &sources)
        }
    }
}

/// Returns the values that a reading has at the places in `[first, last)`, row by row.
fn gathered_along(
    alloc: Global,
    reading: Reading<'_>,
    first: usize,
    last: usize,
) -> Result<Vec<i64>, AllocError>
    requires order { first ≤ last }
    requires within { last ≤ view_size reading.view.axes.now }
    requires inside { (p : ℕ) → p < view_size reading.view.axes.now
        → reached reading.view.start reading.view.axes.now p < length reading.list.now }
    requires few { length reading.list.now < 2 ^ 32 }
    ensures { IfOk result (λ v. v.items
        ≡ map (read_at reading.entry) (range_with_len first (last - first))) }
{
    if first == last {
        return Ok(Vec::new(alloc));
    }
    let (axis, rows) = rows_of(alloc, reading.view, first, last)?;
    let mut gathered = Vec::with_capacity(alloc, last - first)?;
    gather_rows(&mut gathered, reading.list, &rows, axis, first, last)?;
    Ok(gathered)
}

/// Appends the values at the places in `[first, last)`, row by row. The first and the last row are
/// cut to the run.
fn gather_rows(
    gathered: &mut Vec<i64>,
    values: &[i64],
    rows: &[u32],
    axis: Axis,
    first: usize,
    last: usize,
) -> Result<(), AllocError>
    requires size { 0 < axis.size }
    requires order { first ≤ last }
    requires rows { last ≤ axis.size * (first / axis.size + length rows.now) }
    requires room { vec_len gathered.old + (last - first) ≤ vec_capacity gathered.old }
    requires inside { (p : ℕ) → first ≤ p → p < last
        → along rows.now axis first p < length values.now }
    requires few { length values.now < 2 ^ 32 }
    ensures { OnOk result (gathered.new.items ≡ gathered.old.items
        ++ map (λ p. value_in values.now (along rows.now axis first p))
        (range_with_len first (last - first))) }
{
    let mut place = first;
    let mut index = first % axis.size;
    for row in rows {
        let count = (axis.size - index).min(last - place);
        gather_row(gathered, values, *row as usize, axis, index, index + count)?;
        place += count;
        index = 0;
    }
    Ok(())
}

/// Appends the values of one row for the indices in `[from, to)`, by one copy if they lie side by
/// side.
fn gather_row(
    gathered: &mut Vec<i64>,
    values: &[i64],
    row: usize,
    axis: Axis,
    from: usize,
    to: usize,
) -> Result<(), AllocError>
    requires order { from ≤ to }
    requires within { to ≤ axis.size }
    requires room { vec_len gathered.old + (to - from) ≤ vec_capacity gathered.old }
    requires inside { (i : ℕ) → from ≤ i → i < to
        → row + steps_to axis i * axis.step < length values.now }
    requires few { length values.now < 2 ^ 32 }
    ensures items { OnOk result (gathered.new.items ≡ gathered.old.items
        ++ map (λ i. value_in values.now (row + steps_to axis i * axis.step))
        (range_with_len from (to - from))) }
    ensures len { OnOk result (vec_len gathered.new ≡ vec_len gathered.old + (to - from)) }
    ensures capacity { OnOk result (vec_capacity gathered.old ≤ vec_capacity gathered.new) }
{
    if axis.step == 1 && !axis.reversed && from < to {
        return gathered.extend_from_slice(&values[row + from..row + to]);
    }
    match (axis.step, axis.reversed) {
        (1, true) => gather_each(gathered, values, row, axis.known(1, true), from, to),
        (0, false) => gather_each(gathered, values, row, axis.known(0, false), from, to),
        _ => gather_each(gathered, values, row, axis, from, to),
    }
    Ok(())
}

/// Appends the values of one row for the indices in `[from, to)`, one by one. Callers pass a
/// constant step where they can, so that the compiler makes a loop for it.
#[inline(always)]
fn gather_each(
    gathered: &mut Vec<i64>,
    values: &[i64],
    row: usize,
    axis: Axis,
    from: usize,
    to: usize,
)
    requires order { from ≤ to }
    requires within { to ≤ axis.size }
    requires room { vec_len gathered.old + (to - from) ≤ vec_capacity gathered.old }
    requires inside { (i : ℕ) → from ≤ i → i < to
        → row + steps_to axis i * axis.step < length values.now }
    requires few { length values.now < 2 ^ 32 }
    ensures items { gathered.new.items ≡ gathered.old.items
        ++ map (λ i. value_in values.now (row + steps_to axis i * axis.step))
        (range_with_len from (to - from)) }
    ensures len { vec_len gathered.new ≡ vec_len gathered.old + (to - from) }
    ensures capacity { vec_capacity gathered.new ≡ vec_capacity gathered.old }
{
    for index in from..to {
        gathered.push_reserved(values[row + steps_to(axis, index) * axis.step]);
    }
}
