//! The operand's places for a run of a view's places, row by row. tensor_ops gathers runs by
//! `rows_of`.

ghost use Rattle.std.specs.Prelude.{◌≡◌, ◌<◌, ◌≤◌, ◌-◌, ◌+◌, ◌*◌, ◌/◌, ◌^◌, ◌++◌, ℕ, length, map};
ghost use Rattle.std.specs.Prelude.{IfOk, vec_len, vec_capacity};
ghost use Rattle.std.specs.List.{range_with_len};
ghost use Rattle.tensor_views.specs.View.{view_size, reached, along, steps_to};

use crate::axis::{ALONE, Axis, steps_to};
use crate::view::ViewRef;
use std::alloc::{AllocError, Global};

/// Returns the operand's places for the places in `[first, last)`.
pub(crate) fn places_in_run(
    alloc: Global,
    view: ViewRef<'_>,
    first: usize,
    last: usize,
) -> Result<Vec<u32>, AllocError>
    requires order { first ≤ last }
    requires within { last ≤ view_size view.axes.now }
    requires fits { (p : ℕ) → p < view_size view.axes.now
        → reached view.start view.axes.now p < 2 ^ 32 }
    ensures { IfOk result (λ v. v.items
        ≡ map (reached view.entry.start view.entry.axes.now) (range_with_len first (last - first))) }
{
    if first == last {
        return Ok(Vec::new(alloc));
    }
    let (axis, rows) = rows_of(alloc, view, first, last)?;
    laid_out(alloc, &rows, axis, first, last)
}

/// Returns an axis, and the starts of its rows that hold the places in `[first, last)`. The axis is
/// the first one of the view that has more than one place, or one of a single place.
pub fn rows_of(
    alloc: Global,
    view: ViewRef<'_>,
    first: usize,
    last: usize,
) -> Result<(Axis, Vec<u32>), AllocError>
    requires some { first < last }
    requires within { last ≤ view_size view.axes.now }
    requires fits { (p : ℕ) → p < view_size view.axes.now
        → reached view.start view.axes.now p < 2 ^ 32 }
    ensures size { IfOk result (λ r. 0 < r.0.size) }
    ensures cover { IfOk result (λ r. last ≤ r.0.size * (first / r.0.size + length r.1.items)) }
    ensures along { IfOk result (λ r. (p : ℕ) → first ≤ p → p < last
        → along r.1.items r.0 first p ≡ reached view.entry.start view.entry.axes.now p) }
{
    let Some((axis, slower)) = view.axes.split_first() else {
        return Ok((ALONE, vec![in alloc; view.start as u32]?));
    };
    if last - first == 1 {
        let place = view.at(first);
        return Ok((ALONE, vec![in alloc; place as u32]?));
    }
    let slower = ViewRef {
        start: view.start,
        axes: slower,
    };
    if axis.size == 1 {
        return rows_of(alloc, slower, first, last);
    }
    let from = first / axis.size;
    let to = (last - 1) / axis.size + 1;
    let (next, starts) = rows_of(alloc, slower, from, to)?;
    let rows = laid_out(alloc, &starts, next, from, to)?;
    Ok((*axis, rows))
}

/// Returns the operand's places for the places in `[first, last)` along an axis, from the starts of
/// its rows.
fn laid_out(
    alloc: Global,
    rows: &[u32],
    axis: Axis,
    first: usize,
    last: usize,
) -> Result<Vec<u32>, AllocError>
    requires size { 0 < axis.size }
    requires order { first ≤ last }
    requires rows { last ≤ axis.size * (first / axis.size + length rows.now) }
    requires fits { (p : ℕ) → first ≤ p → p < last → along rows.now axis first p < 2 ^ 32 }
    ensures { IfOk result (λ v. v.items
        ≡ map (along rows.now axis first) (range_with_len first (last - first))) }
{
    let mut places = Vec::with_capacity(alloc, last - first)?;
    add_rows(&mut places, rows, axis, first, last);
    Ok(places)
}

/// Appends the operand's places for the places in `[first, last)`, row by row. The first and the
/// last row are cut to the run.
fn add_rows(places: &mut Vec<u32>, rows: &[u32], axis: Axis, first: usize, last: usize)
    requires size { 0 < axis.size }
    requires order { first ≤ last }
    requires rows { last ≤ axis.size * (first / axis.size + length rows.now) }
    requires room { vec_len places.old + (last - first) ≤ vec_capacity places.old }
    requires fits { (p : ℕ) → first ≤ p → p < last → along rows.now axis first p < 2 ^ 32 }
    ensures { places.new.items ≡ places.old.items
        ++ map (along rows.now axis first) (range_with_len first (last - first)) }
{
    let mut place = first;
    let mut index = first % axis.size;
    for row in rows {
        let count = (axis.size - index).min(last - place);
        add_row(places, *row as usize, axis, index, index + count);
        place += count;
        index = 0;
    }
}

/// Appends the operand's places of one row for the indices in `[from, to)`.
fn add_row(places: &mut Vec<u32>, row: usize, axis: Axis, from: usize, to: usize)
    requires order { from ≤ to }
    requires within { to ≤ axis.size }
    requires room { vec_len places.old + (to - from) ≤ vec_capacity places.old }
    requires fits { (i : ℕ) → from ≤ i → i < to → row + steps_to axis i * axis.step < 2 ^ 32 }
    ensures items { places.new.items ≡ places.old.items
        ++ map (λ i. row + steps_to axis i * axis.step) (range_with_len from (to - from)) }
    ensures len { vec_len places.new ≡ vec_len places.old + (to - from) }
    ensures capacity { vec_capacity places.new ≡ vec_capacity places.old }
{
    for index in from..to {
        places.push_reserved((row + steps_to(axis, index) * axis.step) as u32);
    }
}
