//! The operand's places for a list of a view's places. The start of a row is computed once for
//! neighbours in the list that lie in the same row. `mapping.rt` uses these rows too.

ghost use Rattle.std.specs.Prelude.{◌≡◌, ◌<◌, ◌*◌, ◌/◌, ◌^◌, ◌∷◌, ℕ, length, map};
ghost use Rattle.std.specs.Prelude.{IfOk, slice_index};
ghost use Rattle.tensor_views.specs.View.{view_size, reached};

use crate::axis::{ALONE, Axis, steps_to};
use crate::view::ViewRef;
use std::alloc::{AllocError, Global};

/// A row of a view: the places with equal indices at all axes but the first.
#[derive(Clone, Copy, Drop)]
pub(crate) struct ViewRow {
    /// The first place of the row in the view.
    pub(crate) first: usize,
    /// The operand's place from which the steps of the first axis count.
    pub(crate) start: usize,
}

/// Returns the operand's place for each place in a list. A place in the row of the place before it
/// costs no division.
pub fn looked_up(alloc: Global, view: ViewRef<'_>, places: &[u32]) -> Result<Vec<u32>, AllocError>
    requires within { (k : ℕ) → k < length places.now
        → slice_index places.now k < view_size view.axes.now }
    requires fits { (p : ℕ) → p < view_size view.axes.now
        → reached view.start view.axes.now p < 2 ^ 32 }
    ensures { IfOk result (λ v. v.items
        ≡ map (reached view.entry.start view.entry.axes.now) places.now) }
{
    let mut sources = Vec::with_capacity(alloc, places.len())?;
    let Some(first) = places.first() else {
        return Ok(sources);
    };
    let (axis, slower) = first_axis(view.axes);
    let slower = ViewRef {
        start: view.start,
        axes: slower,
    };
    let mut row = row_of(axis, slower, *first as usize);
    for place in places {
        let place = *place as usize;
        row = row_with(row, axis, slower, place);
        let steps = steps_to(axis, place - row.first);
        sources.push_reserved((row.start + steps * axis.step) as u32);
    }
    Ok(sources)
}

/// Returns the first axis and the slower ones. A view without axes has a first axis of one place.
pub(crate) fn first_axis(axes: &[Axis]) -> (Axis, &[Axis])
    ensures size { view_size (result.0 ∷ result.1.now) ≡ view_size axes.now }
    ensures reached { (start : ℕ) → (p : ℕ)
        → reached start (result.0 ∷ result.1.now) p ≡ reached start axes.now p }
{
    match axes.split_first() {
        Some((axis, slower)) => (*axis, slower),
        None => (ALONE, axes),
    }
}

/// Returns the row of a place: `row` if the place lies in it, else computed anew.
#[inline(always)]
pub(crate) fn row_with(row: ViewRow, axis: Axis, slower: ViewRef<'_>, place: usize) -> ViewRow
    requires size { 0 < axis.size }
    requires within { place / axis.size < view_size slower.axes.now }
    requires fits { reached slower.start slower.axes.now (place / axis.size) < 2 ^ 32 }
    requires row_first { row.first ≡ axis.size * (row.first / axis.size) }
    requires row_start { row.start ≡ reached slower.start slower.axes.now (row.first / axis.size) }
    ensures first { result.first ≡ axis.size * (place / axis.size) }
    ensures start { result.start
        ≡ reached slower.entry.start slower.entry.axes.now (place / axis.size) }
{
    if row.first <= place && place - row.first < axis.size {
        return row;
    }
    row_of(axis, slower, place)
}

/// Returns the row of a place, by one division for each axis.
pub(crate) fn row_of(axis: Axis, slower: ViewRef<'_>, place: usize) -> ViewRow
    requires size { 0 < axis.size }
    requires within { place / axis.size < view_size slower.axes.now }
    requires fits { reached slower.start slower.axes.now (place / axis.size) < 2 ^ 32 }
    ensures first { result.first ≡ axis.size * (place / axis.size) }
    ensures start { result.start
        ≡ reached slower.entry.start slower.entry.axes.now (place / axis.size) }
{
    let row = place / axis.size;
    ViewRow {
        first: row * axis.size,
        start: slower.at(row),
    }
}
