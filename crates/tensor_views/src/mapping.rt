//! Tables of places, of which each entry of one is added to each entry of another, mapped through a
//! view. If no sum carries from one axis into the next, the mapped entries can be added instead. A
//! change touches `specs/View` (`AreAllApart`) and the contractions of tensor_ops.

ghost use Rattle.std.specs.Prelude.{◌≡◌, ◌<◌, ◌≤◌, ◌+◌, ◌*◌, ◌%◌, ◌^◌, ℕ, length, slice_index};
ghost use Rattle.std.specs.Prelude.{IsTrue};
ghost use Rattle.tensor_views.specs.View.{view_size, reached, AreAllApart};

use crate::axis::{Axis, along_axis};
use crate::listed_places::{first_axis, row_of, row_with};
use crate::view::ViewRef;

/// Whether the places of two tables, each divided by `before`, can be added without a carry from
/// one of these axes into the next. No axis may be reversed. For each axis but the last, the
/// greatest remainders of both tables by the number of places up to the end of the axis must add up
/// to less than that number. Costs one division for each entry and axis, and none for an entry that
/// is near the one before it.
pub fn are_apart(axes: &[Axis], before: usize, starts: &[usize], offsets: &[usize]) -> bool
    requires before { 0 < before }
    requires some { 0 < view_size axes.now }
    requires fits { before * view_size axes.now < 2 ^ 32 }
    requires inside { (x q : ℕ) → x < length starts.now → q < length offsets.now
        → slice_index starts.now x + slice_index offsets.now q < before * view_size axes.now }
    ensures { IsTrue result → AreAllApart axes.now before starts.now offsets.now }
{
    let Some((axis, slower)) = axes.split_first() else {
        return true;
    };
    if axis.reversed {
        return false;
    }
    if slower.is_empty() {
        return true;
    }
    let span = before * axis.size;
    if axis.size == 1 {
        return are_apart(slower, span, starts, offsets);
    }
    if greatest_rest(starts, span) + greatest_rest(offsets, span) >= span {
        return false;
    }
    are_apart(slower, span, starts, offsets)
}

/// Returns the greatest remainder by `span` of the entries of a table; 0 for an empty table.
fn greatest_rest(places: &[usize], span: usize) -> usize
    requires { 0 < span }
    ensures below { result < span }
    ensures each { (k : ℕ) → k < length places.now → slice_index places.now k % span ≤ result }
{
    let (mut greatest, mut last, mut rest) = (0, 0, 0);
    for place in places {
        rest = next_rest(last, rest, *place, span);
        last = *place;
        greatest = greatest.max(rest);
    }
    greatest
}

/// Returns the remainder of a place by `span`, given the remainder of the last place. Places that
/// are near each other need no division.
#[inline(always)]
fn next_rest(last: usize, rest: usize, place: usize, span: usize) -> usize
    requires some { 0 < span }
    requires rest { rest ≡ last % span }
    ensures { result ≡ place % span }
{
    if place >= last {
        let next = rest + (place - last);
        if next < span {
            return next;
        }
        if next - span < span {
            return next - span;
        }
    }
    place % span
}

/// Replaces each place by the operand's place that the view reaches for it. Costs one division for
/// each place; one more for each axis if the place isn't in the same row of the second axis as the
/// place before it.
pub fn map_through(places: &mut Vec<usize>, view: ViewRef<'_>)
    requires within { (k : ℕ) → k < length places.old.items
        → slice_index places.old.items k < view_size view.axes.now }
    requires fits { (p : ℕ) → p < view_size view.axes.now
        → reached view.start view.axes.now p < 2 ^ 32 }
    ensures len { length places.new.items ≡ length places.old.items }
    ensures each { (k : ℕ) → k < length places.old.items
        → slice_index places.new.items k
        ≡ reached view.entry.start view.entry.axes.now (slice_index places.old.items k) }
{
    let Some(first) = places.first() else {
        return;
    };
    let (axis, others) = first_axis(view.axes);
    let (second, slower) = first_axis(others);
    let slower = ViewRef {
        start: view.start,
        axes: slower,
    };
    let mut row = row_of(second, slower, *first / axis.size);
    for k in 0..places.len() {
        let place = places[k];
        let rest = place / axis.size;
        row = row_with(row, second, slower, rest);
        let reached = along_axis(row.start, second, rest - row.first);
        places[k] = along_axis(reached, axis, place % axis.size);
    }
}
