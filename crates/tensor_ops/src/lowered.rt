//! Lowered expressions: a tree without dims, index lists and arguments, whose values are computed
//! by loops over places. `lowering` makes it, `sinking` moves its views. A new kind of node also
//! needs its meaning in specs/private/Meaning, and a case in `filling` and `at_hand`.

pub(crate) mod at_hand;
pub(crate) mod chaining;
pub(crate) mod filling;
pub(crate) mod operands;
pub(crate) mod sinking;

ghost use Rattle.std.specs.Prelude.{◌≡◌, ◌<◌, ◌≤◌, ◌-◌, ◌+◌, ◌++◌, ℕ, pos, length, map};
ghost use Rattle.std.specs.Prelude.{IfOk, OnOk, slice_index, slice_index_or};
ghost use Rattle.std.specs.Cow.{cow_slice_items};
ghost use Rattle.std.specs.List.{range_with_len};
ghost use Rattle.tensor_shape.specs.Index.{size_of};
ghost use Rattle.tensor_loops.specs.Loops.{either_way};
ghost use Rattle.tensor_ops.specs.private.Meaning.{meaning, count_of, IsSound};
ghost use Rattle.tensor_views.specs.Places.{places_of, AreBelow};
ghost use Rattle.tensor_values.specs.Values.{value_in};
ghost use Rattle.tensor_ops.specs.private.Lowering.{HasValues, meaning_at};
ghost use Rattle.tensor_values.specs.Interleaving.{interleaved, HaveTurns};

use crate::lowered::sinking::sunk_over;
use std::alloc::{AllocError, Allocator, Global};
use std::borrow::CowSlice;
use tensor_loops::{
    Link, SelectOrder, apply, combine, combine_along, combine_chain, combine_row, combined_list,
    has_long_rows, interleaved_list, interleaved_run, picked, picked_along, places_of_each, select,
};
use tensor_shape::Dims;
use tensor_values::{Turns, UnaryScalar};
use tensor_views::{Places, Reading, Row, View};

/// The number of places that are computed at a time, so that their values stay in the nearest
/// cache.
pub(crate) const PIECE: usize = 1024;

/// The least number of places of a turn, of both operands together, for which values are appended
/// part by part.
const LONG_TURN: usize = 64;

/// An expression over borrowed inputs, without dims, index lists and arguments. Of several
/// operands, except of `Interleaved`, the first is the one that needs the most memory. It is
/// computed first, while nothing is held of the others.
pub(crate) enum Lowered<'a> {
    /// The values of an input.
    Borrowed(&'a [i64]),
    /// Values that were computed before.
    Stored(Vec<i64>),
    /// One value, at the given number of places.
    Filled(i64, usize),
    /// An operation on the value at the same place.
    Unary(UnaryScalar, Box<Lowered<'a>>),
    /// An operation on both values at the same place, in the order that the link says.
    Binary(Link, Box<Lowered<'a>>, Box<Lowered<'a>>),
    /// Operations one after the other, each on the result so far, which begins with the first
    /// operand's value, and on the second operand's value at the same place.
    Chain(Vec<Link>, Box<Lowered<'a>>, Box<Lowered<'a>>),
    /// Select, on the three values at the same place.
    Select(SelectOrder, Box<Lowered<'a>>, Box<Lowered<'a>>, Box<Lowered<'a>>),
    /// The operand's value at the place that a view reaches.
    View(View, Box<Lowered<'a>>),
    /// The values of both operands in turns.
    Interleaved(Turns, Box<Lowered<'a>>, Box<Lowered<'a>>),
}

// Written out, as a derived drop would be unfolded in each proof that drops a tree.
impl Drop for Lowered<'_> {
    fn drop(self) {
        match self {
            Lowered::Borrowed(_)
            | Lowered::Stored(_)
            | Lowered::Filled(_, _)
            | Lowered::Unary(_, _)
            | Lowered::Binary(_, _, _)
            | Lowered::Chain(_, _, _)
            | Lowered::Select(_, _, _, _)
            | Lowered::View(_, _)
            | Lowered::Interleaved(_, _, _) => {}
        }
    }
}

impl<'a> Lowered<'a> {
    /// Returns the values at the places `[first, last)`, in order. `target` allocates the values,
    /// `alloc` what is needed meanwhile.
    pub(crate) fn values<A: Allocator>(
        &self,
        alloc: Global,
        target: A,
        first: usize,
        last: usize,
    ) -> Result<Vec<i64, A>, AllocError>
        requires order { first ≤ last }
        requires sound { IsSound self.now }
        requires within { last ≤ count_of self.now }
        ensures { IfOk result (λ v. v.items
            ≡ map (meaning self.now) (range_with_len first (last - first))) }
    {
        let mut values = Vec::with_capacity(target, last - first)?;
        let mut from = first;
        while from < last {
            let to = from + (last - from).min(PIECE);
            add_values(alloc, self, from, to, &mut values)?;
            from = to;
        }
        Ok(values)
    }

    /// Returns all values, if this has the given dims: borrowed if they are an input's, or else
    /// computed.
    pub(crate) fn into_values(
        self,
        alloc: Global,
        dims: &Dims,
    ) -> Result<CowSlice<'a, i64, Global>, AllocError>
        requires sound { IsSound self }
        requires count { count_of self ≡ size_of dims.now }
        ensures { IfOk result (λ v. HasValues (length (cow_slice_items v))
            (value_in (cow_slice_items v)) dims.now (meaning_at self.entry dims.now)) }
    {
        let sunk = sunk_over(alloc, self, dims)?;
        sunk.worked_out(alloc, dims)
    }
}

/// Appends the values at the places `[from, to)`. If two operands have long turns, each value is
/// copied once, from where it stands.
#[cycle(add_values)]
fn add_values<A: Allocator>(
    alloc: Global,
    lowered: &Lowered<'_>,
    from: usize,
    to: usize,
    values: &mut Vec<i64, A>,
) -> Result<(), AllocError>
    requires order { from ≤ to }
    requires sound { IsSound lowered.now }
    requires within { to ≤ count_of lowered.now }
    ensures { OnOk result (values.new.items ≡ values.old.items
        ++ map (meaning lowered.now) (range_with_len from (to - from))) }
{
    match lowered {
        Lowered::Interleaved(turns, first, second) if turns.first + turns.second >= LONG_TURN => {
            add_turns(alloc, *turns, first, second, from, to, values)
        }
        _ => {
            let piece = values_at(alloc, lowered, &Places::Run(from, to))?;
            values.extend_from_slice(piece.as_slice())
        }
    }
}

/// Appends the values of two operands in turns at the places `[from, to)`, one part of a turn of
/// one operand at a time.
#[cycle(add_values)]
fn add_turns<A: Allocator>(
    alloc: Global,
    turns: Turns,
    first: &Lowered<'_>,
    second: &Lowered<'_>,
    from: usize,
    to: usize,
    values: &mut Vec<i64, A>,
) -> Result<(), AllocError>
    requires order { from ≤ to }
    requires first { IsSound first.now }
    requires second { IsSound second.now }
    requires turns { HaveTurns turns.first turns.second (count_of first.now) (count_of second.now) }
    requires within { to ≤ count_of first.now + count_of second.now }
    ensures { OnOk result (values.new.items ≡ values.old.items
        ++ map (interleaved turns.first turns.second (meaning first.now) (meaning second.now))
        (range_with_len from (to - from))) }
{
    let mut place = from;
    while place < to {
        let end = turns.end_after(place, to);
        if turns.is_of_first(place) {
            let start = turns.firsts_before(place);
            add_values(alloc, first, start, start + (end - place), values)?;
        } else {
            let start = turns.seconds_before(place);
            add_values(alloc, second, start, start + (end - place), values)?;
        }
        place = end;
    }
    Ok(())
}

/// Returns the values at places, in their order. A run of a list is borrowed.
#[cycle(values_at)]
pub(crate) fn values_at<'t, 'a>(
    alloc: Global,
    lowered: &'t Lowered<'a>,
    places: &Places<'_>,
) -> Result<CowSlice<'t, i64, Global>, AllocError>
    requires sound { IsSound lowered.now }
    requires places { AreBelow places.now (count_of lowered.now) }
    ensures { IfOk result (λ v. cow_slice_items v
        ≡ map (meaning lowered.now) (places_of places.now)) }
{
    match lowered {
        Lowered::Borrowed(values) => picked(alloc, values, places),
        Lowered::Stored(values) => picked(alloc, values.as_slice(), places),
        Lowered::Filled(value, _) => {
            let values = vec![in alloc; *value; places.len()]?;
            Ok(CowSlice::Owned(values))
        }
        Lowered::Unary(operation, operand) => {
            let mut values = owned(alloc, values_at(alloc, operand, places)?)?;
            apply(*operation, &mut values);
            Ok(CowSlice::Owned(values))
        }
        Lowered::Binary(link, first, second) => {
            if let (Some(list), Some(others)) = (first.run(places), second.others(places)) {
                let values = combined_list(alloc, *link, list, others)?;
                return Ok(CowSlice::Owned(values));
            }
            let mut values = owned(alloc, values_at(alloc, first, places)?)?;
            combine_at(alloc, *link, &mut values, second, places)?;
            Ok(CowSlice::Owned(values))
        }
        Lowered::Chain(links, first, second) => {
            let mut values = owned(alloc, values_at(alloc, first, places)?)?;
            let operand = values_at(alloc, second, places)?;
            combine_chain(links, &mut values, operand.as_slice());
            Ok(CowSlice::Owned(values))
        }
        Lowered::Select(order, first, second, third) => {
            let mut values = owned(alloc, values_at(alloc, first, places)?)?;
            let second = values_at(alloc, second, places)?;
            let third = values_at(alloc, third, places)?;
            select(*order, &mut values, second.as_slice(), third.as_slice());
            Ok(CowSlice::Owned(values))
        }
        Lowered::View(view, operand) => {
            let view = view.as_ref();
            if let Some(list) = operand.list() {
                let values = picked_along(alloc, Reading { list, view }, places)?;
                return Ok(CowSlice::Owned(values));
            }
            let sources = view.places(alloc, places)?;
            values_at(alloc, operand, &Places::Listed(&sources))
        }
        Lowered::Interleaved(turns, first, second) => {
            interleaved_at(alloc, *turns, first, second, places)
        }
    }
}

/// Combines each value with the operand's value at its place; the link says the operation and the
/// order. The operand's values aren't copied if it is one value, or a list that is read along long
/// rows.
#[cycle(values_at)]
pub(crate) fn combine_at(
    alloc: Global,
    link: Link,
    values: &mut [i64],
    operand: &Lowered<'_>,
    places: &Places<'_>,
) -> Result<(), AllocError>
    requires sound { IsSound operand.now }
    requires places { AreBelow places.now (count_of operand.now) }
    requires same { length values.old ≡ length (places_of places.now) }
    ensures len { OnOk result (length values.new ≡ length (places_of places.now)) }
    ensures each { OnOk result ((k : ℕ) → k < length (places_of places.now)
        → slice_index_or values.new k (pos 0)
        ≡ either_way link.operation link.swapped (slice_index_or values.old k (pos 0))
        (meaning operand.now (slice_index (places_of places.now) k))) }
{
    if let Lowered::Filled(value, _) = operand {
        combine_row(link, values, 0, &[*value], Row::repeated(places.len()));
        return Ok(());
    }
    if let Places::Run(first, last) = places {
        if let Some(reading) = operand.reading() {
            if has_long_rows(reading.view.axes) {
                return combine_along(alloc, link, values, reading, *first, *last);
            }
        }
    }
    let others = values_at(alloc, operand, places)?;
    combine(link, values, others.as_slice());
    Ok(())
}

/// Returns the values of two operands in turns at places. If the places are a run of one operand,
/// nothing is copied.
#[cycle(values_at)]
fn interleaved_at<'t, 'a>(
    alloc: Global,
    turns: Turns,
    first: &'t Lowered<'a>,
    second: &'t Lowered<'a>,
    places: &Places<'_>,
) -> Result<CowSlice<'t, i64, Global>, AllocError>
    requires first { IsSound first.now }
    requires second { IsSound second.now }
    requires turns { HaveTurns turns.first turns.second (count_of first.now) (count_of second.now) }
    requires places { AreBelow places.now (count_of first.now + count_of second.now) }
    ensures { IfOk result (λ v. cow_slice_items v
        ≡ map (interleaved turns.first turns.second (meaning first.now) (meaning second.now))
        (places_of places.now)) }
{
    match places {
        Places::Run(from, to) => {
            let first_from = turns.firsts_before(*from);
            let first_to = turns.firsts_before(*to);
            let second_from = turns.seconds_before(*from);
            let second_to = turns.seconds_before(*to);
            if first_from == first_to {
                return values_at(alloc, second, &Places::Run(second_from, second_to));
            }
            if second_from == second_to {
                return values_at(alloc, first, &Places::Run(first_from, first_to));
            }
            let firsts = values_at(alloc, first, &Places::Run(first_from, first_to))?;
            let seconds = values_at(alloc, second, &Places::Run(second_from, second_to))?;
            let (firsts, seconds) = (firsts.as_slice(), seconds.as_slice());
            let values = interleaved_run(alloc, turns, *from, *to, firsts, seconds)?;
            Ok(CowSlice::Owned(values))
        }
        Places::Listed(places) => {
            let (firsts, seconds) = places_of_each(alloc, turns, places)?;
            let firsts = values_at(alloc, first, &Places::Listed(&firsts))?;
            let seconds = values_at(alloc, second, &Places::Listed(&seconds))?;
            let (firsts, seconds) = (firsts.as_slice(), seconds.as_slice());
            let values = interleaved_list(alloc, turns, places, firsts, seconds)?;
            Ok(CowSlice::Owned(values))
        }
    }
}

/// Returns the values as a list of their own, copied if they are borrowed.
pub(crate) fn owned(
    alloc: Global,
    values: CowSlice<'_, i64, Global>,
) -> Result<Vec<i64>, AllocError>
    ensures { IfOk result (λ v. v.items ≡ cow_slice_items values.entry) }
{
    match values {
        CowSlice::Borrowed(values) => {
            let mut copy = Vec::with_capacity(alloc, values.len())?;
            copy.extend_from_slice(values)?;
            Ok(copy)
        }
        CowSlice::Owned(values) => Ok(values),
    }
}
