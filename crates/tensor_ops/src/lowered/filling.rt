//! Writes the values of lowered expressions into an existing list. `values_at` in `lowered`
//! computes the same values into new lists: a new kind of node needs both.

ghost use Rattle.std.specs.Prelude.{◌≡◌, ◌<◌, ◌≤◌, ◌-◌, ◌+◌, ◌^◌, ℕ, length, OnOk};
ghost use Rattle.tensor_ops.specs.private.Meaning.{meaning, count_of, IsSound};
ghost use Rattle.tensor_values.specs.Values.{value_in};

use crate::lowered::{Lowered, PIECE, combine_at, values_at};
use std::alloc::{AllocError, Global};
use tensor_loops::{Tiled, apply, combine_chain, put_along, put_applied, put_combined, select};
use tensor_views::Places;

impl Lowered<'_> {
    /// Writes the values at the places `[first, last)`: by tiles, if this reads a list along a view
    /// that takes neighbours far apart, or else piece by piece.
    pub(crate) fn fill(
        &self,
        alloc: Global,
        first: usize,
        last: usize,
        out: &mut [i64],
    ) -> Result<(), AllocError>
        requires order { first ≤ last }
        requires sound { IsSound self.now }
        requires within { last ≤ count_of self.now }
        requires long { length out.old ≡ last - first }
        ensures len { length out.new ≡ length out.old }
        ensures each { OnOk result ((k : ℕ) → k < length out.old
            → value_in out.new k ≡ meaning self.now (first + k)) }
    {
        if let Some(reading) = self.reading() {
            if let Some(tiled) = Tiled::of(reading) {
                return tiled.gather(alloc, first, out);
            }
        }
        let mut place = first;
        while place < last {
            let count = (last - place).min(PIECE);
            let part = &mut out[place - first..place - first + count];
            fill_piece(alloc, self, place, place + count, part)?;
            place += count;
        }
        Ok(())
    }
}

/// Writes the values at the places `[from, to)`. The first operand of an operation is written to
/// `out`, and the operation is then applied there.
fn fill_piece(
    alloc: Global,
    lowered: &Lowered<'_>,
    from: usize,
    to: usize,
    out: &mut [i64],
) -> Result<(), AllocError>
    requires order { from ≤ to }
    requires sound { IsSound lowered.now }
    requires within { to ≤ count_of lowered.now }
    requires long { length out.old ≡ to - from }
    ensures len { length out.new ≡ length out.old }
    ensures each { OnOk result ((k : ℕ) → k < length out.old
        → value_in out.new k ≡ meaning lowered.now (from + k)) }
{
    let places = Places::Run(from, to);
    match lowered {
        Lowered::Unary(operation, operand) => {
            if let Some(list) = operand.run(&places) {
                put_applied(*operation, out, list);
                return Ok(());
            }
            fill_piece(alloc, operand, from, to, out)?;
            apply(*operation, out);
        }
        Lowered::Binary(link, first, second) => {
            if let (Some(list), Some(others)) = (first.run(&places), second.others(&places)) {
                put_combined(*link, out, list, others);
                return Ok(());
            }
            fill_piece(alloc, first, from, to, out)?;
            combine_at(alloc, *link, out, second, &places)?;
        }
        Lowered::Chain(links, first, second) => {
            fill_piece(alloc, first, from, to, out)?;
            let operand = values_at(alloc, second, &places)?;
            combine_chain(links, out, operand.as_slice());
        }
        Lowered::Select(order, first, second, third) => {
            fill_piece(alloc, first, from, to, out)?;
            let second = values_at(alloc, second, &places)?;
            let third = values_at(alloc, third, &places)?;
            select(*order, out, second.as_slice(), third.as_slice());
        }
        _ => fill_read(alloc, lowered, from, out)?,
    }
    Ok(())
}

/// Writes the values of an expression that is no operation on values, from place `from` on. A list
/// that is read along a view is read straight to `out`.
fn fill_read(
    alloc: Global,
    lowered: &Lowered<'_>,
    from: usize,
    out: &mut [i64],
) -> Result<(), AllocError>
    requires sound { IsSound lowered.now }
    requires fits { from + length out.old < 2 ^ 64 }
    requires within { from + length out.old ≤ count_of lowered.now }
    ensures len { length out.new ≡ length out.old }
    ensures each { OnOk result ((k : ℕ) → k < length out.old
        → value_in out.new k ≡ meaning lowered.now (from + k)) }
{
    if let Some(reading) = lowered.reading() {
        return put_along(alloc, out, reading, from);
    }
    let piece = values_at(alloc, lowered, &Places::Run(from, from + out.len()))?;
    out.copy_from_slice(piece.as_slice());
    Ok(())
}
