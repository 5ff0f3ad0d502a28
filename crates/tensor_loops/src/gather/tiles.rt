//! Gathers by tiles, for views that read neighbours of a list at places far apart. The values of
//! one cache line are read together and each is written to its own row. No value depends on tiles;
//! the sizes here were chosen for speed, and a change of `TILE` touches `specs/Tiles`.

ghost use Rattle.std.specs.Prelude.{◌≡◌, ◌≢◌, ◌<◌, ◌≤◌, ◌-◌, ◌+◌, ◌*◌, ◌/◌, ◌%◌, ◌^◌, ℕ};
ghost use Rattle.std.specs.Prelude.{IfOk, IfSome, IsTrue, OnOk, length, slice_index};
ghost use Rattle.tensor_loops.specs.Tiles.{HaveNeighbours, HasTile};
ghost use Rattle.tensor_values.specs.Values.{value_in};
ghost use Rattle.tensor_views.specs.Reading.{read_at};
ghost use Rattle.tensor_views.specs.View.{view_size, reached};

use crate::gather::picked_along;
use std::alloc::{AllocError, Global};
use tensor_views::{Axis, Places, Reading};

/// How many neighbours are read together: the 64-bit values of a cache line.
const TILE: usize = 8;

/// The shortest stride for which tiles are used. With a shorter stride a cache line is still in a
/// near cache when its next value is read, and gathering row by row is faster.
const SHORTEST_STRIDE: usize = 1024;

/// How many places are computed at a time, so that they stay in the nearest cache.
const PIECE: usize = 1024;

/// How a view reads neighbours of a list: places that lie `stride` apart read neighbouring values,
/// in runs of `count`.
#[derive(Clone, Copy, Drop)]
pub struct Neighbours {
    /// The distance of places that read neighbouring values.
    pub stride: usize,
    /// The number of neighbours in a run.
    pub count: usize,
}

/// A list that is read along a view, where neighbours in the list are read at places far apart.
#[derive(Clone, Copy, Drop)]
pub struct Tiled<'a> {
    /// The list and the view.
    pub reading: Reading<'a>,
    /// Where the neighbours lie among the places of the view.
    pub neighbours: Neighbours,
}

impl Neighbours {
    /// Returns the neighbours of a view; `None` if they aren't far enough apart for tiles.
    fn far_apart(axes: &[Axis]) -> Option<Self>
        ensures { IfSome result (λ n. HaveNeighbours axes.now n.stride n.count) }
    {
        let neighbours = neighbours_of(axes)?;
        if neighbours.stride < SHORTEST_STRIDE {
            return None;
        }
        Some(neighbours)
    }

    /// Whether a row begins at `place` and at least seven more rows follow in its run of
    /// neighbours.
    #[inline(always)]
    fn has_tile(self, place: usize) -> bool
        requires stride { 0 < self.stride }
        requires count { 0 < self.count }
        ensures { IsTrue result → HasTile place self.stride self.count }
    {
        place % self.stride == 0 && self.count - place / self.stride % self.count >= TILE
    }

    /// Writes neighbours into the rows of `out`, one into each row, at the same index of each.
    #[inline(always)]
    fn put(self, out: &mut [i64], index: usize, neighbours: &[i64])
        requires row { index < self.stride }
        requires room { 8 * self.stride ≤ length out.old }
        requires tile { length neighbours.now ≡ 8 }
        ensures len { length out.new ≡ length out.old }
        ensures each { (k : ℕ) → k < 8
            → value_in out.new (index + k * self.stride) ≡ value_in neighbours.now k }
        ensures kept { (i k : ℕ) → i < self.stride → i ≢ index
            → value_in out.new (i + k * self.stride) ≡ value_in out.old (i + k * self.stride) }
    {
        for k in 0..TILE {
            out[index + k * self.stride] = neighbours[k];
        }
    }
}

impl<'a> Tiled<'a> {
    /// Returns the reading with its neighbours; `None` if tiles are not worth it for this view.
    pub fn of(reading: Reading<'a>) -> Option<Self>
        ensures reading { IfSome result (λ tiled. tiled.reading ≡ reading.entry) }
        ensures neighbours { IfSome result (λ tiled. HaveNeighbours tiled.reading.view.axes.now
            tiled.neighbours.stride tiled.neighbours.count) }
    {
        let neighbours = Neighbours::far_apart(reading.view.axes)?;
        Some(Tiled {
            reading,
            neighbours,
        })
    }

    /// Writes the values at the places `[first, first + out.len())`, by tiles where possible, and
    /// overwrites what is in `out`.
    pub fn gather(self, alloc: Global, first: usize, out: &mut [i64]) -> Result<(), AllocError>
        requires neighbours { HaveNeighbours self.reading.view.axes.now self.neighbours.stride
            self.neighbours.count }
        requires last { first + length out.old < 2 ^ 64 }
        requires within { first + length out.old ≤ view_size self.reading.view.axes.now }
        requires inside { (p : ℕ) → p < view_size self.reading.view.axes.now
            → reached self.reading.view.start self.reading.view.axes.now p
            < length self.reading.list.now }
        requires few { length self.reading.list.now < 2 ^ 32 }
        ensures len { length out.new ≡ length out.old }
        ensures each { OnOk result ((k : ℕ) → k < length out.old
            → value_in out.new k ≡ read_at self.entry.reading (first + k)) }
    {
        let mut done = 0;
        while done < out.len() {
            done += self.gather_next(alloc, first + done, &mut out[done..])?;
        }
        Ok(())
    }

    /// Writes the next values, and returns how many: the values of a slab of rows if one begins at
    /// `place`, else values up to the next place at which a slab may begin.
    fn gather_next(self, alloc: Global, place: usize, out: &mut [i64]) -> Result<usize, AllocError>
        requires neighbours { HaveNeighbours self.reading.view.axes.now self.neighbours.stride
            self.neighbours.count }
        requires some { 0 < length out.old }
        requires last { place + length out.old < 2 ^ 64 }
        requires within { place + length out.old ≤ view_size self.reading.view.axes.now }
        requires inside { (p : ℕ) → p < view_size self.reading.view.axes.now
            → reached self.reading.view.start self.reading.view.axes.now p
            < length self.reading.list.now }
        requires few { length self.reading.list.now < 2 ^ 32 }
        ensures len { length out.new ≡ length out.old }
        ensures some { IfOk result (λ n. 0 < n) }
        ensures room { IfOk result (λ n. n ≤ length out.old) }
        ensures each { IfOk result (λ n. (k : ℕ) → k < n
            → value_in out.new k ≡ read_at self.entry.reading (place + k)) }
    {
        if self.neighbours.has_tile(place) && self.neighbours.stride <= out.len() / TILE {
            self.gather_slab(alloc, place, out)?;
            return Ok(TILE * self.neighbours.stride);
        }
        let row = self.neighbours.stride - place % self.neighbours.stride;
        let count = out.len().min(row).min(PIECE);
        let piece = picked_along(alloc, self.reading, &Places::Run(place, place + count))?;
        out[..count].copy_from_slice(piece.as_slice());
        Ok(count)
    }

    /// Writes a slab of rows. Each row has the next neighbours of the values in the row before it.
    fn gather_slab(self, alloc: Global, place: usize, out: &mut [i64]) -> Result<(), AllocError>
        requires neighbours { HaveNeighbours self.reading.view.axes.now self.neighbours.stride
            self.neighbours.count }
        requires tile { HasTile place self.neighbours.stride self.neighbours.count }
        requires room { 8 * self.neighbours.stride ≤ length out.old }
        requires last { place + length out.old < 2 ^ 64 }
        requires within { place + length out.old ≤ view_size self.reading.view.axes.now }
        requires inside { (p : ℕ) → p < view_size self.reading.view.axes.now
            → reached self.reading.view.start self.reading.view.axes.now p
            < length self.reading.list.now }
        requires few { length self.reading.list.now < 2 ^ 32 }
        ensures len { length out.new ≡ length out.old }
        ensures each { OnOk result ((k : ℕ) → k < 8 * self.entry.neighbours.stride
            → value_in out.new k ≡ read_at self.entry.reading (place + k)) }
    {
        let mut from = 0;
        while from < self.neighbours.stride {
            let to = from + (self.neighbours.stride - from).min(PIECE);
            let places = Places::Run(place + from, place + to);
            let sources = self.reading.view.places(alloc, &places)?;
            self.put_tile(out, from, &sources);
            from = to;
        }
        Ok(())
    }

    /// Writes a tile, from index `from` of each row on: into the first row the value at each
    /// source, into the next row the neighbour after it, and so on.
    fn put_tile(self, out: &mut [i64], from: usize, sources: &[u32])
        requires row { from + length sources.now ≤ self.neighbours.stride }
        requires room { 8 * self.neighbours.stride ≤ length out.old }
        requires inside { (q : ℕ) → q < length sources.now
            → slice_index sources.now q + 8 ≤ length self.reading.list.now }
        ensures len { length out.new ≡ length out.old }
        ensures each { (q k : ℕ) → q < length sources.now → k < 8
            → value_in out.new (from + q + k * self.entry.neighbours.stride)
            ≡ value_in self.entry.reading.list.now (slice_index sources.now q + k) }
        ensures kept { (i k : ℕ) → i < from → k < 8
            → value_in out.new (i + k * self.entry.neighbours.stride)
            ≡ value_in out.old (i + k * self.entry.neighbours.stride) }
    {
        for q in 0..sources.len() {
            let source = sources[q] as usize;
            self.neighbours
                .put(out, from + q, &self.reading.list[source..source + TILE]);
        }
    }
}

/// Returns the neighbours along the first axis of step 1, if it has enough places for a tile. Axes
/// before it that repeat places give `None`: their cache lines are read again soon.
fn neighbours_of(axes: &[Axis]) -> Option<Neighbours>
    ensures { IfSome result (λ n. HaveNeighbours axes.now n.stride n.count) }
{
    let Some((axis, slower)) = axes.split_first() else {
        return None;
    };
    if axis.step == 1 && !axis.reversed && axis.size >= TILE {
        return Some(Neighbours {
            stride: 1,
            count: axis.size,
        });
    }
    if axis.size == 0 || (axis.size > 1 && axis.step == 0) {
        return None;
    }
    let neighbours = neighbours_of(slower)?;
    let stride = neighbours.stride.checked_mul(axis.size)?;
    Some(Neighbours {
        stride,
        count: neighbours.count,
    })
}
