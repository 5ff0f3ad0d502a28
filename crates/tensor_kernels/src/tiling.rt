//! Ranges of a contraction's values, tile by tile. A tile is the rows of a panel, sixteen or four,
//! in one column of the result, where they lie side by side. A band is up to 32, 128 or 512
//! columns. The value at each place is defined in specs/Tiling, whatever the widths are.

pub(crate) mod packed_chunk;
pub(crate) mod pairs;
pub(crate) mod placing;
pub(crate) mod small;
pub(crate) mod strassen;
pub(crate) mod tile;

ghost use Rattle.std.specs.Prelude.{◌≡◌, ℕ, ◌*◌, ◌+◌, ◌+ℤ◌, ◌%◌, ◌<◌, ◌≤◌, length};
ghost use Rattle.std.specs.Prelude.{IfOk, IsTrue, OnOk};
ghost use Rattle.std.specs.Cow.{cow_slice_items};
ghost use Rattle.tensor_values.specs.Values.{value_in};
ghost use Rattle.tensor_kernels.specs.private.Cells.{AreChunks, AreChunks-prop, IsChunk};
ghost use Rattle.tensor_dots.specs.Lanes.{AreSmall};
ghost use Rattle.tensor_dots.specs.Rows.{row_count, row_length, dot_at};

use crate::panels::Panels;
use crate::panels::chunks::{chunk_count, chunk_of};
use crate::panels::height::Height;
use crate::tiling::packed_chunk::PackedChunk;
use crate::tiling::strassen::{groups_of, pairs_of};
use std::alloc::{AllocError, Global};
use tensor_dots::lanes::small::are_small;
use tensor_dots::{Rows, RowsPart};

/// The number of columns that are packed together if the first operand is packed beforehand. They
/// are enough to use a panel of the first operand's rows often while it is in the cache, and few
/// enough to stay in the cache beside it. tensor_reduce cuts ranges by it.
pub const BAND_COLUMNS: usize = 32;

/// The number of columns that are packed together if the first operand is packed again for each
/// band. A result of at most this many columns is taken so: storing the panels would take longer
/// than packing them again. tensor_reduce cuts ranges by it.
pub const WIDE_BAND_COLUMNS: usize = 128;

/// The number of columns that are packed together if chunks are taken two by two. With this many,
/// packing the factors of both operands takes little time beside their products.
const PAIRED_BAND_COLUMNS: usize = 512;

/// How the operands are packed: the height of the first operand's panels, and whether all numbers
/// of both fit 32 bits.
#[derive(Clone, Copy, Drop)]
pub(crate) struct Packing {
    height: Height,
    small: bool,
}

/// Two operands whose rows have equally many values. Their products are taken chunk by chunk, or
/// two chunks at once. The first operand's panels are packed beforehand, unless there are few
/// columns or chunks are taken two by two. All else is packed band by band while values are
/// written.
#[derive(Drop)]
pub struct Tiled<'a> {
    alloc: Global,
    first: Rows<'a>,
    second: Rows<'a>,
    packing: Packing,
    /// The number of chunks.
    chunks: usize,
    /// The first operand's panels, one for each chunk that is packed beforehand. Empty if none is.
    packed: Vec<Panels>,
    /// The number of times that two chunks are taken at once, from the first chunk on.
    pairs: usize,
    /// The number of rows of the first operand, which is the length of a column of the result.
    rows: usize,
    ghost lengths: { row_length first ≡ row_length second },
    ghost same: { rows ≡ row_count first },
    ghost fit_first: { IsTrue packing.small → AreSmall (cow_slice_items first.values) },
    ghost fit: { IsTrue packing.small → AreSmall (cow_slice_items second.values) },
    ghost some: { 0 < chunks },
    ghost few: { chunks ≤ row_length first + 1 },
    ghost all: { row_length first ≤ chunks * 128 },
    ghost paired: { pairs * 256 ≤ row_length first },
    ghost each: { AreChunks packing first packed.items } by { AreChunks-prop packing first packed.items },
}

impl<'a> Tiled<'a> {
    ghost use Rattle.tensor_shape.specs.Wrap.{wrap};
    ghost use Rattle.tensor_kernels.specs.Chunks.{before};
    ghost use Rattle.tensor_kernels.specs.Tiling.{tiled_count, tiled_value, chunk_total, pairs_total};

    /// Returns the contraction of two operands, with the first packed if that saves time.
    pub(crate) fn of(
        alloc: Global,
        first: Rows<'a>,
        second: Rows<'a>,
    ) -> Result<Tiled<'a>, AllocError>
        requires lengths { row_length first ≡ row_length second }
        ensures count { IfOk result (λ t. tiled_count t
            ≡ row_count second.entry * row_count first.entry) }
        ensures each { IfOk result (λ t. (p : ℕ)
            → p < row_count second.entry * row_count first.entry
            → tiled_value t p ≡ dot_at first.entry second.entry p) }
    {
        let small = are_small(first.values.as_slice()) && are_small(second.values.as_slice());
        let rows = first.starts.len();
        let height = Height::for_rows(rows);
        let packing = Packing { height, small };
        let chunks = chunk_count(first.offsets.len());
        let pairs = if small {
            0
        } else {
            pairs_of(rows, second.starts.len(), first.offsets.len())
        };
        let stored = if pairs > 0 || second.starts.len() <= WIDE_BAND_COLUMNS {
            0
        } else {
            chunks
        };
        let packed = panels_of(alloc, &first, packing, stored)?;
        Ok(Tiled {
            alloc,
            first,
            second,
            packing,
            chunks,
            packed,
            pairs,
            rows,
        })
    }

    /// Writes the values of the places from `first` on. Takes room for a band of columns, and for a
    /// chunk of the first operand if it isn't packed.
    pub(crate) fn fill(&self, first: usize, out: &mut [i64]) -> Result<(), AllocError>
        requires { first + length out.old ≤ tiled_count self.now }
        ensures len { length out.new ≡ length out.old }
        ensures each { OnOk result ((k : ℕ) → k < length out.old
            → value_in out.new k ≡ tiled_value self.now (first + k)) }
    {
        let last = first + out.len();
        let mut place = first;
        while place < last {
            let count = (self.band() * self.rows - place % self.rows).min(last - place);
            let part = &mut out[place - first..place - first + count];
            self.fill_band(place, part)?;
            place += count;
        }
        Ok(())
    }

    /// Returns the number of columns of a band.
    fn band(&self) -> usize
        ensures some { 0 < result }
        ensures few { result ≤ 512 }
    {
        if self.pairs > 0 {
            PAIRED_BAND_COLUMNS
        } else if self.packed.is_empty() {
            WIDE_BAND_COLUMNS
        } else {
            BAND_COLUMNS
        }
    }

    /// Writes values of one band, from `place` of the result on.
    fn fill_band(&self, place: usize, out: &mut [i64]) -> Result<(), AllocError>
        requires some { 0 < length out.old }
        requires inside { place % self.now.rows + length out.old ≤ 512 * self.now.rows }
        requires within { place + length out.old ≤ tiled_count self.now }
        ensures len { length out.new ≡ length out.old }
        ensures each { OnOk result ((k : ℕ) → k < length out.old
            → value_in out.new k ≡ tiled_value self.now (place + k)) }
    {
        self.fill_pairs(place, out)?;
        for c in 2 * self.pairs..self.chunks {
            self.add_chunk(c, place, out)?;
        }
        Ok(())
    }

    /// Writes the sums of the chunks that are taken two by two.
    fn fill_pairs(&self, place: usize, out: &mut [i64]) -> Result<(), AllocError>
        requires some { 0 < length out.old }
        requires inside { place % self.now.rows + length out.old ≤ 512 * self.now.rows }
        requires within { place + length out.old ≤ tiled_count self.now }
        ensures len { length out.new ≡ length out.old }
        ensures each { OnOk result ((k : ℕ) → k < length out.old
            → before self.now.pairs (value_in out.new k)
            ≡ wrap (pairs_total self.now (place + k))) }
    {
        for group in 0..groups_of(self.pairs) {
            self.add_group(group, place, out)?;
        }
        Ok(())
    }

    /// Adds the sums of chunk `c`, packing the first operand's panels if they aren't packed
    /// already. Chunk 0 overwrites what stands in `out`.
    fn add_chunk(&self, c: usize, place: usize, out: &mut [i64]) -> Result<(), AllocError>
        requires chunk { c < self.now.chunks }
        requires some { 0 < length out.old }
        requires inside { place % self.now.rows + length out.old ≤ 512 * self.now.rows }
        requires within { place + length out.old ≤ tiled_count self.now }
        ensures len { length out.new ≡ length out.old }
        ensures each { OnOk result ((k : ℕ) → k < length out.old → value_in out.new k
            ≡ wrap (before c (value_in out.old k) +ℤ chunk_total self.now c (place + k))) }
    {
        if c < self.packed.len() {
            return self.put_chunk(c, &self.packed[c], place, out);
        }
        let panels = panels_at(self.alloc, &self.first, self.packing, c)?;
        self.put_chunk(c, &panels, place, out)
    }

    /// Adds the sums of chunk `c`, given the first operand's panels. Chunk 0 overwrites what stands
    /// in `out`.
    fn put_chunk(
        &self,
        c: usize,
        first: &Panels,
        place: usize,
        out: &mut [i64],
    ) -> Result<(), AllocError>
        requires panels { IsChunk self.now.packing self.now.first c first.now }
        requires chunk { c < self.now.chunks }
        requires some { 0 < length out.old }
        requires inside { place % self.now.rows + length out.old ≤ 512 * self.now.rows }
        requires within { place + length out.old ≤ tiled_count self.now }
        ensures len { length out.new ≡ length out.old }
        ensures each { OnOk result ((k : ℕ) → k < length out.old → value_in out.new k
            ≡ wrap (before c (value_in out.old k) +ℤ chunk_total self.now c (place + k))) }
    {
        let (column, from) = (place / self.rows, place % self.rows);
        let columns = (from + out.len()).div_ceil(self.rows);
        let part = RowsPart {
            values: self.second.values.as_slice(),
            starts: &self.second.starts.as_slice()[column..column + columns],
            offsets: chunk_of(&self.second.offsets, c),
        };
        let band = Panels::of(self.alloc, self.packing.small, &part, 1)?;
        let chunk = PackedChunk {
            number: c,
            products: part.offsets.len(),
            rows: self.rows,
            columns,
            height: self.packing.height,
            small: self.packing.small,
            first,
            second: &band,
        };
        chunk.put(from, out);
        Ok(())
    }
}

/// Returns the first operand's panels of the first `count` chunks.
fn panels_of(
    alloc: Global,
    rows: &Rows<'_>,
    packing: Packing,
    count: usize,
) -> Result<Vec<Panels>, AllocError>
    requires small { IsTrue packing.small → AreSmall (cow_slice_items rows.now.values) }
    requires few { count ≤ row_length rows.now + 1 }
    ensures count { IfOk result (λ chunks. length chunks.items ≡ count) }
    ensures chunks { IfOk result (λ chunks. AreChunks packing rows.now chunks.items) }
{
    let mut chunks = Vec::with_capacity(alloc, count)?;
    for c in 0..count {
        chunks.push_reserved(panels_at(alloc, rows, packing, c)?);
    }
    Ok(chunks)
}

/// Returns the first operand's panels of chunk `c`.
fn panels_at(
    alloc: Global,
    rows: &Rows<'_>,
    packing: Packing,
    c: usize,
) -> Result<Panels, AllocError>
    requires small { IsTrue packing.small → AreSmall (cow_slice_items rows.now.values) }
    requires few { c ≤ row_length rows.now }
    ensures { IfOk result (IsChunk packing rows.now c) }
{
    let part = RowsPart {
        values: rows.values.as_slice(),
        starts: rows.starts.as_slice(),
        offsets: chunk_of(&rows.offsets, c),
    };
    Panels::of(alloc, packing.small, &part, packing.height.rows())
}
