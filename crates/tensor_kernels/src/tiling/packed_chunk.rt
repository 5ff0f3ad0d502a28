//! A chunk of the products of a band of columns, with both operands packed. The sums are written
//! tile by tile. A panel of the first operand stays in the nearest cache while it is multiplied
//! with all columns of the band. specs/private/PackedChunks defines the sums.

ghost use Rattle.std.specs.Prelude.{◌≡◌, ℕ, ◌*◌, ◌+◌, ◌<◌, ◌≤◌, ◌+ℤ◌, length};
ghost use Rattle.tensor_shape.specs.Wrap.{wrap};
ghost use Rattle.tensor_kernels.specs.private.Cells.{height_of};
ghost use Rattle.tensor_kernels.specs.Chunks.{before};
ghost use Rattle.tensor_values.specs.Values.{value_in};

use crate::panels::Panels;
use crate::panels::height::Height;
use crate::tiling::pairs::Panel;
use crate::tiling::placing::Tile;
use crate::tiling::tile::{small_tile, wide_tile};

/// A chunk of the products of all rows of the result and the columns of a band.
#[derive(Drop)]
pub(crate) struct PackedChunk<'a> {
    /// The chunk's number. The sums of chunk 0 overwrite, the sums of later ones are added.
    pub(crate) number: usize,
    /// The number of products.
    pub(crate) products: usize,
    pub(crate) rows: usize,
    pub(crate) columns: usize,
    /// The height of the first operand's panels. A column is a panel of one row.
    pub(crate) height: Height,
    /// Whether all numbers of both operands fit 32 bits.
    pub(crate) small: bool,
    pub(crate) first: &'a Panels,
    pub(crate) second: &'a Panels,
}

impl PackedChunk<'_> {
    ghost use Rattle.tensor_kernels.specs.private.PackedChunks.{chunk_sum, tile_sum, IsPacked};
    ghost use Rattle.tensor_kernels.specs.private.PackedChunks.{IsPutInTile, IsPutInPanel};

    /// Adds the sums of the chunk to the places of the band from `from` on. Chunk 0 overwrites.
    pub(crate) fn put(&self, from: usize, out: &mut [i64])
        requires packed { IsPacked self.now }
        requires inside { from + length out.old ≤ self.now.columns * self.now.rows }
        ensures len { length out.new ≡ length out.old }
        ensures each { (k : ℕ) → k < length out.old → value_in out.new k
            ≡ wrap (before self.now.number (value_in out.old k) +ℤ chunk_sum self.now (from + k)) }
    {
        for s in 0..self.rows.div_ceil(self.height.rows()) {
            self.put_panel(s, from, out);
        }
    }

    /// Writes the sums of panel `s`, column by column. Other places stay as they are.
    fn put_panel(&self, s: usize, from: usize, out: &mut [i64])
        requires packed { IsPacked self.now }
        requires panel { s * height_of self.now.height < self.now.rows }
        requires inside { from + length out.old ≤ self.now.columns * self.now.rows }
        ensures len { length out.new ≡ length out.old }
        ensures each { (k : ℕ) → k < length out.old
            → IsPutInPanel self.now s (from + k) (value_in out.old k) (value_in out.new k) }
    {
        let first = from / self.rows;
        let last = (from + out.len()).div_ceil(self.rows);
        for j in first..last {
            self.put_tile(s, j, from, out);
        }
    }

    /// Writes the sums of panel `s` and column `j`. Other places stay as they are.
    fn put_tile(&self, s: usize, j: usize, from: usize, out: &mut [i64])
        requires packed { IsPacked self.now }
        requires panel { s * height_of self.now.height < self.now.rows }
        requires column { j < self.now.columns }
        requires inside { from + length out.old ≤ self.now.columns * self.now.rows }
        ensures len { length out.new ≡ length out.old }
        ensures each { (k : ℕ) → k < length out.old
            → IsPutInTile self.now s j (from + k) (value_in out.old k) (value_in out.new k) }
    {
        let tile = Tile {
            rows: self.rows,
            height: self.height,
            panel: s,
            column: j,
        };
        if tile.meets(from, out.len()) {
            tile.put(self.number, &self.tile(s, j), from, out);
        }
    }

    /// Returns the sum of products of each row of panel `s` with column `j`, modulo 2^64.
    pub(crate) fn tile(&self, s: usize, j: usize) -> [i64; 16]
        requires packed { IsPacked self.now }
        requires panel { s * height_of self.now.height < self.now.rows }
        requires column { j < self.now.columns }
        ensures len { length result ≡ 16 }
        ensures each { (t : ℕ) → t < height_of self.now.height → value_in result t
            ≡ wrap (tile_sum self.now (s * height_of self.now.height + t) j) }
    {
        let (n, rows) = (self.products, self.height.rows());
        let panel = &self.first.cells[s * (n * rows)..];
        let column = &self.second.cells[j * n..];
        if self.small {
            return small_tile(self.height, panel, column, n);
        }
        let panel = Panel {
            cells: panel,
            sums: &self.first.sums[s * rows..],
        };
        let column = Panel {
            cells: column,
            sums: &self.second.sums[j..],
        };
        wide_tile(self.height, panel, column, n)
    }
}
