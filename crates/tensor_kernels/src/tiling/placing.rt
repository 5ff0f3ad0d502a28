//! Where the sums of a tile stand in a band, and how they are written there. The chunks and the
//! blocks of `strassen` write by this; specs/private/Tiles defines which places are a tile's.

ghost use Rattle.std.specs.Prelude.{◌≡◌, ℕ, ◌*◌, ◌+◌, ◌/◌, ◌%◌, ◌<◌, ◌≤◌, ◌^◌, ◌+ℤ◌, length};
ghost use Rattle.std.specs.Prelude.{IsFalse, IsTrue};
ghost use Rattle.tensor_shape.specs.Wrap.{wrap};
ghost use Rattle.tensor_kernels.specs.private.Cells.{height_of};
ghost use Rattle.tensor_kernels.specs.Chunks.{before};
ghost use Rattle.tensor_values.specs.Values.{value_in};

use crate::panels::height::Height;

/// The rows of one panel in one column of a band, whose columns have `rows` places each.
#[derive(Clone, Copy, Drop)]
pub(crate) struct Tile {
    pub(crate) rows: usize,
    pub(crate) height: Height,
    pub(crate) panel: usize,
    pub(crate) column: usize,
    ghost some: { panel * height_of height < rows },
    ghost few: { column * rows + rows < 2 ^ 40 },
}

impl Tile {
    ghost use Rattle.tensor_kernels.specs.private.Tiles.{IsAmong, IsPut, start_of, end_of};

    /// Returns the place in the band at which the tile begins.
    fn start(self) -> usize
        ensures { result ≡ start_of self }
    {
        self.column * self.rows + self.panel * self.height.rows()
    }

    /// Returns the place in the band at which the tile ends: after the panel, or with the column.
    fn end(self) -> usize
        ensures { result ≡ end_of self }
    {
        let height = self.height.rows();
        self.start() + height.min(self.rows - self.panel * height)
    }

    /// Returns whether the tile has a place in `[from, from + count)`.
    pub(crate) fn meets(self, from: usize, count: usize) -> bool
        requires { from + count < 2 ^ 40 }
        ensures met { IsTrue result → (k : ℕ) × (k < count) × IsAmong self (from + k) }
        ensures apart { IsFalse result → (k : ℕ) → k < count → IsAmong self (from + k) → ⊥ }
    {
        self.start().max(from) < self.end().min(from + count)
    }

    /// Adds the sums of chunk `c` at the tile's places in `out`, whose first place is place `from`
    /// of the band. Chunk 0 overwrites. Other places stay as they are.
    pub(crate) fn put(self, c: usize, sums: &[i64; 16], from: usize, out: &mut [i64])
        requires { from + length out.old < 2 ^ 40 }
        ensures len { length out.new ≡ length out.old }
        ensures each { (k : ℕ) → k < length out.old
            → IsPut self c sums.now (from + k) (value_in out.old k) (value_in out.new k) }
    {
        let start = self.start();
        let first = start.max(from);
        let last = self.end().min(from + out.len());
        if first < last {
            let part = &mut out[first - from..last - from];
            add_run(c, &sums[first - start..], part);
        }
    }
}

/// Adds the sums of chunk `c`. Chunk 0 overwrites what stands in `out`.
pub(crate) fn add_run(c: usize, sums: &[i64], out: &mut [i64])
    requires { length out.old ≤ length sums.now }
    ensures len { length out.new ≡ length out.old }
    ensures each { (k : ℕ) → k < length out.old → value_in out.new k
        ≡ wrap (before c (value_in out.old k) +ℤ value_in sums.now k) }
{
    for k in 0..out.len() {
        out[k] = with_sum(c, out[k], sums[k]);
    }
}

/// Returns a chunk's sum plus the sum of the earlier chunks. Chunk 0 has no earlier ones.
#[inline(always)]
fn with_sum(c: usize, there: i64, sum: i64) -> i64
    ensures { result ≡ wrap (before c there +ℤ sum) }
{
    if c == 0 { sum } else { there.wrapping_add(sum) }
}
