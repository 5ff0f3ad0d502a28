//! Two chunks of a contraction's products at once: seven products of halves of the rows and of a
//! band's columns give the sums of eight (Strassen, Gaussian elimination is not optimal, 1969).
//! Numbers that wrap are a ring, so each sum is the same to the last bit. specs/private/Strassen
//! defines the products, specs/private/PairedBands the sums.
//!
//! ```text
//! 32 rows of the first operand,
//!   two chunks, packed   ─> four quarters ─> seven factors ─┐
//!                                                           ├─> seven products ─> a block
//! a band of columns,     ─> four quarters ─> seven factors ─┘   of 16 rows and
//!   once for all rows                                           half the band, of
//!                                                               some pairs of chunks
//! ```

pub(crate) mod block;
pub(crate) mod factors;
pub(crate) mod half;
pub(crate) mod products;
pub(crate) mod quarters;

ghost use Rattle.std.specs.Prelude.{◌≡◌, ℕ, ◌*◌, ◌+◌, ◌+ℤ◌, ◌%◌, ◌<◌, ◌≤◌, length};
ghost use Rattle.std.specs.Prelude.{IfOk, OnOk};
ghost use Rattle.std.specs.Int.{div_ceil};
ghost use Rattle.tensor_dots.specs.Rows.{row_count, row_length};
ghost use Rattle.tensor_values.specs.Values.{value_in};

use crate::tiling::Tiled;
use crate::tiling::strassen::block::Block;
use crate::tiling::strassen::factors::Factors;
use crate::tiling::strassen::half::Half;
use crate::tiling::strassen::products::Products;
use crate::tiling::strassen::quarters::Quarters;
use std::alloc::{AllocError, Global};
use tensor_dots::RowsPart;

/// The fewest rows for which seven products of halves take less time than eight. With fewer rows,
/// the sums and differences of a band's columns take as long as the product that they save.
const PAIRED_ROWS: usize = 256;

/// The fewest columns for which two chunks are taken at once. A range should then have many
/// columns, since each range packs all of the first operand for itself. tensor_reduce cuts ranges
/// by it.
pub const PAIRED_COLUMNS: usize = 1024;

/// The number of products of two chunks.
const PAIR: usize = 256;

/// The number of pairs of chunks whose products are added up before the sums are written to the
/// result, whose columns lie far apart. The factors of a band's columns are held for all of these
/// pairs.
const GROUP: usize = 2;

/// Returns how often two chunks are taken at once, for a number of rows, columns and products. It
/// is 0 if there are too few rows or columns.
pub(crate) fn pairs_of(rows: usize, columns: usize, products: usize) -> usize
    ensures { result * 256 ≤ products }
{
    if rows < PAIRED_ROWS || columns < PAIRED_COLUMNS {
        0
    } else {
        products / PAIR
    }
}

/// Returns the number of groups for the given number of pairs of chunks.
pub(crate) fn groups_of(pairs: usize) -> usize
    ensures { result ≡ div_ceil pairs 2 }
{
    pairs.div_ceil(GROUP)
}

/// The columns of a band, packed for a group of pairs of chunks.
#[derive(Clone, Copy, Drop)]
pub(crate) struct Band<'a> {
    /// The group's number.
    group: usize,
    /// The place of the result that is written first.
    place: usize,
    columns: usize,
    /// The number of columns in the first half of the band.
    half: usize,
    /// The factors of the columns, for each pair of the group.
    factors: &'a [Factors],
}

impl Tiled<'_> {
    ghost use Rattle.tensor_shape.specs.Wrap.{wrap};
    ghost use Rattle.tensor_kernels.specs.Chunks.{before};
    ghost use Rattle.tensor_kernels.specs.private.PairedBands.{IsBand, IsOfColumns, AreOfColumns};
    ghost use Rattle.tensor_kernels.specs.private.PairedBands.{AreGathered, IsAdded};
    ghost use Rattle.tensor_kernels.specs.private.Strassen.{AreLong};
    ghost use Rattle.tensor_kernels.specs.Tiling.{tiled_count, group_total};

    /// Adds the sums of a group of pairs of chunks. Group 0 overwrites what stands in `out`. Takes
    /// room for the factors of a band of columns and for a block of the rows.
    pub(crate) fn add_group(
        &self,
        group: usize,
        place: usize,
        out: &mut [i64],
    ) -> Result<(), AllocError>
        requires group { group * 2 < self.now.pairs }
        requires some { 0 < length out.old }
        requires inside { place % self.now.rows + length out.old ≤ 512 * self.now.rows }
        requires within { place + length out.old ≤ tiled_count self.now }
        ensures len { length out.new ≡ length out.old }
        ensures each { OnOk result ((k : ℕ) → k < length out.old → value_in out.new k
            ≡ wrap (before group (value_in out.old k) +ℤ group_total self.now group (place + k))) }
    {
        let column = place / self.rows;
        let columns = (place % self.rows + out.len()).div_ceil(self.rows);
        let first = group * GROUP;
        let count = GROUP.min(self.pairs - first);
        let factors = self.factors_of(first, count, column, columns)?;
        let band = Band {
            group,
            place,
            columns,
            half: columns.div_ceil(2),
            factors: &factors,
        };
        self.add_blocks(&band, out)
    }

    /// Returns the factors of `columns` columns from `column` on, for each of `count` pairs of
    /// chunks from `first` on.
    fn factors_of(
        &self,
        first: usize,
        count: usize,
        column: usize,
        columns: usize,
    ) -> Result<Vec<Factors>, AllocError>
        requires some { 0 < columns }
        requires few { columns ≤ 512 }
        requires there { column + columns ≤ row_count self.now.second }
        requires whole { (first + count) * 256 ≤ row_length self.now.first }
        ensures count { IfOk result (λ factors. length factors.items ≡ count) }
        ensures each { IfOk result (λ factors.
            AreOfColumns self.now column columns first factors.items) }
    {
        let mut factors = Vec::with_capacity(self.alloc, count)?;
        for i in 0..count {
            factors.push_reserved(self.factors_at(first + i, column, columns)?);
        }
        Ok(factors)
    }

    /// Returns the factors of `columns` columns from `column` on, for one pair of chunks.
    fn factors_at(&self, pair: usize, column: usize, columns: usize) -> Result<Factors, AllocError>
        requires some { 0 < columns }
        requires few { columns ≤ 512 }
        requires there { column + columns ≤ row_count self.now.second }
        requires whole { (pair + 1) * 256 ≤ row_length self.now.first }
        ensures { IfOk result (IsOfColumns self.now column columns pair) }
    {
        let half = Half {
            panels: columns.div_ceil(2),
            height: 1,
        };
        let part = RowsPart {
            values: self.second.values.as_slice(),
            starts: &self.second.starts.as_slice()[column..column + columns],
            offsets: self.second.offsets.as_slice(),
        };
        let quarters = Quarters::of(self.alloc, half, &part, 2 * pair)?;
        let factors = Factors::of_second(self.alloc, &quarters)?;
        Ok(factors)
    }

    /// Adds the sums of a band, block by block of the rows.
    fn add_blocks(&self, band: &Band<'_>, out: &mut [i64]) -> Result<(), AllocError>
        requires band { IsBand self.now band.now }
        requires inside { band.now.place % self.now.rows + length out.old
            ≤ band.now.columns * self.now.rows }
        ensures len { length out.new ≡ length out.old }
        ensures each { OnOk result ((k : ℕ) → k < length out.old → value_in out.new k
            ≡ wrap (before band.now.group (value_in out.old k)
            +ℤ group_total self.now band.now.group (band.now.place + k))) }
    {
        let mut products = Products::of(self.alloc, band.half)?;
        for b in 0..self.rows.div_ceil(32) {
            self.add_block(b, band, &mut products, out)?;
        }
        Ok(())
    }

    /// Adds the sums of block `b` of the rows. Other places stay as they are. What `products` holds
    /// before doesn't matter.
    fn add_block(
        &self,
        b: usize,
        band: &Band<'_>,
        products: &mut Products,
        out: &mut [i64],
    ) -> Result<(), AllocError>
        requires band { IsBand self.now band.now }
        requires block { b * 32 < self.now.rows }
        requires long { AreLong (16 * band.now.half) products.old }
        requires inside { band.now.place % self.now.rows + length out.old
            ≤ band.now.columns * self.now.rows }
        ensures long { AreLong (16 * band.now.half) products.new }
        ensures len { length out.new ≡ length out.old }
        ensures each { OnOk result ((k : ℕ) → k < length out.old
            → IsAdded self.now band.now b k (value_in out.old k) (value_in out.new k)) }
    {
        self.gather(b, band, products)?;
        let block = Block {
            number: band.group,
            rows: self.rows,
            columns: band.columns,
            half: band.half,
            block: b,
            products,
        };
        block.put(band.place % self.rows, out);
        Ok(())
    }

    /// Adds up the products of block `b` of the rows over the pairs of the band's group.
    fn gather(&self, b: usize, band: &Band<'_>, products: &mut Products) -> Result<(), AllocError>
        requires band { IsBand self.now band.now }
        requires block { b * 32 < self.now.rows }
        requires long { AreLong (16 * band.now.half) products.old }
        ensures long { AreLong (16 * band.now.half) products.new }
        ensures each { OnOk result
            (AreGathered self.now band.now b (length band.now.factors.now) products.new) }
    {
        for i in 0..band.factors.len() {
            self.add_products(i, b, band, products)?;
        }
        Ok(())
    }

    /// Adds the products of pair `i` of the group to the sums of the earlier pairs. Pair 0
    /// overwrites the sums.
    fn add_products(
        &self,
        i: usize,
        b: usize,
        band: &Band<'_>,
        products: &mut Products,
    ) -> Result<(), AllocError>
        requires band { IsBand self.now band.now }
        requires block { b * 32 < self.now.rows }
        requires pair { i < length band.now.factors.now }
        requires long { AreLong (16 * band.now.half) products.old }
        requires so_far { AreGathered self.now band.now b i products.old }
        ensures long { AreLong (16 * band.now.half) products.new }
        ensures each { OnOk result (AreGathered self.now band.now b (i + 1) products.new) }
    {
        let part = RowsPart {
            values: self.first.values.as_slice(),
            starts: &self.first.starts.as_slice()[b * 32..(b * 32 + 32).min(self.rows)],
            offsets: self.first.offsets.as_slice(),
        };
        let half = Half {
            panels: 1,
            height: 16,
        };
        let chunk = 2 * (band.group * GROUP + i);
        let quarters = Quarters::of(self.alloc, half, &part, chunk)?;
        let factors = Factors::of_first(self.alloc, &quarters)?;
        products.add(i, &factors, &band.factors[i], band.half);
        Ok(())
    }
}
