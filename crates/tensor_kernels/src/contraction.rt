//! `Contraction`: a contraction or convolution that returns its values by ranges of places. Here
//! the way is chosen that suits the number of rows. Its values are defined in specs/Contracting.

ghost use Rattle.std.specs.Prelude.{◌≡◌, ◌<◌, ◌≤◌, ◌+◌, ◌*◌, ◌-◌, ℕ, length, map, IfOk, OnOk};
ghost use Rattle.std.specs.List.{range_with_len};
ghost use Rattle.tensor_values.specs.Values.{value_in};
ghost use Rattle.tensor_dots.specs.Products.{rows_dot};
ghost use Rattle.tensor_dots.specs.Rows.{row_count, row_length, row_value, dot_at};
ghost use Rattle.tensor_dots.specs.Windows.{window_count, window_length, window_value};
ghost use Rattle.tensor_dots.specs.Strips.{strip_count, strip_length, strip_value};

use crate::tiling::Tiled;
use std::alloc::{AllocError, Allocator, Global};
use tensor_dots::{Dots, Rows, StripDots, Strips, WindowDots, Windows};

/// The fewest rows of the second operand for which tiles are used. With fewer rows, packing takes
/// longer than the sums do. tensor_ops and tensor_reduce go by it too.
pub const TILED_ROWS: usize = 4;

/// A contraction made ready to be evaluated by ranges of places. All threads that evaluate ranges
/// share it.
pub enum Contraction<'a> {
    /// By tiles: one column and sixteen rows, or four.
    InTiles(Tiled<'a>),
    /// Row by row, for operands of which one has few rows.
    InDots(Dots<'a>),
    /// Value by value, for operands whose rows are slices and of which one has few rows.
    InStrips(StripDots<'a>),
    /// A convolution, run by run.
    InRuns(WindowDots<'a>),
}

// Written out, as a derived drop would be unfolded in each proof that drops a contraction.
impl Drop for Contraction<'_> {
    fn drop(self) {
        match self {
            Contraction::InTiles(_)
            | Contraction::InDots(_)
            | Contraction::InStrips(_)
            | Contraction::InRuns(_) => {}
        }
    }
}

impl<'a> Contraction<'a> {
    ghost use Rattle.tensor_kernels.specs.Contracting.{contraction_count, contraction_value};

    /// Returns the contraction of two operands, given as rows. If the first has more than one row
    /// and the second more than 128, the first is packed here. This takes a cell of 8 bytes for
    /// each value, with the rows rounded up to a multiple of sixteen or four. If not all values of
    /// both fit 32 bits, it also takes a number for each of these rows and each chunk of 128
    /// products. In that case nothing is packed here if the first has 256 rows or more, the second
    /// 1,024 or more, and each row 256 values or more.
    pub fn of_rows(
        alloc: Global,
        first: Rows<'a>,
        second: Rows<'a>,
    ) -> Result<Contraction<'a>, AllocError>
        requires lengths { row_length first ≡ row_length second }
        ensures count { IfOk result (λ c. contraction_count c
            ≡ row_count second.entry * row_count first.entry) }
        ensures each { IfOk result (λ c. (p : ℕ) → p < contraction_count c
            → contraction_value c p ≡ dot_at first.entry second.entry p) }
    {
        if second.starts.len() < TILED_ROWS {
            return Ok(Contraction::InDots(Dots::of(first, second)));
        }
        if first.starts.len() == 1 {
            return Ok(Contraction::InDots(Dots::of(second, first)));
        }
        Ok(Contraction::InTiles(Tiled::of(alloc, first, second)?))
    }

    /// Returns the contraction of two operands whose rows are slices.
    pub fn of_strips(first: Strips<'a>, second: Strips<'a>) -> Contraction<'a>
        requires { strip_length first ≡ strip_length second }
        ensures count { contraction_count result
            ≡ strip_count second.entry * strip_count first.entry }
        ensures value { (p : ℕ) → contraction_value result p
            ≡ rows_dot (strip_count first.entry) (strip_length first.entry)
            (strip_value first.entry) (strip_value second.entry) p }
    {
        Contraction::InStrips(StripDots::of(first, second))
    }

    /// Returns the convolution of an operand, given as runs, with a kernel of one row.
    pub fn of_runs(runs: Windows<'a>, kernel: Rows<'a>) -> Contraction<'a>
        requires one { row_count kernel ≡ 1 }
        requires lengths { window_length runs ≡ row_length kernel }
        ensures count { contraction_count result ≡ window_count runs.entry }
        ensures value { (p : ℕ) → contraction_value result p
            ≡ rows_dot (window_count runs.entry) (window_length runs.entry) (window_value runs.entry)
            (row_value kernel.entry) p }
    {
        Contraction::InRuns(WindowDots::of(runs, kernel))
    }

    /// Returns the values at the places `[first, last)` of the result, in order.
    ///
    /// If the contraction is in tiles, both operands are packed here, chunk by chunk of 128
    /// products, unless the first is packed already. A band is up to 32 rows of the second operand,
    /// or up to 128 together with all rows of the first. It takes a cell of 8 bytes for each of
    /// these rows and each product of a chunk, and if not all values fit 32 bits a number for each
    /// row. Large operands are taken by two chunks at once: up to 512 rows of the second, held for
    /// four chunks, and 32 rows of the first. This takes up to nine cells for each of these rows
    /// and each product of a chunk, and up to 28,672 for the sums.
    pub fn values<A: Allocator>(
        &self,
        alloc: A,
        first: usize,
        last: usize,
    ) -> Result<Vec<i64, A>, AllocError>
        requires order { first ≤ last }
        requires within { last ≤ contraction_count self.now }
        ensures { IfOk result (λ v. v.items
            ≡ map (contraction_value self.now) (range_with_len first (last - first))) }
    {
        let mut values = vec![in alloc; 0i64; last - first]?;
        self.fill(first, &mut values)?;
        Ok(values)
    }

    /// Writes the values of the places from `first` on, in order, as many as `out` has room for.
    /// Packs what [`Contraction::values`] packs. After an allocation failure `out` has any values.
    pub fn fill(&self, first: usize, out: &mut [i64]) -> Result<(), AllocError>
        requires { first + length out.old ≤ contraction_count self.now }
        ensures len { length out.new ≡ length out.old }
        ensures each { OnOk result ((k : ℕ) → k < length out.old
            → value_in out.new k ≡ contraction_value self.now (first + k)) }
    {
        match self {
            Contraction::InTiles(tiled) => tiled.fill(first, out)?,
            Contraction::InDots(dots) => dots.fill(first, out),
            Contraction::InStrips(dots) => dots.fill(first, out),
            Contraction::InRuns(dots) => dots.fill(first, out),
        }
        Ok(())
    }
}
