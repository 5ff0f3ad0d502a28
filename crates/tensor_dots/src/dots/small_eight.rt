//! Sums of products of eight rows with one row, all of numbers that fit 32 bits. The eight rows
//! begin side by side. `row_sums` calls this.

ghost use Rattle.std.specs.Prelude.{◌≡◌, ℕ, ◌+◌, ◌<◌, length};
ghost use Rattle.tensor_dots.specs.Lanes.{AreLanes, AreSmall};
ghost use Rattle.tensor_values.specs.Values.{value_in};
ghost use Rattle.tensor_dots.specs.private.RowPairs.{HasRows, IsSmallPair, pair_dot};

use crate::dots::row_pair::RowPair;
use crate::lanes::small::{add_product, four_from, spread_from};
use std::simd::prelude::*;

/// Returns the sums of products of eight rows, from row `k` on, with the second row of a pair.
#[inline(never)]
pub(crate) fn small_eight(pair: &RowPair<'_>, k: usize) -> [i64; 8]
    requires small { IsSmallPair pair.now }
    requires rows { HasRows (k + 8) pair.now }
    ensures { (t : ℕ) → t < 8 → value_in result t ≡ pair_dot pair.now (k + t) }
{
    let (rows, row) = (pair.first, pair.second);
    let mut low = i64x4::splat(0);
    let mut high = i64x4::splat(0);
    for q in 0..rows.offsets.len() {
        let i = rows.start + rows.offsets[q] + k;
        let factor = spread_from(row.values, row.start + row.offsets[q]);
        low = add_product(low, four_from(rows.values, i), factor);
        high = add_product(high, four_from(rows.values, i + 4), factor);
    }
    joined(low, high)
}

/// Returns the lanes of two vectors, one after the other.
#[inline(always)]
fn joined(low: i64x4, high: i64x4) -> [i64; 8]
    requires low { AreLanes low }
    requires high { AreLanes high }
    ensures low { (r : ℕ) → r < 4 → value_in result r ≡ value_in low r }
    ensures high { (r : ℕ) → r < 4 → value_in result (4 + r) ≡ value_in high r }
{
    let (low, high) = (low.to_array(), high.to_array());
    let mut joined = [0i64; 8];
    for r in 0..4 {
        joined[r] = low[r];
        joined[4 + r] = high[r];
    }
    joined
}
