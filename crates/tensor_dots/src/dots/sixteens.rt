//! Sums of products of sixteen rows with one row. The sixteen begin side by side, so each value of
//! the one row is loaded once for sixteen products. `row_sums` chooses between the two functions.

ghost use Rattle.std.specs.Prelude.{◌≡◌, ℕ, ◌+◌, ◌<◌};
ghost use Rattle.tensor_values.specs.Values.{value_in};
ghost use Rattle.tensor_dots.specs.private.RowPairs.{HasRows, IsSmallPair, pair_dot};

use crate::dots::row_pair::RowPair;
use crate::lanes::halves::{add_products, rows_from, spread};
use crate::lanes::small::{add_product, four_from, spread_from};
use crate::lanes::{halves, small};
use std::simd::prelude::*;

/// Returns the sums of products of sixteen rows, from row `k` on, with the second row of a pair.
/// The products are made by halves.
#[inline(never)]
pub(crate) fn wide_sixteen(pair: &RowPair<'_>, k: usize) -> [i64; 16]
    requires { HasRows (k + 16) pair.now }
    ensures { (t : ℕ) → t < 16 → value_in result t ≡ pair_dot pair.now (k + t) }
{
    let (rows, row) = (pair.first, pair.second);
    let (mut l0, mut c0) = (i64x4::splat(0), u32x8::splat(0));
    let (mut l1, mut c1) = (i64x4::splat(0), u32x8::splat(0));
    let (mut l2, mut c2) = (i64x4::splat(0), u32x8::splat(0));
    let (mut l3, mut c3) = (i64x4::splat(0), u32x8::splat(0));
    for q in 0..rows.offsets.len() {
        let i = rows.start + rows.offsets[q] + k;
        let factor = spread(row.values, row.start + row.offsets[q]);
        let first = add_products(l0, c0, rows_from(rows.values, i), factor);
        let second = add_products(l1, c1, rows_from(rows.values, i + 4), factor);
        let third = add_products(l2, c2, rows_from(rows.values, i + 8), factor);
        let fourth = add_products(l3, c3, rows_from(rows.values, i + 12), factor);
        (l0, c0) = first;
        (l1, c1) = second;
        (l2, c2) = third;
        (l3, c3) = fourth;
    }
    let mut sums = [0i64; 16];
    halves::store(&mut sums, 0, l0, c0);
    halves::store(&mut sums, 1, l1, c1);
    halves::store(&mut sums, 2, l2, c2);
    halves::store(&mut sums, 3, l3, c3);
    sums
}

/// Returns the sums of products of sixteen rows, from row `k` on, with the second row of a pair,
/// all of numbers that fit 32 bits.
#[inline(never)]
pub(crate) fn small_sixteen(pair: &RowPair<'_>, k: usize) -> [i64; 16]
    requires small { IsSmallPair pair.now }
    requires rows { HasRows (k + 16) pair.now }
    ensures { (t : ℕ) → t < 16 → value_in result t ≡ pair_dot pair.now (k + t) }
{
    let (rows, row) = (pair.first, pair.second);
    let mut c0 = i64x4::splat(0);
    let mut c1 = i64x4::splat(0);
    let mut c2 = i64x4::splat(0);
    let mut c3 = i64x4::splat(0);
    for q in 0..rows.offsets.len() {
        let i = rows.start + rows.offsets[q] + k;
        let factor = spread_from(row.values, row.start + row.offsets[q]);
        c0 = add_product(c0, four_from(rows.values, i), factor);
        c1 = add_product(c1, four_from(rows.values, i + 4), factor);
        c2 = add_product(c2, four_from(rows.values, i + 8), factor);
        c3 = add_product(c3, four_from(rows.values, i + 12), factor);
    }
    let mut sums = [0i64; 16];
    small::store(&mut sums, 0, c0);
    small::store(&mut sums, 1, c1);
    small::store(&mut sums, 2, c2);
    small::store(&mut sums, 3, c3);
    sums
}
