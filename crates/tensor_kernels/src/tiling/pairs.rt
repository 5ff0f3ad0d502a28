//! Tiles by products two by two: `(x0 + y1) * (x1 + y0)` is `x0 * y0 + x1 * y1` plus a product of
//! the row's own pair and one of the column's. So there are half as many products, and two sums
//! more for each. What a row and a column have by themselves is taken off before the first product,
//! so that it takes no pass of its own. Each load reads one value of four rows that lie side by
//! side. specs/private/Pairs defines the sums.

ghost use Rattle.std.specs.Prelude.{◌≡◌, ℕ, ◌*◌, ◌+◌, ◌/◌, ◌%◌, ◌≤◌, ◌<◌, ◌^◌, length, ◌+ℤ◌, ◌-ℤ◌};
ghost use Rattle.std.specs.Prelude.{◌*ℤ◌};
ghost use Rattle.tensor_values.specs.Values.{value_in};
ghost use Rattle.tensor_shape.specs.Wrap.{wrap};
ghost use Rattle.tensor_dots.specs.Halves.{AreWords, joined};
ghost use Rattle.tensor_kernels.specs.private.Pairs.{lane, own_pairs, without_own};
ghost use Rattle.tensor_dots.specs.Lanes.{AreLanes};
ghost use Rattle.tensor_dots.specs.Products.{dot};

use std::simd::prelude::*;
use tensor_dots::lanes::halves::{add_products, rows_from, spread, store};

/// A panel: its cells, and for each of its rows the sum of the products of the row's own pairs.
#[derive(Clone, Copy, Drop)]
pub(crate) struct Panel<'a> {
    pub(crate) cells: &'a [i64],
    pub(crate) sums: &'a [i64],
}

/// Returns the sums of two times four numbers, modulo 2^64.
#[inline(always)]
fn sums_of(x: i64x4, y: i64x4) -> i64x4
    requires x { AreLanes x }
    requires y { AreLanes y }
    ensures lanes { AreLanes result }
    ensures each { (r : ℕ) → r < 4 → value_in result r ≡ wrap (value_in x r +ℤ value_in y r) }
{
    x + y
}

/// Returns the differences of two times four numbers, modulo 2^64.
#[inline(always)]
fn differences_of(x: i64x4, y: i64x4) -> i64x4
    requires x { AreLanes x }
    requires y { AreLanes y }
    ensures lanes { AreLanes result }
    ensures each { (r : ℕ) → r < 4 → value_in result r ≡ wrap (value_in x r -ℤ value_in y r) }
{
    x - y
}

/// Returns the value that each of four sums starts from: 0 less the row's own products, from row
/// `i` on, and less the column's own products.
#[inline(always)]
fn without_own(rows: &[i64], i: usize, column: &[i64]) -> i64x4
    requires rows { i + 4 ≤ length rows.now }
    requires column { 0 < length column.now }
    ensures lanes { AreLanes result }
    ensures each { (r : ℕ) → r < 4 → value_in result r
        ≡ wrap (without_own rows.now column.now (i + r)) }
{
    let less = differences_of(i64x4::splat(0), rows_from(rows, i));
    differences_of(less, spread(column, 0))
}

/// Adds the product of a pair to each of four sums that are held by halves.
#[inline(always)]
fn add_pair(low: i64x4, crossed: u32x8, x: i64x4, y: i64x4, b: &[i64], i: usize) -> (i64x4, u32x8)
    requires low { AreLanes low }
    requires crossed { AreWords crossed }
    requires x { AreLanes x }
    requires y { AreLanes y }
    requires inside { i + 1 < length b.now }
    ensures low { AreLanes result.0 }
    ensures crossed { AreWords result.1 }
    ensures each { (r : ℕ) → r < 4 → joined result.0 result.1 r ≡ wrap (joined low crossed r
        +ℤ ((value_in x r +ℤ value_in b.now (i + 1)) *ℤ (value_in y r +ℤ value_in b.now i))) }
{
    let first = sums_of(x, spread(b, i + 1));
    let second = sums_of(y, spread(b, i));
    add_products(low, crossed, first, second)
}

/// Returns for each of sixteen rows the sum of its products with a column, over `n` pairs.
#[inline(never)]
pub(crate) fn pairs_of_sixteen(rows: Panel<'_>, column: Panel<'_>, n: usize) -> [i64; 16]
    requires a { n * 32 ≤ length rows.cells.now }
    requires b { n * 2 ≤ length column.cells.now }
    requires sums_a { 16 ≤ length rows.sums.now }
    requires sums_b { 0 < length column.sums.now }
    requires rows { (t : ℕ) → t < 16 → value_in rows.sums.now t
        ≡ wrap (own_pairs (lane 16 rows.cells.now t) n) }
    requires column { value_in column.sums.now 0 ≡ wrap (own_pairs (value_in column.cells.now) n) }
    ensures len { length result ≡ 16 }
    ensures each { (t : ℕ) → t < 16 → value_in result t
        ≡ wrap (dot (lane 16 rows.entry.cells.now t) (value_in column.entry.cells.now) (n * 2)) }
{
    let (a, b) = (rows.cells, column.cells);
    let (mut l0, mut c0) = (without_own(rows.sums, 0, column.sums), u32x8::splat(0));
    let (mut l1, mut c1) = (without_own(rows.sums, 4, column.sums), u32x8::splat(0));
    let (mut l2, mut c2) = (without_own(rows.sums, 8, column.sums), u32x8::splat(0));
    let (mut l3, mut c3) = (without_own(rows.sums, 12, column.sums), u32x8::splat(0));
    for q in 0..n {
        let (i, k) = (32 * q, 2 * q);
        let first = add_pair(l0, c0, rows_from(a, i), rows_from(a, i + 16), b, k);
        let second = add_pair(l1, c1, rows_from(a, i + 4), rows_from(a, i + 20), b, k);
        let third = add_pair(l2, c2, rows_from(a, i + 8), rows_from(a, i + 24), b, k);
        let fourth = add_pair(l3, c3, rows_from(a, i + 12), rows_from(a, i + 28), b, k);
        (l0, c0) = first;
        (l1, c1) = second;
        (l2, c2) = third;
        (l3, c3) = fourth;
    }
    let mut sums = [0i64; 16];
    store(&mut sums, 0, l0, c0);
    store(&mut sums, 1, l1, c1);
    store(&mut sums, 2, l2, c2);
    store(&mut sums, 3, l3, c3);
    sums
}

/// Returns for each of four rows the sum of its products with a column, over `n` pairs. The other
/// twelve numbers mean nothing.
#[inline(never)]
pub(crate) fn pairs_of_four(rows: Panel<'_>, column: Panel<'_>, n: usize) -> [i64; 16]
    requires a { n * 8 ≤ length rows.cells.now }
    requires b { n * 2 ≤ length column.cells.now }
    requires sums_a { 4 ≤ length rows.sums.now }
    requires sums_b { 0 < length column.sums.now }
    requires rows { (t : ℕ) → t < 4 → value_in rows.sums.now t
        ≡ wrap (own_pairs (lane 4 rows.cells.now t) n) }
    requires column { value_in column.sums.now 0 ≡ wrap (own_pairs (value_in column.cells.now) n) }
    ensures len { length result ≡ 16 }
    ensures each { (t : ℕ) → t < 4 → value_in result t
        ≡ wrap (dot (lane 4 rows.entry.cells.now t) (value_in column.entry.cells.now) (n * 2)) }
{
    let (a, b) = (rows.cells, column.cells);
    let mut low = without_own(rows.sums, 0, column.sums);
    let mut words = u32x8::splat(0);
    for q in 0..n {
        let (x, y) = (rows_from(a, 8 * q), rows_from(a, 8 * q + 4));
        (low, words) = add_pair(low, words, x, y, b, 2 * q);
    }
    let mut sums = [0i64; 16];
    store(&mut sums, 0, low, words);
    sums
}
