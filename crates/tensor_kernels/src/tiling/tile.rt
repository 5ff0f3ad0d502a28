//! Tiles: for each row of a panel, the sum of its products with one column. `packed_chunk` calls
//! this; here the function for the panel's height is chosen.

ghost use Rattle.std.specs.Prelude.{◌≡◌, ℕ, ◌*◌, ◌+◌, ◌/◌, ◌≤◌, ◌<◌, length};
ghost use Rattle.tensor_shape.specs.Wrap.{wrap};
ghost use Rattle.tensor_kernels.specs.private.Cells.{height_of};
ghost use Rattle.tensor_kernels.specs.private.Pairs.{own_pairs, lane};
ghost use Rattle.tensor_dots.specs.Lanes.{AreSmall};
ghost use Rattle.tensor_dots.specs.Products.{dot};
ghost use Rattle.tensor_values.specs.Values.{value_in};

use crate::panels::height::Height;
use crate::tiling::pairs::{Panel, pairs_of_four, pairs_of_sixteen};
use crate::tiling::small::{small_four, small_sixteen};
use tensor_dots::lanes::mul_add;

/// Returns for each row of a panel the sum of its `n` products with a column, all of numbers that
/// fit 32 bits. Numbers past the height mean nothing.
pub(crate) fn small_tile(height: Height, a: &[i64], b: &[i64], n: usize) -> [i64; 16]
    requires small_a { AreSmall a.now }
    requires small_b { AreSmall b.now }
    requires a { n * height_of height ≤ length a.now }
    requires b { n ≤ length b.now }
    ensures len { length result ≡ 16 }
    ensures each { (t : ℕ) → t < height_of height
        → value_in result t ≡ wrap (dot (lane (height_of height) a.now t) (value_in b.now) n) }
{
    match height {
        Height::Sixteen => small_sixteen(a, b, n),
        Height::Four => small_four(a, b, n),
    }
}

/// Returns for each row of a panel the sum of its `n` products with a column, given the sums of the
/// products of their pairs. Numbers past the height mean nothing.
pub(crate) fn wide_tile(height: Height, rows: Panel<'_>, column: Panel<'_>, n: usize) -> [i64; 16]
    requires a { n * height_of height ≤ length rows.cells.now }
    requires b { n ≤ length column.cells.now }
    requires sums_a { height_of height ≤ length rows.sums.now }
    requires sums_b { 0 < length column.sums.now }
    requires rows { (t : ℕ) → t < height_of height → value_in rows.sums.now t
        ≡ wrap (own_pairs (lane (height_of height) rows.cells.now t) (n / 2)) }
    requires column { value_in column.sums.now 0 ≡ wrap (own_pairs (value_in column.cells.now) (n / 2)) }
    ensures len { length result ≡ 16 }
    ensures each { (t : ℕ) → t < height_of height → value_in result t
        ≡ wrap (dot (lane (height_of height) rows.entry.cells.now t) (value_in column.entry.cells.now) n) }
{
    let sums = match height {
        Height::Sixteen => pairs_of_sixteen(rows, column, n / 2),
        Height::Four => pairs_of_four(rows, column, n / 2),
    };
    if n % 2 == 0 {
        sums
    } else {
        with_last(height, sums, rows.cells, column.cells, n - 1)
    }
}

/// Adds product `n` to each sum of `n` products.
fn with_last(height: Height, sums: [i64; 16], a: &[i64], b: &[i64], n: usize) -> [i64; 16]
    requires a { n * height_of height + height_of height ≤ length a.now }
    requires b { n < length b.now }
    requires sums { (t : ℕ) → t < height_of height
        → value_in sums t ≡ wrap (dot (lane (height_of height) a.now t) (value_in b.now) n) }
    ensures len { length result ≡ 16 }
    ensures each { (t : ℕ) → t < height_of height → value_in result t
        ≡ wrap (dot (lane (height_of height) a.now t) (value_in b.now) (n + 1)) }
{
    let rows = height.rows();
    let mut more = sums;
    for t in 0..rows {
        more[t] = mul_add(sums[t], a[rows * n + t], b[n]);
    }
    more
}
