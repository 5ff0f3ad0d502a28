//! Sums of products of many rows with one row. Rows that begin side by side are summed sixteen or
//! eight at a time. `Dots` and `WindowDots` go by these; specs/private/RowPairs defines the sums.

ghost use Rattle.std.specs.Prelude.{◌≡◌, ℕ, ◌+◌, ◌-◌, ◌<◌, ◌≤◌, length, slice_index, IsTrue};
ghost use Rattle.tensor_values.specs.Values.{value_in};
ghost use Rattle.tensor_dots.specs.private.RowPairs.{HasRows, IsSmallPair, pair_dot, row_dot};

use crate::dots::row_pair::{Row, RowPair};
use crate::dots::sixteens::{small_sixteen, wide_sixteen};
use crate::dots::small_eight::small_eight;
use crate::dots::wide_eight::wide_eight;
use crate::lanes::mul_add;
use crate::rows::part::RowsPart;
use crate::rows::starts::side_by_side;

/// Writes the sum of products of each of the rows with one row.
pub(crate) fn row_sums<'a>(rows: &RowsPart<'a>, row: &Row<'a>, out: &mut [i64])
    requires lengths { length rows.now.offsets.now ≡ length row.now.offsets.now }
    requires inside { (q : ℕ) → q < length row.now.offsets.now
        → row.now.start + slice_index row.now.offsets.now q < length row.now.values.now }
    requires out { length out.old ≡ length rows.now.starts.now }
    ensures len { length out.new ≡ length out.old }
    ensures each { (k : ℕ) → k < length out.old → value_in out.new k ≡ row_dot rows.now row.now k }
{
    let mut k = 0;
    while k < rows.starts.len() {
        let count = side_by_side(rows.starts, k);
        let first = Row {
            values: rows.values,
            start: rows.starts[k],
            offsets: rows.offsets,
        };
        let pair = RowPair {
            first,
            second: *row,
        };
        sums_of_run(&pair, false, &mut out[k..k + count]);
        k += count;
    }
}

/// Writes the sums of products of the rows that begin side by side with the first row of a pair:
/// sixteen rows at a time, then eight, then one by one. `small` says that all values of both lists
/// fit 32 bits, and makes it faster; `false` is always right.
pub(crate) fn sums_of_run(pair: &RowPair<'_>, small: bool, out: &mut [i64])
    requires small { IsTrue small → IsSmallPair pair.now }
    requires rows { HasRows (length out.old) pair.now }
    ensures len { length out.new ≡ length out.old }
    ensures each { (k : ℕ) → k < length out.old → value_in out.new k ≡ pair_dot pair.now k }
{
    let together = fill_together(pair, small, out);
    for k in together..out.len() {
        out[k] = sum_of_products(pair, k);
    }
}

/// Writes the sums of the first rows, sixteen or eight at a time, and returns how many it wrote.
/// Fewer than eight rows are left.
fn fill_together(pair: &RowPair<'_>, small: bool, out: &mut [i64]) -> usize
    requires small { IsTrue small → IsSmallPair pair.now }
    requires rows { HasRows (length out.old) pair.now }
    ensures few { result ≤ length out.old }
    ensures len { length out.new ≡ length out.old }
    ensures each { (k : ℕ) → k < result → value_in out.new k ≡ pair_dot pair.now k }
{
    let mut k = 0;
    while 8 <= out.len() - k {
        if 16 <= out.len() - k {
            store(out, k, &sixteen(pair, k, small));
            k += 16;
        } else {
            store(out, k, &eight(pair, k, small));
            k += 8;
        }
    }
    k
}

/// Returns the sums of sixteen rows, from row `k` on.
#[inline(always)]
fn sixteen(pair: &RowPair<'_>, k: usize, small: bool) -> [i64; 16]
    requires small { IsTrue small → IsSmallPair pair.now }
    requires rows { HasRows (k + 16) pair.now }
    ensures len { length result ≡ 16 }
    ensures each { (t : ℕ) → t < 16 → value_in result t ≡ pair_dot pair.now (k + t) }
{
    if small {
        small_sixteen(pair, k)
    } else {
        wide_sixteen(pair, k)
    }
}

/// Returns the sums of eight rows, from row `k` on.
#[inline(always)]
fn eight(pair: &RowPair<'_>, k: usize, small: bool) -> [i64; 8]
    requires small { IsTrue small → IsSmallPair pair.now }
    requires rows { HasRows (k + 8) pair.now }
    ensures len { length result ≡ 8 }
    ensures each { (t : ℕ) → t < 8 → value_in result t ≡ pair_dot pair.now (k + t) }
{
    if small {
        small_eight(pair, k)
    } else {
        wide_eight(pair, k)
    }
}

/// Stores sums from place `k` on. Earlier values stay as they are.
#[inline(always)]
fn store(out: &mut [i64], k: usize, sums: &[i64])
    requires { k + length sums.now ≤ length out.old }
    ensures len { length out.new ≡ length out.old }
    ensures stored { (t : ℕ) → t < length sums.now → value_in out.new (k + t) ≡ value_in sums.now t }
    ensures kept { (j : ℕ) → j < k → value_in out.new j ≡ value_in out.old j }
{
    for t in 0..sums.len() {
        out[k + t] = sums[t];
    }
}

/// Returns the sum of products of row `k` with the second row, modulo 2^64.
fn sum_of_products(pair: &RowPair<'_>, k: usize) -> i64
    requires { HasRows (k + 1) pair.now }
    ensures { result ≡ pair_dot pair.now k }
{
    let (first, second) = (pair.first, pair.second);
    let mut sum = 0;
    for q in 0..first.offsets.len() {
        let x = first.values[first.start + first.offsets[q] + k];
        sum = mul_add(sum, x, second.values[second.start + second.offsets[q]]);
    }
    sum
}
