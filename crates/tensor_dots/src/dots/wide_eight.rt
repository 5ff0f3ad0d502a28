//! Sums of products of eight rows with one row, in registers. The eight rows begin side by side.
//! Their sums are kept in the order 0, 4, 1, 5, 2, 6, 3, 7. In the order of the rows LLVM would
//! make vectors of them, with three products of 32 bits for each one of 64.

ghost use Rattle.std.specs.Prelude.{◌≡◌, ℕ, ◌+◌, ◌*◌, ◌/◌, ◌%◌, ◌<◌, ◌≤◌, length};
ghost use Rattle.std.specs.Prelude.{◌*ℤ◌};
ghost use Rattle.tensor_values.specs.Values.{value_in};
ghost use Rattle.tensor_dots.specs.Products.{with_product};
ghost use Rattle.tensor_dots.specs.private.RowPairs.{HasRows, pair_dot};

use crate::dots::row_pair::RowPair;
use crate::lanes::mul_add;

/// Adds a product to each of eight sums in the dealt order: of the eight values of `a` from place
/// `i` on, and `factor`.
#[inline(always)]
fn add_eight(sums: &mut [i64; 8], a: &[i64], i: usize, factor: i64)
    requires { i + 8 ≤ length a.now }
    ensures { (t : ℕ) → t < 8 → value_in sums.new t
        ≡ with_product (value_in sums.old t)
        (value_in a.now (i + (t % 2 * 4 + t / 2)) *ℤ factor) }
{
    for t in 0..8 {
        sums[t] = mul_add(sums[t], a[i + (t % 2 * 4 + t / 2)], factor);
    }
}

/// Returns the sums of products of eight rows, from row `k` on, with the second row of a pair, in
/// the dealt order. It isn't inlined, as the code around it would push its sums out of the
/// registers.
#[inline(never)]
fn dealt_eight(pair: &RowPair<'_>, k: usize) -> [i64; 8]
    requires { HasRows (k + 8) pair.now }
    ensures { (t : ℕ) → t < 8 → value_in result t ≡ pair_dot pair.now (k + (t % 2 * 4 + t / 2)) }
{
    let (rows, row) = (pair.first, pair.second);
    let mut sums = [0i64; 8];
    for q in 0..rows.offsets.len() {
        let i = rows.start + rows.offsets[q] + k;
        add_eight(
            &mut sums,
            rows.values,
            i,
            row.values[row.start + row.offsets[q]],
        );
    }
    sums
}

/// Returns the sums of products of eight rows, from row `k` on, with the second row of a pair.
pub(crate) fn wide_eight(pair: &RowPair<'_>, k: usize) -> [i64; 8]
    requires { HasRows (k + 8) pair.now }
    ensures { (t : ℕ) → t < 8 → value_in result t ≡ pair_dot pair.now (k + t) }
{
    let dealt = dealt_eight(pair, k);
    let mut sums = [0i64; 8];
    for t in 0..8 {
        sums[t] = dealt[t % 4 * 2 + t / 4];
    }
    sums
}
