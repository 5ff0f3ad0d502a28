//! Sums of the products of each row's own pairs, which products two by two have too much.
//! `tiling::pairs` takes them off; specs/private/Pairs defines the sums.

ghost use Rattle.std.specs.Prelude.{◌≡◌, ℕ, ◌*◌, ◌+◌, ◌%◌, ◌<◌, ◌≤◌, ◌^◌, length, IfOk, vec_len};
ghost use Rattle.tensor_shape.specs.Wrap.{wrap};
ghost use Rattle.tensor_kernels.specs.private.Pairs.{own_pairs, lane, ArePairSums};
ghost use Rattle.tensor_dots.specs.Halves.{AreWords, joined};
ghost use Rattle.tensor_dots.specs.Lanes.{AreLanes};
ghost use Rattle.tensor_values.specs.Values.{value_in};

use std::alloc::{AllocError, Global};
use std::simd::prelude::*;
use tensor_dots::lanes::halves::{add_products, rows_from, store};
use tensor_dots::lanes::mul_add;

/// Returns the sum of the products of its pairs for each row of the given panels. Each row has `n`
/// values. Takes a number for each row.
pub(crate) fn pair_sums(
    alloc: Global,
    cells: &[i64],
    panels: usize,
    height: usize,
    n: usize,
) -> Result<Vec<i64>, AllocError>
    requires some { 0 < height }
    requires few { panels * height < 2 ^ 60 }
    requires cells { panels * (n * height) ≤ length cells.now }
    ensures len { IfOk result (λ v. vec_len v ≡ panels * height) }
    ensures each { IfOk result (λ v. ArePairSums height v.items cells.now n) }
{
    if height % 4 == 0 {
        return pair_sums_by_fours(alloc, cells, panels, height, n);
    }
    let mut sums = Vec::with_capacity(alloc, panels * height)?;
    for x in 0..panels * height {
        let start = x / height * (n * height) + x % height;
        sums.push_reserved(sum_of_pairs(cells, start, height, n / 2));
    }
    Ok(sums)
}

/// Returns the sum of the products of its pairs for each row of the given panels, four rows at a
/// time. The height is a multiple of four.
fn pair_sums_by_fours(
    alloc: Global,
    cells: &[i64],
    panels: usize,
    height: usize,
    n: usize,
) -> Result<Vec<i64>, AllocError>
    requires some { 0 < height }
    requires fours { height % 4 ≡ 0 }
    requires few { panels * height < 2 ^ 60 }
    requires cells { panels * (n * height) ≤ length cells.now }
    ensures len { IfOk result (λ v. vec_len v ≡ panels * height) }
    ensures each { IfOk result (λ v. ArePairSums height v.items cells.now n) }
{
    let mut sums = Vec::with_capacity(alloc, panels * height)?;
    for four in 0..panels * height / 4 {
        let x = 4 * four;
        let start = x / height * (n * height) + x % height;
        let own = own_of_four(cells, start, height, n / 2);
        let Ok(()) = sums.extend_from_slice(&own[..4]) else {
            unreachable!()
        };
    }
    Ok(sums)
}

/// Returns the sum of the products of the first `n` pairs of a row. The row's values lie `height`
/// places apart, from `start` on.
fn sum_of_pairs(cells: &[i64], start: usize, height: usize, n: usize) -> i64
    requires some { 0 < height }
    requires inside { (q : ℕ) → q < 2 * n → height * q + start < length cells.now }
    ensures { result ≡ wrap (own_pairs (lane height cells.now start) n) }
{
    let mut sum = 0;
    for k in 0..n {
        sum = mul_add(
            sum,
            cells[height * (2 * k) + start],
            cells[height * (2 * k + 1) + start],
        );
    }
    sum
}

/// Returns the sums of the products of the first `n` pairs of four rows side by side, the first of
/// which begins at `start`. The other twelve numbers mean nothing.
fn own_of_four(cells: &[i64], start: usize, height: usize, n: usize) -> [i64; 16]
    requires some { 0 < height }
    requires inside { (q : ℕ) → q < 2 * n → height * q + (start + 3) < length cells.now }
    ensures len { length result ≡ 16 }
    ensures each { (t : ℕ) → t < 4
        → value_in result t ≡ wrap (own_pairs (lane height cells.now (start + t)) n) }
{
    let (mut low, mut words) = (i64x4::splat(0), u32x8::splat(0));
    for k in 0..n {
        let x = rows_from(cells, height * (2 * k) + start);
        let y = rows_from(cells, height * (2 * k + 1) + start);
        (low, words) = add_products(low, words, x, y);
    }
    let mut sums = [0i64; 16];
    store(&mut sums, 0, low, words);
    sums
}
