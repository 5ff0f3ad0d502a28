//! Tiles of numbers that fit 32 bits: an instruction makes two products, or four on a processor
//! with vectors of 256 bits. `tile` chooses by the height.

ghost use Rattle.std.specs.Prelude.{◌≡◌, ℕ, ◌*◌, ◌≤◌, ◌<◌, length};
ghost use Rattle.tensor_shape.specs.Wrap.{wrap};
ghost use Rattle.tensor_kernels.specs.private.Pairs.{lane};
ghost use Rattle.tensor_dots.specs.Lanes.{AreLanes, AreSmall};
ghost use Rattle.tensor_dots.specs.Products.{dot};
ghost use Rattle.tensor_values.specs.Values.{value_in};

use std::simd::prelude::*;
use tensor_dots::lanes::small::{add_product, four_from, store};

/// Returns the values at the even places. A product of 32-bit numbers reads only the low half of
/// each lane, so this takes no instruction.
#[inline(always)]
fn even_values(values: i32x8) -> i64x4
    requires len { length values ≡ 8 }
    requires small { AreSmall values }
    ensures lanes { AreLanes result }
    ensures each { (r : ℕ) → r < 4 → value_in result r ≡ value_in values (2 * r) }
{
    let half = i64x4::splat(32);
    (i64x4::from_le_bytes(values.to_le_bytes()) << half) >> half
}

/// Returns the value at place `i` in all four lanes. It goes through 32 bits so that the compiler
/// uses the instruction that multiplies such numbers.
#[inline(always)]
fn spread_small(b: &[i64], i: usize) -> i64x4
    requires small { AreSmall b.now }
    requires inside { i < length b.now }
    ensures lanes { AreLanes result }
    ensures each { (r : ℕ) → r < 4 → value_in result r ≡ value_in b.now i }
{
    even_values(i32x8::splat(b[i] as i32))
}

/// Returns for each of sixteen rows the sum of its `n` products with a column.
#[inline(never)]
pub(crate) fn small_sixteen(a: &[i64], b: &[i64], n: usize) -> [i64; 16]
    requires small_a { AreSmall a.now }
    requires small_b { AreSmall b.now }
    requires a { n * 16 ≤ length a.now }
    requires b { n ≤ length b.now }
    ensures { (t : ℕ) → t < 16
        → value_in result t ≡ wrap (dot (lane 16 a.now t) (value_in b.now) n) }
{
    let mut r0 = i64x4::splat(0);
    let mut r1 = i64x4::splat(0);
    let mut r2 = i64x4::splat(0);
    let mut r3 = i64x4::splat(0);
    for q in 0..n {
        let y = spread_small(b, q);
        r0 = add_product(r0, four_from(a, 16 * q), y);
        r1 = add_product(r1, four_from(a, 16 * q + 4), y);
        r2 = add_product(r2, four_from(a, 16 * q + 8), y);
        r3 = add_product(r3, four_from(a, 16 * q + 12), y);
    }
    let mut sums = [0i64; 16];
    store(&mut sums, 0, r0);
    store(&mut sums, 1, r1);
    store(&mut sums, 2, r2);
    store(&mut sums, 3, r3);
    sums
}

/// Returns for each of four rows the sum of its `n` products with a column. The other twelve
/// numbers mean nothing.
#[inline(never)]
pub(crate) fn small_four(a: &[i64], b: &[i64], n: usize) -> [i64; 16]
    requires small_a { AreSmall a.now }
    requires small_b { AreSmall b.now }
    requires a { n * 4 ≤ length a.now }
    requires b { n ≤ length b.now }
    ensures { (t : ℕ) → t < 4
        → value_in result t ≡ wrap (dot (lane 4 a.now t) (value_in b.now) n) }
{
    let mut lanes = i64x4::splat(0);
    for q in 0..n {
        lanes = add_product(lanes, four_from(a, 4 * q), spread_small(b, q));
    }
    let mut sums = [0i64; 16];
    store(&mut sums, 0, lanes);
    sums
}
