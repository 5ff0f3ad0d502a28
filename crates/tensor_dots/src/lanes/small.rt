//! Lanes of numbers that fit 32 bits: an instruction makes two products, or four on a processor
//! with vectors of 256 bits. Row sums here and tiles in tensor_kernels choose these if `are_small`
//! of both lists.

ghost use Rattle.std.specs.Prelude.{◌≡◌, ◌↔◌, ℕ, ◌*◌, ◌+◌, ◌≤◌, ◌<◌, length, ◌+ℤ◌, ◌*ℤ◌, IsTrue};
ghost use Rattle.tensor_shape.specs.Wrap.{wrap};
ghost use Rattle.tensor_dots.specs.Lanes.{AreLanes, AreSmall};
ghost use Rattle.tensor_values.specs.Values.{value_in};

use std::simd::prelude::*;

/// Returns whether each value fits 32 bits, as `i32` does.
pub fn are_small(values: &[i64]) -> bool
    ensures { IsTrue result ↔ AreSmall values.now }
{
    for value in values {
        if *value < -2147483648 || *value > 2147483647 {
            return false;
        }
    }
    true
}

/// Adds a product to each of four sums, modulo 2^64.
#[inline(always)]
pub fn add_product(sums: i64x4, x: i64x4, y: i64x4) -> i64x4
    requires sums { AreLanes sums }
    requires x { AreLanes x }
    requires y { AreLanes y }
    ensures lanes { AreLanes result }
    ensures each { (r : ℕ) → r < 4
        → value_in result r ≡ wrap (value_in sums r +ℤ (value_in x r *ℤ value_in y r)) }
{
    sums + x * y
}

/// Returns the four values from place `i` on. The casts through `i32` let the compiler use the
/// instruction that multiplies numbers of 32 bits.
#[inline(always)]
pub fn four_from(a: &[i64], i: usize) -> i64x4
    requires small { AreSmall a.now }
    requires inside { i + 4 ≤ length a.now }
    ensures lanes { AreLanes result }
    ensures each { (r : ℕ) → r < 4 → value_in result r ≡ value_in a.now (i + r) }
{
    let four = i64x4::from_array([a[i], a[i + 1], a[i + 2], a[i + 3]]);
    four.cast::<i32>().cast::<i64>()
}

/// Returns the value at place `i` in all four lanes, with casts through `i32` as in [`four_from`].
#[inline(always)]
pub fn spread_from(b: &[i64], i: usize) -> i64x4
    requires small { AreSmall b.now }
    requires inside { i < length b.now }
    ensures lanes { AreLanes result }
    ensures each { (r : ℕ) → r < 4 → value_in result r ≡ value_in b.now i }
{
    i64x4::splat(b[i]).cast::<i32>().cast::<i64>()
}

/// Stores four sums at the places `4 * j` to `4 * j + 3`. Earlier sums stay as they are.
#[inline(always)]
pub fn store(sums: &mut [i64; 16], j: usize, lanes: i64x4)
    requires four { j < 4 }
    requires lanes { AreLanes lanes }
    ensures stored { (r : ℕ) → r < 4 → value_in sums.new (4 * j + r) ≡ value_in lanes r }
    ensures kept { (s : ℕ) → s < 4 * j → value_in sums.new s ≡ value_in sums.old s }
{
    let values = lanes.to_array();
    for r in 0..4 {
        sums[4 * j + r] = values[r];
    }
}
