//! Lanes of 64-bit numbers, multiplied by halves of 32 bits. Before AVX-512 no instruction
//! multiplies four lanes of 64 bits, and what LLVM makes of it is longer than this. One accumulator
//! has the products of the low halves in lanes of 64 bits, the other the crossed products (low
//! times high) in words of 32 bits. Row sums here and tiles in tensor_kernels go by these;
//! specs/Halves defines what the two stand for.

ghost use Rattle.std.specs.Prelude.{◌≡◌, ℕ, ◌*◌, ◌+◌, ◌/◌, ◌%◌, ◌≤◌, ◌<◌, ◌^◌, length, pos, ◌+ℤ◌};
ghost use Rattle.std.specs.Prelude.{◌*ℤ◌};
ghost use Rattle.tensor_values.specs.Values.{value_in};
ghost use Rattle.tensor_shape.specs.Wrap.{wrap};
ghost use Rattle.tensor_dots.specs.Halves.{low_half, high_half, word_in, AreWords, joined};
ghost use Rattle.tensor_dots.specs.Lanes.{AreLanes};

use std::simd::prelude::*;

/// Returns four numbers as eight words: of each number the low half, then the high half.
#[inline(always)]
fn words(x: i64x4) -> u32x8
    requires { AreLanes x }
    ensures words { AreWords result }
    ensures low { (r : ℕ) → r < 4 → word_in result (2 * r) ≡ low_half (value_in x r) }
    ensures high { (r : ℕ) → r < 4 → word_in result (2 * r + 1) ≡ high_half (value_in x r) }
{
    u32x8::from_le_bytes(x.to_le_bytes())
}

/// Adds the product of the low halves to each of four sums.
#[inline(always)]
fn add_low(sums: i64x4, x: i64x4, y: i64x4) -> i64x4
    requires sums { AreLanes sums }
    requires x { AreLanes x }
    requires y { AreLanes y }
    ensures lanes { AreLanes result }
    ensures each { (r : ℕ) → r < 4 → value_in result r ≡ wrap (value_in sums r
        +ℤ pos (low_half (value_in x r) * low_half (value_in y r))) }
{
    let low = i64x4::splat(4294967295);
    sums + (x & low) * (y & low)
}

/// Adds the crossed products of four pairs of numbers: the low half of `x` times the high half of
/// `y` to the even words, the high half of `x` times the low half of `y` to the odd ones, modulo
/// 2^32.
#[inline(always)]
fn add_crossed(sums: u32x8, x: i64x4, y: i64x4) -> u32x8
    requires sums { AreWords sums }
    requires x { AreLanes x }
    requires y { AreLanes y }
    ensures words { AreWords result }
    ensures low { (r : ℕ) → r < 4 → word_in result (2 * r) ≡ (word_in sums (2 * r)
        + low_half (value_in x r) * high_half (value_in y r)) % 2 ^ 32 }
    ensures high { (r : ℕ) → r < 4 → word_in result (2 * r + 1) ≡ (word_in sums (2 * r + 1)
        + high_half (value_in x r) * low_half (value_in y r)) % 2 ^ 32 }
{
    let (x, y) = (words(x), words(y));
    sums + x * y.swizzle([1, 0, 3, 2, 5, 4, 7, 6])
}

/// Adds a product to each of four sums that are held by halves, and returns the two accumulators.
#[inline(always)]
pub fn add_products(low: i64x4, crossed: u32x8, x: i64x4, y: i64x4) -> (i64x4, u32x8)
    requires low { AreLanes low }
    requires crossed { AreWords crossed }
    requires x { AreLanes x }
    requires y { AreLanes y }
    ensures low { AreLanes result.0 }
    ensures crossed { AreWords result.1 }
    ensures each { (r : ℕ) → r < 4 → joined result.0 result.1 r
        ≡ wrap (joined low crossed r +ℤ (value_in x r *ℤ value_in y r)) }
{
    (add_low(low, x, y), add_crossed(crossed, x, y))
}

/// Returns the four values from place `i` on.
#[inline(always)]
pub fn rows_from(a: &[i64], i: usize) -> i64x4
    requires { i + 4 ≤ length a.now }
    ensures lanes { AreLanes result }
    ensures each { (r : ℕ) → r < 4 → value_in result r ≡ value_in a.now (i + r) }
{
    i64x4::from_array([a[i], a[i + 1], a[i + 2], a[i + 3]])
}

/// Returns the value at place `i` in all four lanes.
#[inline(always)]
pub fn spread(b: &[i64], i: usize) -> i64x4
    requires { i < length b.now }
    ensures lanes { AreLanes result }
    ensures each { (r : ℕ) → r < 4 → value_in result r ≡ value_in b.now i }
{
    i64x4::splat(b[i])
}

/// Joins the halves of four sums and stores the sums at the places `4 * j` to `4 * j + 3`. Earlier
/// sums stay as they are.
#[inline(always)]
pub fn store(sums: &mut [i64; 16], j: usize, low: i64x4, crossed: u32x8)
    requires four { j < 4 }
    requires low { AreLanes low }
    requires crossed { AreWords crossed }
    ensures stored { (r : ℕ) → r < 4 → value_in sums.new (4 * j + r) ≡ joined low crossed r }
    ensures kept { (s : ℕ) → s < 4 * j → value_in sums.new s ≡ value_in sums.old s }
{
    let low = low.to_array();
    let crossed = crossed.to_array();
    for r in 0..4 {
        let high = crossed[2 * r].wrapping_add(crossed[2 * r + 1]);
        sums[4 * j + r] = low[r].wrapping_add((high as i64) << 32);
    }
}
