//! Division by one number as multiplication by its inverse: Granlund and Montgomery, "Division by
//! Invariant Integers using Multiplication" (1994). The quotients are rounded down, as
//! `specs/Division` of tensor_values says. A change touches `proofs/Inverses`.

ghost use Rattle.std.specs.Prelude.{◌≡◌, ◌<◌, ◌≤◌, ◌+◌, ◌*◌, ◌/◌, ◌^◌, pos, ◌<ℤ◌};
ghost use Rattle.tensor_loops.specs.private.Distance.{distance, at_distance};
ghost use Rattle.tensor_values.specs.Division.{floor_over, remainder};
ghost use Rattle.tensor_values.specs.Scalars.{combined};

use tensor_values::{BinaryScalar, combined};

/// A divisor above 0 and its inverse: `multiplier / 2^(63 + shift)` is `1 / divisor`, rounded up.
#[derive(Clone, Copy, Drop)]
pub(crate) struct Inverse {
    /// The divisor.
    divisor: u64,
    /// 2^(63 + shift) divided by the divisor, rounded up.
    multiplier: u64,
    /// The number of binary digits of `divisor - 1`.
    shift: u32,
    ghost some: { 0 < divisor },
    ghost few: { divisor < 2 ^ 63 },
    ghost short: { shift < 64 },
    ghost digits: { divisor ≤ 2 ^ shift },
    ghost least: { 2 ^ (63 + shift) ≤ multiplier * divisor },
    ghost most: { multiplier * divisor < 2 ^ (63 + shift) + divisor },
}

impl Inverse {
    /// Returns the inverse of a divisor.
    pub(crate) fn of(divisor: i64) -> Inverse
        requires { pos 0 <ℤ divisor }
        ensures { pos result.divisor ≡ divisor }
    {
        let divisor = divisor as u64;
        let shift = 64 - (divisor - 1).leading_zeros();
        let multiplier = (1u128 << (63 + shift)).div_ceil(divisor as u128) as u64;
        Inverse {
            divisor,
            multiplier,
            shift,
        }
    }

    /// Returns the result of an operation on x and the divisor. A division is a multiplication by
    /// the inverse.
    #[inline(always)]
    pub(crate) fn combined(self, operation: BinaryScalar, x: i64) -> i64
        ensures { result ≡ combined operation x (pos self.divisor) }
    {
        match operation {
            BinaryScalar::FloorDivide => self.floor_quotient(x),
            BinaryScalar::Remainder => self.remainder(x),
            _ => combined(operation, x, self.divisor as i64),
        }
    }

    /// Returns the quotient of x by the divisor, rounded down.
    #[inline(always)]
    fn floor_quotient(self, x: i64) -> i64
        ensures { result ≡ floor_over x self.divisor }
    {
        at_distance(x < 0, self.quotient(distance(x)))
    }

    /// Returns the remainder of the division rounded down.
    #[inline(always)]
    fn remainder(self, x: i64) -> i64
        ensures { result ≡ remainder x (pos self.divisor) }
    {
        let distance = distance(x);
        let rest = distance - self.quotient(distance) * self.divisor;
        if x < 0 {
            (self.divisor - 1 - rest) as i64
        } else {
            rest as i64
        }
    }

    /// Returns the quotient of a number by the divisor, rounded down: the upper 64 bits of the
    /// product of twice the number and the multiplier, shifted.
    #[inline(always)]
    fn quotient(self, number: u64) -> u64
        requires { number < 2 ^ 63 }
        ensures { result ≡ number / self.divisor }
    {
        let product = (2 * number) as u128 * self.multiplier as u128;
        (product >> 64) as u64 >> self.shift
    }
}

/// Returns the distance of x from 0, or from -1 if x is below 0. A branch would be slow: the signs of
/// values have no pattern.
#[inline(always)]
fn distance(x: i64) -> u64
    ensures distance { result ≡ distance x }
    ensures few { result < 2 ^ 63 }
{
    x.max(!x) as u64
}

/// Returns the integer at a distance from 0, or below 0 at a distance from -1.
#[inline(always)]
fn at_distance(is_below: bool, distance: u64) -> i64
    requires { distance < 2 ^ 63 }
    ensures { result ≡ at_distance is_below distance }
{
    if is_below {
        !(distance as i64)
    } else {
        distance as i64
    }
}
