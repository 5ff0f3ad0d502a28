//! Division rounded down, and shifts, defined for all pairs of values. Division by 0 gives 0. A
//! change touches `specs/Division`, and `specs/private/Rounding` if it turns the rounding.

ghost use Rattle.std.specs.Prelude.{◌≡◌, ◌≢◌, ℤ, pos};
ghost use Rattle.tensor_shape.specs.Wrap.{wrap};
ghost use Rattle.tensor_values.specs.Division.{floor_quotient, remainder, AreDivided};
ghost use Rattle.tensor_values.specs.Division.{shifted_left, shifted_right};
ghost use Rattle.tensor_values.specs.private.Rounding.{is_rounded_up};

/// Returns the quotient rounded down, modulo 2^64; 0 if the divisor is 0.
#[inline(always)]
pub fn floor_quotient(x: i64, y: i64) -> i64
    ensures { result ≡ wrap (floor_quotient x y) }
{
    if y == 0 {
        0
    } else if y == -1 {
        x.wrapping_neg()
    } else if is_rounded_up(x % y, y) {
        x / y - 1
    } else {
        x / y
    }
}

/// Returns the remainder of the division rounded down, which has the sign of the divisor; 0 if the
/// divisor is 0.
#[inline(always)]
pub fn remainder(x: i64, y: i64) -> i64
    ensures { result ≡ remainder x y }
{
    if y == 0 || y == -1 {
        return 0;
    }
    let rest = x % y;
    if is_rounded_up(rest, y) {
        rest + y
    } else {
        rest
    }
}

/// States that a quotient times its divisor plus the remainder is the dividend, and that the
/// remainder lies between 0 and the divisor. Only one pair of numbers is like this. The function
/// does nothing.
pub fn quotients_leave_remainders()
    ensures { (x y : ℤ) → y ≢ pos 0 → AreDivided x y (floor_quotient x y) (remainder x y) }
{}

/// Whether the quotient rounded toward 0 is one above the quotient rounded down: the remainder is
/// not 0, and its sign is not the sign of the divisor.
#[inline(always)]
fn is_rounded_up(rest: i64, divisor: i64) -> bool
    ensures { result ≡ is_rounded_up rest divisor }
{
    (rest < 0 && 0 < divisor) || (0 < rest && divisor < 0)
}

/// Returns x times 2^count, modulo 2^64; 0 if the count is below 0 or above 63.
#[inline(always)]
pub fn shifted_left(x: i64, count: i64) -> i64
    ensures { result ≡ wrap (shifted_left x count) }
{
    if 0 <= count && count < 64 {
        x << count
    } else {
        0
    }
}

/// Returns x divided by 2^count, rounded down. A count below 0 or above 63 gives 0, or -1 for a
/// negative x.
#[inline(always)]
pub fn shifted_right(x: i64, count: i64) -> i64
    ensures { result ≡ shifted_right x count }
{
    let places = if 0 <= count && count < 64 { count } else { 63 };
    x >> places
}
