//! The operations on single values. A new variant needs a line of `specs/Scalars`, its name in the
//! list of names, and arms in the matches of tensor_terms, expr_reader and prepared_expressions.

ghost use Rattle.std.specs.Prelude.{◌≡◌};
ghost use Rattle.tensor_values.specs.Scalars.{is_true, truth, applied, combined};

use crate::division::{floor_quotient, remainder, shifted_left, shifted_right};

/// An operation on one value.
#[derive(Clone, Copy, Debug, Drop, Eq, PartialEq)]
pub enum UnaryScalar {
    Neg,
    Abs,
    Square,
    Not,
    BitNot,
    BitCount,
}

/// An operation on two values. A comparison or a logical operation gives 1 for true and 0 for
/// false.
#[derive(Clone, Copy, Debug, Drop, Eq, PartialEq)]
pub enum BinaryScalar {
    Add,
    Sub,
    Mul,
    CwiseMax,
    CwiseMin,
    Lt,
    Le,
    Eq,
    Ne,
    Gt,
    Ge,
    And,
    Or,
    FloorDivide,
    Remainder,
    BitAnd,
    BitOr,
    BitXor,
    ShiftLeft,
    ShiftRight,
}

/// Calls a macro with the names of all operations on one value, and the given tokens.
#[macro_export]
macro_rules! unary_names {
    ($then:ident, $($given:tt)*) => {
        $then!((Neg Abs Square Not BitNot BitCount), $($given)*)
    };
}

/// Calls a macro with the names of all operations on two values, and the given tokens.
#[macro_export]
macro_rules! binary_names {
    ($then:ident, $($given:tt)*) => {
        $then!((Add Sub Mul CwiseMax CwiseMin Lt Le Eq Ne Gt Ge And Or FloorDivide Remainder
            BitAnd BitOr BitXor ShiftLeft ShiftRight), $($given)*)
    };
}

/// Returns the result of an operation on one value, modulo 2^64.
#[inline(always)]
pub fn applied(operation: UnaryScalar, x: i64) -> i64
    ensures { result ≡ applied operation x }
{
    match operation {
        UnaryScalar::Neg => x.wrapping_neg(),
        UnaryScalar::Abs => x.wrapping_abs(),
        UnaryScalar::Square => x.wrapping_mul(x),
        UnaryScalar::Not => truth(!is_true(x)),
        UnaryScalar::BitNot => !x,
        UnaryScalar::BitCount => i64::from(x.unsigned_abs().count_ones()),
    }
}

/// Returns the result of an operation on two values, modulo 2^64.
#[inline(always)]
pub fn combined(operation: BinaryScalar, x: i64, y: i64) -> i64
    ensures { result ≡ combined operation x y }
{
    match operation {
        BinaryScalar::Add => x.wrapping_add(y),
        BinaryScalar::Sub => x.wrapping_sub(y),
        BinaryScalar::Mul => x.wrapping_mul(y),
        BinaryScalar::CwiseMax => x.max(y),
        BinaryScalar::CwiseMin => x.min(y),
        BinaryScalar::Lt => truth(x < y),
        BinaryScalar::Le => truth(x <= y),
        BinaryScalar::Eq => truth(x == y),
        BinaryScalar::Ne => truth(x != y),
        BinaryScalar::Gt => truth(x > y),
        BinaryScalar::Ge => truth(x >= y),
        BinaryScalar::And => truth(is_true(x) && is_true(y)),
        BinaryScalar::Or => truth(is_true(x) || is_true(y)),
        BinaryScalar::FloorDivide => floor_quotient(x, y),
        BinaryScalar::Remainder => remainder(x, y),
        BinaryScalar::BitAnd => x & y,
        BinaryScalar::BitOr => x | y,
        BinaryScalar::BitXor => x ^ y,
        BinaryScalar::ShiftLeft => shifted_left(x, y),
        BinaryScalar::ShiftRight => shifted_right(x, y),
    }
}

/// Whether a value is true: every value but 0 is.
#[inline(always)]
pub fn is_true(x: i64) -> bool
    ensures { result ≡ is_true x }
{
    x != 0
}

/// Returns 1 for true and 0 for false.
#[inline(always)]
fn truth(holds: bool) -> i64
    ensures { result ≡ truth holds }
{
    if holds { 1 } else { 0 }
}
