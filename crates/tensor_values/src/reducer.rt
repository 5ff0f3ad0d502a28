//! The ways to combine the values of a reduction. A change of a variant touches `specs/Combining`,
//! and the matches of tensor_loops, tensor_ops, tensor_reduce and expr_reader. Those crates combine
//! values in any order and in parts, so an operation here must be associative and commutative.

ghost use Rattle.std.specs.Prelude.{◌≡◌};
ghost use Rattle.tensor_values.specs.Combining.{unit, combine};

use crate::operations::{BinaryScalar, combined};

/// How a reduction combines two values, as Eigen's reducers do. The order in which values are
/// combined doesn't change the result.
#[derive(Clone, Copy, Debug, Drop, Eq, PartialEq)]
pub enum Reducer {
    /// The sum modulo 2^64.
    Sum,
    /// The product modulo 2^64.
    Prod,
    /// The greater value.
    Max,
    /// The lesser value.
    Min,
    /// 1 if both values are true, else 0.
    All,
    /// 1 if one of the values or both are true, else 0.
    Any,
}

impl Reducer {
    /// Returns the result of a reduction of no values. Combined with a value, it gives this value;
    /// for `All` and `Any`, it gives 1 if the value is true, else 0.
    #[inline(always)]
    pub fn unit(self) -> i64
        ensures { result ≡ unit self }
    {
        match self {
            Reducer::Sum | Reducer::Any => 0,
            Reducer::Prod | Reducer::All => 1,
            Reducer::Max => i64::MIN,
            Reducer::Min => i64::MAX,
        }
    }

    /// Returns two values combined.
    #[inline(always)]
    pub fn combine(self, x: i64, y: i64) -> i64
        ensures { result ≡ combine self x y }
    {
        match self {
            Reducer::Sum => combined(BinaryScalar::Add, x, y),
            Reducer::Prod => combined(BinaryScalar::Mul, x, y),
            Reducer::Max => combined(BinaryScalar::CwiseMax, x, y),
            Reducer::Min => combined(BinaryScalar::CwiseMin, x, y),
            Reducer::All => combined(BinaryScalar::And, x, y),
            Reducer::Any => combined(BinaryScalar::Or, x, y),
        }
    }
}
