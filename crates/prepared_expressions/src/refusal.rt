//! Why an expression is not prepared, or a record is not evaluated. `tensor_c` turns each into the
//! result of a call (`refusal_result` in `specs/Plan` there).

use std::alloc::AllocError;
use thiserror::Error;

/// Why an expression can't be written as numbers, or why numbers can't be evaluated over arrays.
#[derive(Clone, Copy, Debug, Drop, Eq, PartialEq, Error)]
pub enum Refusal {
    /// An allocation failed.
    #[error("there is no memory")]
    NoMemory = 1,
    /// The numbers are not the record of an expression.
    #[error("the numbers are no record of an expression")]
    NoRecord = 2,
    /// The expression does not fit in a record.
    #[error("the expression is past what a record may hold")]
    TooLarge = 3,
    /// There are more or fewer arrays than inputs, or an array has more or fewer values than its
    /// input.
    #[error("the arrays are not those of the expression")]
    OtherArrays = 4,
    /// The expression has no result dims. This can't happen if its dims were checked before it was
    /// prepared.
    #[error("the expression has no result dims")]
    NoDims = 5,
}

impl From<AllocError> for Refusal {
    ghost use Rattle.std.specs.Prelude.{◌≡◌};
    ghost use Rattle.prepared_expressions.specs.declared.refusal.Refusal.TheVariants.{NoMemory};

    ghost from_gives = { λ error refusal. refusal ≡ NoMemory };

    fn from(_: AllocError) -> Refusal {
        Refusal::NoMemory
    }
}
