//! Why a barrier could not be made. pool_part_tests fix the numbers of these faults.
use std::alloc::AllocError;
use thiserror::Error;

/// Why a barrier could not be made.
#[derive(Clone, Copy, Debug, PartialEq, Eq, Error)]
pub enum BarrierFault {
    /// More than `MOST_NOTICES` notices were asked for. No memory was asked for.
    #[error("a barrier takes at most 2147483647 notices")]
    TooLarge = 1,
    /// An allocation failed.
    #[error("no memory for a barrier")]
    NoMemory = 2,
}

impl From<AllocError> for BarrierFault {
    ghost use Rattle.std.specs.Prelude.{◌≡◌};
    ghost use Rattle.pool_barrier.specs.declared.fault.BarrierFault.TheVariants.{NoMemory};

    ghost from_gives = { λ _ fault. fault ≡ NoMemory };

    fn from(_error: AllocError) -> BarrierFault {
        BarrierFault::NoMemory
    }
}
