//! Why a count could not be made. worker_pool and waking_rows report these faults as their own.
use crate::rule::{MOST_CREDITS, MOST_WAITERS};
use std::alloc::AllocError;
use thiserror::Error;

/// Why a count without rows could not be made.
#[derive(Clone, Copy, Debug, PartialEq, Eq, Hash, Error)]
pub enum CountFault {
    /// More than `MOST_WAITERS` waiters were asked for. No memory was asked for.
    #[error("more than {MOST_WAITERS} waiters")]
    TooManyWaiters = 1,
    /// An allocation failed.
    #[error("no memory for an event count")]
    NoMemory = 2,
}

impl From<AllocError> for CountFault {
    ghost use Rattle.std.specs.Prelude.{◌≡◌};
    ghost use Rattle.event_count.specs.declared.fault.CountFault.TheVariants.{NoMemory};

    ghost from_gives = { λ _ fault. fault ≡ NoMemory };

    fn from(_error: AllocError) -> CountFault {
        CountFault::NoMemory
    }
}

/// Why a count with rows could not be made.
#[derive(Clone, Copy, Debug, PartialEq, Eq, Hash, Error)]
pub enum RowFault {
    /// More than `MOST_WAITERS` waiters were asked for. No memory was asked for.
    #[error("more than {MOST_WAITERS} waiters")]
    TooManyWaiters = 1,
    /// The seats would have more than `MOST_CREDITS` credits together. No memory was asked for.
    #[error("more than {MOST_CREDITS} credits")]
    TooManyCredits = 2,
    /// An allocation failed.
    #[error("no memory for an event count")]
    NoMemory = 3,
}

impl From<AllocError> for RowFault {
    ghost use Rattle.std.specs.Prelude.{◌≡◌};
    ghost use Rattle.event_count.specs.declared.fault.RowFault.TheVariants.{NoMemory};

    ghost from_gives = { λ _ fault. fault ≡ NoMemory };

    fn from(_error: AllocError) -> RowFault {
        RowFault::NoMemory
    }
}
