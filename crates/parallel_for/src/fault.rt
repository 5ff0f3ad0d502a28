//! The faults of `parallel_for`. docs/CALLS.md lists them, and `tensor_reduce` and `tensor_runner`
//! match on them.
use std::alloc::AllocError;
use thiserror::Error;
use worker_pool::PoolFault;

/// Why a range was not evaluated. The faults stand in the order in which they are checked.
#[derive(Clone, Copy, Debug, PartialEq, Eq, Hash, Error)]
pub enum ForFault {
    /// The block is 0, or there are more than 2,147,483,647 blocks.
    #[error("blocks of no length, or too many of them")]
    BadBlock,
    /// The setup has a bad number of workers, or bad partitions.
    #[error(transparent)]
    Pool(PoolFault),
    /// An allocation failed.
    #[error("out of memory")]
    NoMemory,
}

impl From<AllocError> for ForFault {
    ghost use Rattle.std.specs.Prelude.{◌≡◌};
    ghost use Rattle.parallel_for.specs.declared.fault.ForFault.TheVariants.{NoMemory};

    ghost from_gives = { λ _ fault. fault ≡ NoMemory };

    fn from(_error: AllocError) -> ForFault {
        ForFault::NoMemory
    }
}
