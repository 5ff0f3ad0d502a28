//! How a pool is set up: its number of workers and their partitions. `PoolFault` reaches callers of
//! `parallel_for` too. `specs/Setup` has the limits.
ghost use Rattle.std.specs.Prelude.{◌≡◌, ◌<◌, ◌↔◌, false, IsTrue, IsOk, IsErrOf};
ghost use Rattle.worker_pool.specs.Setup.{IsPoolSize, IsNoPoolSize, ArePartitions};
ghost use Rattle.worker_pool.specs.Setup.{AreNoPartitions};

use event_count::CountFault;
use run_queue::{MOST_ROWS, RowsFault};
use std::alloc::{AllocError, Allocator, Global};
use steal_walk::Partition;
use thiserror::Error;

/// The most workers that a pool can have: each has a row.
pub const MOST_WORKERS: u32 = MOST_ROWS as u32;

/// Why a pool was not opened.
#[derive(Clone, Copy, Debug, PartialEq, Eq, Hash, Error)]
pub enum PoolFault {
    /// There are 0 workers, or more than `MOST_WORKERS`.
    #[error("no worker, or more than {MOST_WORKERS}")]
    BadWorkers = 1,
    /// There are partitions, but not one for each worker, or a partition ends past the pool's last
    /// row.
    #[error("neither no partition nor one for each worker, or one that ends past the pool")]
    BadPartition = 2,
    /// An allocation failed while the pool was opened.
    #[error("out of memory")]
    NoMemory = 3,
}

impl From<AllocError> for PoolFault {
    ghost use Rattle.std.specs.Prelude.{◌≡◌};
    ghost use Rattle.worker_pool.specs.declared.setup.PoolFault.TheVariants.{NoMemory};

    ghost from_gives = { λ _ fault. fault ≡ NoMemory };

    fn from(_error: AllocError) -> PoolFault {
        PoolFault::NoMemory
    }
}

/// The size of a pool, and the rows in which each worker looks first.
#[derive(Debug, Drop)]
pub struct Setup<A: Allocator = Global> {
    /// How many workers the pool has, from 1 to `MOST_WORKERS`.
    pub workers: u32,
    /// The partition of each worker, by number. If the list is empty, each worker looks in all
    /// rows.
    pub partitions: Vec<Partition, A>,
}

impl<A: Allocator> Setup<A> {
    /// Checks these numbers, and returns the fault that `with_pool` would return for them.
    pub fn check(&self) -> Result<(), PoolFault>
        ensures ok { IsOk result
            ↔ (IsPoolSize self.now.workers
            × ArePartitions self.now.workers self.now.partitions.items) }
        ensures bad_workers { IsErrOf result PoolFault.BadWorkers
            ↔ IsNoPoolSize self.now.workers }
        ensures bad_partition { IsErrOf result PoolFault.BadPartition
            ↔ (IsPoolSize self.now.workers
            × AreNoPartitions self.now.workers self.now.partitions.items) }
    {
        if self.workers == 0 || self.workers > MOST_WORKERS {
            return Err(PoolFault::BadWorkers);
        }
        if !are_partitions(self.workers, &self.partitions) {
            return Err(PoolFault::BadPartition);
        }
        Ok(())
    }
}

/// Whether there is no partition or one for each worker, and each ends inside the pool.
fn are_partitions(workers: u32, partitions: &[Partition]) -> bool
    ensures yes { IsTrue result ↔ ArePartitions workers partitions.now }
    ensures no { (result ≡ false) ↔ AreNoPartitions workers partitions.now }
{
    if !partitions.is_empty() && partitions.len() != workers as usize {
        return false;
    }
    partitions
        .iter()
        .all(|partition| partition.limit() <= workers)
}
