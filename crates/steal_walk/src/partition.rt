//! The ranges of rows that the workers of a pool look at first. A pool's setup has a list of them.

ghost use Rattle.std.specs.Prelude.{◌≡◌, ◌<◌, ◌≤◌, ◌↔◌, IsOk, IfOk, IsErrOf};

use std::marker::Model;
use thiserror::Error;

/// Why a range of rows is no partition of a pool.
#[derive(Clone, Copy, Debug, PartialEq, Eq, Error)]
pub enum PartitionFault {
    /// The range has no rows: `limit` is at most `start`.
    #[error("the partition is empty")]
    Empty = 1,
    /// The range ends past the pool: `limit` is greater than the number of workers.
    #[error("the partition ends outside the pool")]
    OutOfPool = 2,
}

/// A range `start..limit` of a pool's rows, not empty, in which a worker looks first.
#[derive(Clone, Copy, Debug, PartialEq, Eq)]
pub struct Partition {
    start: u32,
    limit: u32,
}

impl Model for Partition {
    ghost use Rattle.std.specs.Prelude.{◌<◌};
    ghost use Rattle.steal_walk.specs.Partition.{RowRange};

    ghost Value = { RowRange };

    ghost view = { λ p. record { start = p.start; limit = p.limit } };

    ghost invariant = { λ p. p.start < p.limit };

    ghost inverse = { λ rows. record { start = rows.start; limit = rows.limit } };
}

impl Partition {
    /// Returns the range `start..limit` in a pool of `workers` workers, or why it is no partition.
    pub fn new(start: u32, limit: u32, workers: u32) -> Result<Partition, PartitionFault>
        ensures ok { IsOk result ↔ ((start < limit) × (limit ≤ workers)) }
        ensures rows { IfOk result (λ p. p ≡ record { start = start; limit = limit }) }
        ensures empty { IsErrOf result PartitionFault.Empty ↔ (limit ≤ start) }
        ensures out_of_pool { IsErrOf result PartitionFault.OutOfPool
            ↔ ((start < limit) × (workers < limit)) }
    {
        if start >= limit {
            return Err(PartitionFault::Empty);
        }
        if limit > workers {
            return Err(PartitionFault::OutOfPool);
        }
        Ok(Partition { start, limit })
    }

    /// Returns the first row of the range.
    pub fn start(&self) -> u32
        ensures value { result ≡ self.now.start }
        ensures not_empty { self.now.start < self.now.limit }
    {
        self.start
    }

    /// Returns the row after the last row of the range.
    pub fn limit(&self) -> u32
        ensures value { result ≡ self.now.limit }
        ensures not_empty { self.now.start < self.now.limit }
    {
        self.limit
    }
}
