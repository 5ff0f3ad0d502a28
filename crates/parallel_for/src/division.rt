//! The division of a range into blocks, as a type. The contracts of `range_job.rt` and
//! `evaluation.rt` name it.

use std::marker::Brand;

/// One division of a range into blocks: how many places there are, how long a block is, and which
/// barrier counts the leaves. The types of the range's jobs name it. So every job of such a type
/// fits the context that it runs in, though nothing but its type is known.
pub trait Division {
    ghost use Rattle.std.specs.Prelude.{ℕ};
    ghost use Rattle.pool_barrier.specs.Seated.{TableId};

    ghost size: { ℕ };

    ghost block: { ℕ };

    ghost barrier: { TableId };
}

impl Division for Brand {
    ghost use Rattle.parallel_for.specs.Divisions.{no_barrier};

    ghost size = { 0 };

    ghost block = { 0 };

    ghost barrier = { no_barrier };
}
