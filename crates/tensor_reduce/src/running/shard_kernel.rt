//! The kernel of a step that is evaluated in shards. specs/private/Combined defines its items.

ghost use Rattle.std.specs.Prelude.{◌≡◌, ◌<◌, ◌≤◌, ◌-◌, map, IfOk};
ghost use Rattle.std.specs.List.{range_with_len};
ghost use Rattle.tensor_ops.specs.Parts.{inner_size};
ghost use Rattle.tensor_ops.specs.PartEvaluator.{term_in_parts, inputs_in_parts};
ghost use Rattle.tensor_reduce.specs.Shards.{lists_cut};

use crate::shards::Shards;
use parallel_for::Kernel;
use std::alloc::{AllocError, Allocator};
use tensor_ops::PartEvaluator;

/// Computes what shards contribute to values, by ranges of places: first all shards of the first
/// value, then all shards of the next.
#[derive(Drop)]
pub(crate) struct ShardKernel<'a> {
    pub(crate) parts: PartEvaluator<'a>,
    pub(crate) shards: Shards,
    ghost whole: { lists_cut shards ≡ inner_size (term_in_parts parts) (inputs_in_parts parts) },
}

impl<'a> ShardKernel<'a> {
    ghost use Rattle.tensor_reduce.specs.private.Combined.{shard_places, shard_at_place};

    /// Returns what the shard at a place contributes.
    fn shard(&self, place: u64) -> Result<i64, AllocError>
        requires { place < shard_places self.now }
        ensures { IfOk result (λ v. v ≡ shard_at_place self.now place) }
    {
        let count = self.shards.count();
        let (first, last) = self.shards.range(place % count);
        self.parts.part(place / count, first, last)
    }

    /// Returns what each of the shards `[first, last)` contributes.
    fn each<A: Allocator>(&self, alloc: A, first: u64, last: u64) -> Result<Vec<i64, A>, AllocError>
        requires order { first ≤ last }
        requires within { last ≤ shard_places self.now }
        ensures { IfOk result (λ found. found.items
            ≡ map (shard_at_place self.now) (range_with_len first (last - first))) }
    {
        let mut found = Vec::with_capacity(alloc, (last - first) as usize)?;
        for place in first..last {
            found.push_reserved(self.shard(place)?);
        }
        Ok(found)
    }
}

// The items are what each shard of each value contributes to the value.
impl<'a> Kernel for ShardKernel<'a> {
    ghost use Rattle.tensor_reduce.specs.private.Combined.{shard_places, shard_at_place};

    type Item = i64;

    ghost size = { shard_places };

    ghost item_at = { shard_at_place };

    fn fill<A: Allocator>(
        &self,
        alloc: A,
        first: u64,
        last: u64,
    ) -> Result<Vec<i64, A>, AllocError> {
        if self.shards.count() == 1 {
            self.parts.wholes(alloc, first, last)
        } else {
            self.each(alloc, first, last)
        }
    }
}
