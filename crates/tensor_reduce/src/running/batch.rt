//! The kernel of a range of another kernel's places. `workers` cuts large tensors into such
//! batches.

ghost use Rattle.std.specs.Prelude.{◌≡◌, ◌≤◌, ◌-◌, ◌+◌};

use parallel_for::Kernel;
use std::alloc::{AllocError, Allocator};

/// Computes the items of a kernel at the places `[first, last)`.
#[derive(Drop)]
pub(crate) struct Batch<'a, K: Kernel> {
    pub(crate) kernel: &'a K,
    pub(crate) first: u64,
    pub(crate) last: u64,
    ghost order: { first ≤ last },
    ghost inside: { last ≤ K.size kernel.now },
}

// The items are the kernel's, from place `first` on.
impl<K: Kernel> Kernel for Batch<'_, K> {
    type Item = K::Item;

    ghost size = { λ batch. batch.last - batch.first };

    ghost item_at = { λ batch place. K.item_at batch.kernel.now (batch.first + place) };

    fn fill<A: Allocator>(
        &self,
        alloc: A,
        first: u64,
        last: u64,
    ) -> Result<Vec<K::Item, A>, AllocError> {
        self.kernel
            .fill(alloc, self.first + first, self.first + last)
    }
}
