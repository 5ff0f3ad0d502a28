//! The kernel that a caller hands over: how the items of a range are computed. Kernels stand in
//! `uses`, `loop_tests`, `memory_tests` and `tensor_reduce`.

ghost use Rattle.std.specs.Prelude.{◌≤◌, IfOk};
ghost use Rattle.parallel_for.specs.Items.{AreItems};

use std::alloc::{AllocError, Allocator};

/// A kernel, which computes the items of a range at the places below its size.
pub trait Kernel {
    ghost use Rattle.std.specs.Prelude.{ℕ};

    type Item: Drop;

    ghost size: { Self → ℕ };

    ghost item_at: { Self → ℕ → Self.Item };

    /// Computes the items at the places in `[first, last)`, in order.
    fn fill<A: Allocator>(
        &self,
        alloc: A,
        first: u64,
        last: u64,
    ) -> Result<Vec<Self::Item, A>, AllocError>
        requires order { first ≤ last }
        requires inside { last ≤ size self.now }
        ensures { IfOk result (λ filled. AreItems (item_at self.now) first last filled.items) };
}

impl<K: Kernel> Kernel for &K {
    type Item = K::Item;

    ghost size = { λ kernel. K.size kernel.now };

    ghost item_at = { λ kernel. K.item_at kernel.now };

    fn fill<A: Allocator>(
        &self,
        alloc: A,
        first: u64,
        last: u64,
    ) -> Result<Vec<K::Item, A>, AllocError> {
        K::fill(*self, alloc, first, last)
    }
}
