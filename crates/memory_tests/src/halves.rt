//! A kernel for tests, whose item at each place is half the place.
use parallel_for::Kernel;
use std::alloc::{AllocError, Allocator};

/// A kernel whose item at each place is half the place, rounded down.
#[derive(Drop)]
pub(crate) struct Halves;

impl Kernel for Halves {
    ghost use Rattle.std.specs.Prelude.{◌/◌, ◌^◌};

    type Item = u64;

    ghost size = { λ _. 2 ^ 64 };

    ghost item_at = { λ _ place. place / 2 };

    fn fill<A: Allocator>(
        &self,
        alloc: A,
        first: u64,
        last: u64,
    ) -> Result<Vec<u64, A>, AllocError> {
        let mut halves = Vec::with_capacity(alloc, (last - first) as usize)?;
        for place in first..last {
            halves.push_reserved(place / 2);
        }
        Ok(halves)
    }
}
