//! Kernels for the tests of `ranges.rt`.
use parallel_for::Kernel;
use std::alloc::{AllocError, Allocator};
use std::sync::atomic::{AtomicU64, Ordering};
use std::thread::yield_now;

/// How often a leaf looks at most whether all others have begun.
const LOOKS: u64 = 10_000_000;

/// A kernel whose item at each place is the place itself.
#[derive(Drop)]
pub(crate) struct Places;

impl Kernel for Places {
    ghost use Rattle.std.specs.Prelude.{◌^◌};

    type Item = u64;

    ghost size = { λ _. 2 ^ 64 };

    ghost item_at = { λ _ place. place };

    fn fill<A: Allocator>(
        &self,
        alloc: A,
        first: u64,
        last: u64,
    ) -> Result<Vec<u64, A>, AllocError> {
        let mut places = Vec::with_capacity(alloc, (last - first) as usize)?;
        for place in first..last {
            places.push_reserved(place);
        }
        Ok(places)
    }
}

/// A kernel whose item at each place is the place itself. Each of its leaves waits until all leaves
/// have begun, for at most `LOOKS` looks.
#[derive(Drop)]
pub(crate) struct Meeting {
    leaves: u64,
    begun: AtomicU64,
    met: AtomicU64,
}

impl Meeting {
    pub(crate) fn of(leaves: u64) -> Meeting {
        Meeting {
            leaves,
            begun: AtomicU64::new(0),
            met: AtomicU64::new(0),
        }
    }

    /// Returns how many leaves have begun, and how many of them have seen that all have begun.
    pub(crate) fn counts(&self) -> (u64, u64) {
        (
            self.begun.load(Ordering::SeqCst),
            self.met.load(Ordering::SeqCst),
        )
    }

    /// Counts that a leaf has begun, and waits for the others.
    fn meet(&self) {
        self.begun.fetch_add(1, Ordering::SeqCst);
        for _ in 0..LOOKS {
            if self.begun.load(Ordering::SeqCst) >= self.leaves {
                self.met.fetch_add(1, Ordering::SeqCst);
                return;
            }
            yield_now();
        }
    }
}

impl Kernel for Meeting {
    ghost use Rattle.std.specs.Prelude.{◌^◌};

    type Item = u64;

    ghost size = { λ _. 2 ^ 64 };

    ghost item_at = { λ _ place. place };

    fn fill<A: Allocator>(
        &self,
        alloc: A,
        first: u64,
        last: u64,
    ) -> Result<Vec<u64, A>, AllocError> {
        self.meet();
        Places.fill(alloc, first, last)
    }
}
