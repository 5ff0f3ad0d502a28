//! An allocator that refuses, for tests. Its proofs show that it hands out and takes back memory as
//! its inner allocator does.
use std::alloc::{AllocError, Allocator};
use std::sync::atomic::{AtomicU64, Ordering};

/// An allocator that lets the first `left` allocations through, and refuses all later ones, on any
/// threads.
pub(crate) struct Sparing<B: Allocator> {
    inner: B,
    left: AtomicU64,
}

impl<B: Allocator> Sparing<B> {
    pub(crate) fn new(inner: B, left: u64) -> Sparing<B> {
        Sparing {
            inner,
            left: AtomicU64::new(left),
        }
    }
}

impl<B: Allocator> Drop for Sparing<B> {
    fn drop(self) {
        let Self { inner: _, left: _ } = self;
    }
}

/// Takes 1 off the number of allocations that are left, in one step, and returns whether there was
/// one.
fn lets_through(left: &AtomicU64) -> bool {
    left.fetch_update(Ordering::SeqCst, Ordering::SeqCst, |count| {
        count.checked_sub(1)
    })
    .is_ok()
}

unsafe impl<B: Allocator> Allocator for Sparing<B> {
    ghost dealloc_token = { λ heap ty ptr. B.dealloc_token heap.inner ty ptr };

    fn allocate(&self, size: usize, align: usize) -> Result<*mut u8, AllocError> {
        if lets_through(&self.left) {
            return self.inner.allocate(size, align);
        }
        Err(AllocError)
    }

    unsafe fn deallocate(&self, ptr: *mut u8, size: usize, align: usize) {
        self.inner.deallocate(ptr, size, align);
    }
}
