//! Memory that rows allocate when they are opened.
ghost use Rattle.std.specs.Prelude.{◌≡◌, [], vec_capacity, IfOk};

use std::alloc::{AllocError, Allocator};

/// Returns an empty list with room for `len` elements.
pub(crate) fn room_for<T, A: Allocator + Clone>(
    alloc: &A,
    len: usize,
) -> Result<Vec<T, A>, AllocError>
    ensures items { IfOk result (λ list. list.items ≡ []) }
    ensures exact { IfOk result (λ list. vec_capacity list ≡ len) }
{
    Vec::with_capacity(alloc.clone()?, len)
}
