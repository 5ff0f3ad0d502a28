//! How a range is cut into blocks. `specs/Leaves` has the same arithmetic, and the jobs, the
//! barrier and the collector all rest on it.
ghost use Rattle.std.specs.Prelude.{◌≡◌, ◌+◌, ◌-◌, ◌<◌, ◌≤◌, ◌++◌, ◌↔◌, IfOk, IfSome};
ghost use Rattle.parallel_for.specs.Leaves.{blocks_of, leaves_of, middle};

use std::alloc::{AllocError, Allocator};

/// Returns how many blocks `n` places have. The last block may be shorter.
pub fn blocks(n: u64, block: u64) -> u64
    requires { 0 < block }
    ensures { result ≡ blocks_of n block }
{
    n.div_ceil(block)
}

/// Returns the place at which the range is cut in two, or `None` if it is a leaf. The lower part
/// has whole blocks only, so the leaves of the range are the leaves of both parts.
pub fn halve(first: u64, last: u64, block: u64) -> Option<u64>
    requires some { 0 < block }
    requires order { first ≤ last }
    ensures leaf { result ≡ None ↔ (last - first ≤ block) }
    ensures middle { IfSome result (λ mid. mid ≡ middle first last block) }
    ensures between { IfSome result (λ mid. (first < mid) × (mid < last)) }
    ensures leaves { IfSome result (λ mid.
        leaves_of first last block ≡ leaves_of first mid block ++ leaves_of mid last block) }
    ensures blocks { IfSome result (λ mid. blocks_of (last - first) block
        ≡ blocks_of (mid - first) block + blocks_of (last - mid) block) }
{
    if last - first <= block {
        return None;
    }
    Some(first + ((last - first) / 2).div_ceil(block) * block)
}

/// Returns the blocks of `n` places in order, each as its first place and the place after its last.
pub fn leaves<A: Allocator>(alloc: A, n: u64, block: u64) -> Result<Vec<(u64, u64), A>, AllocError>
    requires { 0 < block }
    ensures { IfOk result (λ list. list.items ≡ leaves_of 0 n block) }
{
    let count = blocks(n, block);
    let mut list = Vec::with_capacity(alloc, count as usize)?;
    for i in 0..count {
        let first = i * block;
        list.push_reserved((first, first + block.min(n - first)));
    }
    Ok(list)
}
