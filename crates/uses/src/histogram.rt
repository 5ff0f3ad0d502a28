//! A parallel histogram: how often each byte stands in a text. `parallel_for/CALLING.md` quotes it.
ghost use Rattle.std.specs.Prelude.{◌≡◌, ◌+◌, ◌%◌, ◌^◌, ◌<◌, ℕ, IfOk, IsErrOf};
ghost use Rattle.std.specs.Prelude.{length, slice_index, sum_by};
ghost use Rattle.parallel_for.specs.Leaves.{blocks_of};
ghost use Rattle.uses.specs.Counts.{counts_of, part_of};

use parallel_for::{ForFault, Kernel, Setup, blocks, parallel_for};
use std::alloc::{AllocError, Allocator, Global};
use std::sync::Wait;
use std::thread::Threads;

/// A kernel whose item at place i has the byte counts of part i of the text.
#[derive(Drop)]
struct Parts<'a> {
    text: &'a [u8],
    part_length: u64,
    ghost some: { 0 < part_length },
}

impl<'a> Kernel for Parts<'a> {
    ghost use Rattle.std.specs.Prelude.{length};
    ghost use Rattle.parallel_for.specs.Leaves.{blocks_of};
    ghost use Rattle.uses.specs.Counts.{counts_of, part_of};

    type Item = [u64; 256];

    ghost size = { λ kernel. blocks_of (length kernel.text.now) kernel.part_length };

    ghost item_at = { λ kernel i. counts_of (part_of kernel.text.now kernel.part_length i) };

    fn fill<A: Allocator>(
        &self,
        alloc: A,
        first: u64,
        last: u64,
    ) -> Result<Vec<[u64; 256], A>, AllocError> {
        let mut filled = Vec::with_capacity(alloc, (last - first) as usize)?;
        for i in first..last {
            filled.push_reserved(counted(part_at(self.text, self.part_length, i)));
        }
        Ok(filled)
    }
}

/// Returns part i of the text.
fn part_at(text: &[u8], part_length: u64, i: u64) -> &[u8]
    requires some { 0 < part_length }
    requires inside { i < blocks_of (length text.now) part_length }
    ensures { result.now ≡ part_of text.now part_length i }
{
    let rest = &text[(i * part_length) as usize..];
    &rest[..rest.len().min(part_length as usize)]
}

/// Counts how often each byte stands in the text.
fn counted(text: &[u8]) -> [u64; 256]
    ensures { result ≡ counts_of text.now }
{
    let mut counts = [0u64; 256];
    for byte in text {
        counts[usize::from(*byte)] += 1;
    }
    counts
}

/// Adds counts to the totals, modulo 2^64.
fn add(total: &mut [u64; 256], counts: &[u64; 256])
    ensures all { length total.new ≡ 256 }
    ensures sums { (b : ℕ) → b < 256 → slice_index total.new b
        ≡ (slice_index total.old b + slice_index counts.now b) % 2 ^ 64 }
{
    for byte in 0..256 {
        total[byte] = total[byte].wrapping_add(counts[byte]);
    }
}

/// Adds up the counts of all parts, modulo 2^64.
fn added(parts: &[[u64; 256]]) -> [u64; 256]
    ensures all { length result ≡ 256 }
    ensures sums { (b : ℕ) → b < 256 → slice_index result b
        ≡ sum_by (λ part. slice_index part b) parts.now % 2 ^ 64 }
{
    let mut total = [0u64; 256];
    for part in parts {
        add(&mut total, part);
    }
    total
}

/// Counts how often each byte stands in the text. The text is cut into parts of `part_length`
/// bytes, and each part is counted on some worker. The fault is `BadBlock` if `part_length` is 0.
pub fn histogram<RT: Threads + Wait + Sync>(
    rt: &RT,
    alloc: Global,
    setup: &Setup,
    text: &[u8],
    part_length: u64,
) -> Result<[u64; 256], ForFault>
    ensures counts { IfOk result (λ counts. counts ≡ counts_of text.now) }
    ensures bad_block { part_length ≡ 0 → IsErrOf result ForFault.BadBlock }
{
    if part_length == 0 {
        return Err(ForFault::BadBlock);
    }
    let kernel = Parts { text, part_length };
    let parts = blocks(text.len() as u64, part_length);
    let counts = parallel_for(rt, alloc, setup, &kernel, parts, 1)?;
    Ok(added(&counts))
}
