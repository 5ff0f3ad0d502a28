//! A parallel map: the square of each number of a list. `parallel_for/CALLING.md` quotes it.
ghost use Rattle.std.specs.Prelude.{◌≡◌, ◌*◌, IfOk, length, map};

use parallel_for::{ForFault, Kernel, Setup, parallel_for};
use std::alloc::{AllocError, Allocator, Global};
use std::sync::Wait;
use std::thread::Threads;

/// A kernel whose item at a place is the square of the number there.
#[derive(Drop)]
struct Squares<'a> {
    numbers: &'a [u32],
}

impl<'a> Kernel for Squares<'a> {
    ghost use Rattle.std.specs.Prelude.{◌*◌, length, slice_index};

    type Item = u64;

    ghost size = { λ kernel. length kernel.numbers.now };

    ghost item_at = { λ kernel place.
        slice_index kernel.numbers.now place * slice_index kernel.numbers.now place };

    fn fill<A: Allocator>(
        &self,
        alloc: A,
        first: u64,
        last: u64,
    ) -> Result<Vec<u64, A>, AllocError> {
        let mut squares = Vec::with_capacity(alloc, (last - first) as usize)?;
        for place in first..last {
            let number = u64::from(self.numbers[place as usize]);
            squares.push_reserved(number * number);
        }
        Ok(squares)
    }
}

/// Returns the squares of the numbers, in order. The workers of the setup compute them, `block`
/// numbers at a time.
pub fn squares_of<RT: Threads + Wait + Sync>(
    rt: &RT,
    alloc: Global,
    setup: &Setup,
    numbers: &[u32],
    block: u64,
) -> Result<Vec<u64>, ForFault>
    ensures { IfOk result (λ squares. squares.items ≡ map (λ n. n * n) numbers.now) }
{
    let kernel = Squares { numbers };
    let squares = parallel_for(rt, alloc, setup, &kernel, numbers.len() as u64, block)?;
    Ok(squares)
}
