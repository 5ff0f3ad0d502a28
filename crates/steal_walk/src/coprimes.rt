//! The numbers coprime to n: the steps of walks over n rows. `walk.rt` takes its steps from this
//! list, and `specs/Coprimes.antt` states which numbers it has.

ghost use Rattle.std.specs.Prelude.{◌≡◌, ℕ, ◌≤◌, [], ◌∷◌, IfOk};
ghost use Rattle.std.specs.Int.{IsGcd};
ghost use Rattle.steal_walk.specs.Coprimes.{coprimes_of, AreCoprimes};

use std::alloc::{AllocError, Allocator, Global};
use std::marker::Model;

/// The numbers of `1..=n` that are coprime to `n`. A walk by any of these steps reaches each of `n`
/// rows. Clauses see a `Coprimes` as `n`.
#[derive(Debug, Drop)]
pub struct Coprimes<A: Allocator = Global> {
    // The number n of rows.
    of: u32,
    numbers: Vec<u32, A>,
}

impl<A: Allocator> Model for Coprimes<A> {
    ghost Value = { ℕ };

    ghost view = { λ c. c.of };

    ghost invariant = { λ c. (1 ≤ c.of) × (c.numbers.items ≡ coprimes_of c.of) };
}

impl<A: Allocator> Coprimes<A> {
    /// Returns the numbers that are coprime to `n`. Allocates room for `n` numbers once, and
    /// returns an error if that fails.
    pub fn new(alloc: A, n: u32) -> Result<Coprimes<A>, AllocError>
        requires { 1 ≤ n }
        ensures { IfOk result (λ coprimes. coprimes ≡ n) }
    {
        let mut numbers = Vec::with_capacity(alloc, n as usize)?;
        for number in 1..=n {
            if gcd(number, n) == 1 {
                numbers.push_reserved(number);
            }
        }
        Ok(Coprimes { of: n, numbers })
    }

    /// Returns the numbers in ascending order, so 1 comes first.
    pub fn numbers(&self) -> &[u32]
        ensures listed { result.now ≡ coprimes_of self.now }
        ensures coprime { AreCoprimes self.now result.now }
        ensures of_one { self.now ≡ 1 → result.now ≡ 1 ∷ [] }
    {
        &self.numbers
    }
}

/// Returns the greatest common divisor of `a` and `b`.
fn gcd(a: u32, b: u32) -> u32
    ensures { IsGcd a b result }
{
    let mut x = a;
    let mut y = b;
    while y != 0 {
        let rest = x % y;
        x = y;
        y = rest;
    }
    x
}
