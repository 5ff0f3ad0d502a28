//! Walks: the order in which a thief looks at rows, from a random row on by a random step.
//! `specs/Walk.antt` states this order, and callers prove with it that they looked everywhere.

ghost use Rattle.std.specs.Prelude.{◌≡◌, ℕ, ◌+◌, ◌-◌, ◌*◌, ◌/◌, ◌^◌, ◌<◌};
ghost use Rattle.std.specs.Prelude.{List, [], ◌∷◌, length};
ghost use Rattle.std.specs.Iterator.{YieldsFirst, item_count};
ghost use Rattle.steal_walk.specs.Walk.{rows_of, walk_of, IsOnCourse, VisitsEachOnce};

use crate::coprimes::Coprimes;
use std::alloc::Allocator;
use std::iter::{ExactSizeIterator, FusedIterator};
use std::marker::Model;

/// A walk over the rows of a range, each once, in the order in which a thief tries them. It
/// allocates nothing. Clauses see it as the list of the rows that are left.
#[derive(Clone, Debug, Drop)]
pub struct Walk {
    start: u32,
    size: u32,
    // The next row, counted from the start.
    place: u32,
    step: u32,
    // How many rows are left.
    left: u32,
}

impl Model for Walk {
    ghost Value = { List ℕ };

    ghost view = { λ w. rows_of w.start w.size w.place w.step w.left };

    ghost invariant = { λ w. IsOnCourse w.start w.size w.place w.step };
}

impl Walk {
    /// Returns the walk over the rows `start..limit` that a random word picks. The word picks both
    /// the first row and the step: each lies as far along its list as the word lies among the words
    /// of 32 bits.
    pub fn of<A: Allocator>(word: u32, start: u32, limit: u32, coprimes: &Coprimes<A>) -> Walk
        requires order { start < limit }
        requires sized { coprimes.now ≡ limit - start }
        ensures rows { result ≡ walk_of word start limit }
        ensures once { VisitsEachOnce start limit result }
        ensures of_one { limit ≡ start + 1 → result ≡ start ∷ [] }
    {
        let size = limit - start;
        let steps = coprimes.numbers();
        let chosen = scaled(word, steps.len() as u32);
        Walk {
            start,
            size,
            place: scaled(word, size),
            step: steps[chosen as usize],
            left: size,
        }
    }
}

impl Iterator for Walk {
    type Item = u32;

    ghost next_gives = { YieldsFirst (λ rows. rows) };

    ghost remaining = { item_count (λ rows. rows) };

    fn next(&mut self) -> Option<u32> {
        if self.left == 0 {
            return None;
        }
        let row = self.start + self.place;
        // The sum of the place and the step may overflow 32 bits.
        let wraps_from = self.size - self.step;
        self.place = if self.place < wraps_from {
            self.place + self.step
        } else {
            self.place - wraps_from
        };
        self.left -= 1;
        Some(row)
    }

    fn size_hint(&self) -> (usize, Option<usize>)
        ensures exact { result ≡ (length self.now, Some (length self.now)) }
    {
        let left = self.left as usize;
        (left, Some(left))
    }
}

impl ExactSizeIterator for Walk {
    fn len(&self) -> usize {
        self.size_hint().0
    }
}

impl FusedIterator for Walk {}

/// Returns a number below `n`, as far along `0..n` as the word is among the words of 32 bits. This
/// is Eigen's way to reduce a random word to a range without a division.
fn scaled(word: u32, n: u32) -> u32
    requires { 0 < n }
    ensures place { result ≡ word * n / 2 ^ 32 }
    ensures below { result < n }
{
    ((u64::from(word) * u64::from(n)) >> 32) as u32
}
