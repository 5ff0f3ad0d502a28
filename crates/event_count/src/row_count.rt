//! `RowCount`: how an event count with rows of jobs and a stop word is made and closed. What holds
//! at its end is in `specs/Rows/Ending.antt`.
ghost use Rattle.std.specs.Prelude.{◌≡◌, ◌+◌, ◌<◌, ◌≤◌, ◌↔◌, map, All, vec_len, IfOk, IsErrOf};
ghost use Rattle.event_word.specs.Step.{row_limit};
ghost use Rattle.event_count.specs.Limits.{most_waiters, epoch_limit};
ghost use Rattle.event_count.specs.Cards.{opening_cards};
ghost use Rattle.event_count.specs.Tickets.{credits_for};

use crate::count::{Count, RowCount};
use crate::fault::RowFault;
use crate::kind::Rowed;
use crate::rule::{MOST_CREDITS, MOST_WAITERS, RowSizes};
use crate::seat::Seat;
use std::alloc::Allocator;

/// Returns the number of the credits of all seats together.
fn all_credits(sizes: &RowSizes) -> u64
    ensures { result ≡ credits_for sizes.now }
{
    (u64::from(sizes.waiters) + u64::from(sizes.notifiers)) * u64::from(sizes.credits)
}

impl<A: Allocator> Count<Rowed, A> {
    ghost use Rattle.event_count.specs.Seats.{card_of, row_sizes_of, seats_of, IsSeatOf};
    ghost use Rattle.event_count.specs.Seats.{IsIdle, HasNoLook};
    ghost use Rattle.event_count.specs.Rows.Seats.{IsSilent};
    ghost use Rattle.event_count.specs.Rows.Ending.{EndsRows};

    /// Returns a count of these sizes and its seats, by number: the waiters first, then the
    /// notifiers. Each seat begins with its credits. Too many waiters are reported before too many
    /// credits, and both before an allocation fails.
    pub fn new(alloc: A, sizes: &RowSizes) -> Result<(RowCount<A>, Vec<Seat, A>), RowFault>
    where
        A: Clone,
        requires waiters { 0 < sizes.now.waiters }
        requires rows { 0 < sizes.now.rows }
        requires first { sizes.now.first < epoch_limit }
        ensures too_many_waiters { IsErrOf result RowFault.TooManyWaiters
            ↔ (most_waiters < sizes.now.waiters) }
        ensures too_many_credits { IsErrOf result RowFault.TooManyCredits
            ↔ ((sizes.now.waiters ≤ most_waiters) × (row_limit < credits_for sizes.now)) }
        ensures sizes { IfOk result (λ made. row_sizes_of made.0 ≡ sizes.now) }
        ensures cards { IfOk result (λ made.
            map card_of made.1.items ≡ opening_cards sizes.now) }
        ensures many { IfOk result (λ made.
            vec_len made.1 ≡ sizes.now.waiters + sizes.now.notifiers) }
        ensures idle { IfOk result (λ made. All IsIdle made.1.items) }
        ensures unlooked { IfOk result (λ made. All HasNoLook made.1.items) }
        ensures silent { IfOk result (λ made. All IsSilent made.1.items) }
        ensures ours { IfOk result (λ made. All (IsSeatOf made.0) made.1.items) }
    {
        if sizes.waiters > MOST_WAITERS {
            return Err(RowFault::TooManyWaiters);
        }
        if all_credits(sizes) > MOST_CREDITS {
            return Err(RowFault::TooManyCredits);
        }
        let made = Count::with_sizes(alloc, sizes)?;
        Ok(made)
    }

    /// Closes the count, given all its seats, and returns the last state word, in which nobody
    /// waits. What the seats did is one history, as for a count alone. A caller that has all
    /// credits back knows that all rows are empty.
    pub fn close<B: Allocator>(self, mut seats: Vec<Seat, B>) -> u64
        requires ours { All (IsSeatOf self) seats.items }
        requires all { vec_len seats ≡ seats_of self }
        requires idle { All IsIdle seats.items }
        ensures word { result ≡ 0x3FFF }
        ensures ends { EndsRows (row_sizes_of self) (map card_of seats.items) }
    {
        self.close_with(&mut seats)
    }

    /// Returns how many lines of words the waiters and rows have together.
    pub(crate) fn lines(&self) -> usize
        ensures sum { result ≡ (row_sizes_of self.now).waiters + (row_sizes_of self.now).rows }
        ensures few { result ≤ 131070 }
    {
        usize::from(self.sizes.waiters) + usize::from(self.sizes.rows)
    }
}
