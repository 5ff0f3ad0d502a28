//! `Count`: how an event count is made and closed. A count alone and a count with rows are its two
//! kinds. The fields of `Count` here are read by all calls of the crate.
ghost use Rattle.std.specs.Prelude.{◌≡◌, ◌+◌, ◌<◌, ◌≤◌, ◌↔◌, true, false, map, All, vec_len, IfOk};
ghost use Rattle.std.specs.Prelude.{IsErrOf};
ghost use Rattle.event_word.specs.Step.{row_limit};
ghost use Rattle.event_count.specs.Limits.{most_waiters, epoch_limit};
ghost use Rattle.event_count.specs.Places.{words_for};
ghost use Rattle.event_count.specs.Cards.{opening_cards, fresh_cards, rowless, sizes_in};
ghost use Rattle.event_count.specs.Tickets.{credits_for};

use crate::fault::CountFault;
use crate::gathering::gather;
use crate::kind::{Alone, Kind, Rowed};
use crate::opening::{deal_all, opening_words, room_for_seats};
use crate::plays::Arrives;
use crate::rule::{Law, MOST_WAITERS, RowSizes, STATE};
use crate::seat::Seat;
use crate::view::View;
use atomic_table::Table;
use std::alloc::{AllocError, Allocator, Global};
use std::marker::PhantomData;

/// An event count as in Eigen's `EventCount.h`: a packed word, and a line of words for each waiter,
/// by which threads wait for one another. Its kind says whether it has rows, too.
///
/// Every call is made through a seat, and one thread at a time uses a seat.
#[derive(Drop)]
pub struct Count<K: Kind, A: Allocator = Global> {
    pub(crate) table: Table<(), View, RowSizes, Law, A>,
    pub(crate) sizes: RowSizes,
    kind: PhantomData<K>,
    ghost words: { table.shared.table_id.words
        ≡ words_for (table.shared.key.waiters + table.shared.key.rows) },
    ghost slotless: { table.shared.table_id.slots ≡ 0 },
    ghost few: { table.shared.key.waiters ≤ most_waiters },
    ghost kept: { table.shared.key ≡ sizes },
    ghost alone: { K.rowed ≡ false → table.shared.key ≡ rowless (sizes_in table.shared.key) },
    ghost some: { K.rowed ≡ true → 0 < sizes.rows },
}

/// An event count without rows.
pub type EventCount<A = Global> = Count<Alone, A>;

/// An event count whose table also has the lengths of rows of jobs, and a stop word. A waiter
/// sleeps only if it has found each row empty and no stop since its prewait. A seat that publishes
/// a job or stops the count has to notify afterwards.
///
/// The jobs lie elsewhere, each with the ticket that its publish returned.
pub type RowCount<A = Global> = Count<Rowed, A>;

impl<K: Kind, A: Allocator> Count<K, A> {
    ghost use Rattle.event_count.specs.Seats.{card_of, row_sizes_of, seats_of, IsSeatOf};
    ghost use Rattle.event_count.specs.Seats.{IsIdle, HasNoLook};
    ghost use Rattle.event_count.specs.Rows.Ending.{EndsRows};

    /// Returns a count of these sizes and its seats, by number.
    pub(crate) fn with_sizes(
        alloc: A,
        sizes: &RowSizes,
    ) -> Result<(Count<K, A>, Vec<Seat, A>), AllocError>
    where
        A: Clone,
        requires alone { K.rowed ≡ false → sizes.now ≡ rowless (sizes_in sizes.now) }
        requires some { K.rowed ≡ true → 0 < sizes.now.rows }
        requires few { sizes.now.waiters ≤ most_waiters }
        requires first { sizes.now.first < epoch_limit }
        requires few_credits { credits_for sizes.now ≤ row_limit }
        requires few_each { sizes.now.credits ≤ row_limit }
        ensures sizes { IfOk result (λ made. row_sizes_of made.0 ≡ sizes.now) }
        ensures cards { IfOk result (λ made.
            map card_of made.1.items ≡ opening_cards sizes.now) }
        ensures many { IfOk result (λ made.
            vec_len made.1 ≡ sizes.now.waiters + sizes.now.notifiers) }
        ensures idle { IfOk result (λ made. All IsIdle made.1.items) }
        ensures unlooked { IfOk result (λ made. All HasNoLook made.1.items) }
        ensures ours { IfOk result (λ made. All (IsSeatOf made.0) made.1.items) }
    {
        let words = opening_words(&alloc, sizes)?;
        let mut seats = room_for_seats(&alloc, sizes)?;
        let (table, mut keeper) = Table::of_words(alloc, &words, sizes)?;
        deal_all(&table.shared, &mut keeper, sizes, &mut seats);
        let count = Count {
            table,
            sizes: *sizes,
            kind: PhantomData,
        };
        Ok((count, seats))
    }

    /// Closes the count and returns the last state word. Takes all seats out of the list.
    pub(crate) fn close_with<B: Allocator>(self, seats: &mut Vec<Seat, B>) -> u64
        requires ours { All (IsSeatOf self) seats.old.items }
        requires all { vec_len seats.old ≡ seats_of self }
        requires idle { All IsIdle seats.old.items }
        ensures word { result ≡ 0x3FFF }
        ensures ends { EndsRows (row_sizes_of self) (map card_of seats.old.items) }
    {
        let Count { table, .. } = self;
        let (_, mut keeper) = table.shared.load_new_seat::<Arrives>(STATE);
        gather(&table.shared, &mut keeper, seats);
        let closed = table.close_with(keeper);
        let word = closed.word(STATE);
        closed.free();
        word
    }
}

impl<A: Allocator> Count<Alone, A> {
    ghost use Rattle.event_count.specs.Seats.{card_of, sizes_of, seats_of, IsSeatOf};
    ghost use Rattle.event_count.specs.Seats.{IsIdle, HasNoLook};
    ghost use Rattle.event_count.specs.Counts.{Ends};

    /// Returns a count and its seats, by number: the waiters first, then the notifiers. Too many
    /// waiters are reported before an allocation fails.
    pub fn new(
        alloc: A,
        waiters: u16,
        notifiers: u16,
    ) -> Result<(EventCount<A>, Vec<Seat, A>), CountFault>
    where
        A: Clone,
        ensures too_many { IsErrOf result CountFault.TooManyWaiters ↔ (most_waiters < waiters) }
        ensures sizes { IfOk result (λ made.
            sizes_of made.0 ≡ record { waiters = waiters; notifiers = notifiers; first = 0 }) }
        ensures cards { IfOk result (λ made.
            map card_of made.1.items ≡ fresh_cards (sizes_of made.0)) }
        ensures many { IfOk result (λ made. vec_len made.1 ≡ waiters + notifiers) }
        ensures idle { IfOk result (λ made. All IsIdle made.1.items) }
        ensures unlooked { IfOk result (λ made. All HasNoLook made.1.items) }
        ensures ours { IfOk result (λ made. All (IsSeatOf made.0) made.1.items) }
    {
        EventCount::new_at(alloc, waiters, notifiers, 0)
    }

    /// Does what `new` does, with the given epoch for each seat's first push.
    pub fn new_at(
        alloc: A,
        waiters: u16,
        notifiers: u16,
        epoch: u32,
    ) -> Result<(EventCount<A>, Vec<Seat, A>), CountFault>
    where
        A: Clone,
        requires { epoch < epoch_limit }
        ensures too_many { IsErrOf result CountFault.TooManyWaiters ↔ (most_waiters < waiters) }
        ensures sizes { IfOk result (λ made.
            sizes_of made.0 ≡ record { waiters = waiters; notifiers = notifiers; first = epoch }) }
        ensures cards { IfOk result (λ made.
            map card_of made.1.items ≡ fresh_cards (sizes_of made.0)) }
        ensures many { IfOk result (λ made. vec_len made.1 ≡ waiters + notifiers) }
        ensures idle { IfOk result (λ made. All IsIdle made.1.items) }
        ensures unlooked { IfOk result (λ made. All HasNoLook made.1.items) }
        ensures ours { IfOk result (λ made. All (IsSeatOf made.0) made.1.items) }
    {
        if waiters > MOST_WAITERS {
            return Err(CountFault::TooManyWaiters);
        }
        let sizes = RowSizes {
            waiters,
            notifiers,
            first: epoch,
            rows: 0,
            credits: 0,
        };
        let made = Count::with_sizes(alloc, &sizes)?;
        Ok(made)
    }

    /// Closes the count, given all its seats, and returns the last state word, in which nobody
    /// waits. What the seats did is one history, in which each waiter was pushed, taken off the
    /// stack, unparked and woken equally often.
    pub fn close<B: Allocator>(self, mut seats: Vec<Seat, B>) -> u64
        requires ours { All (IsSeatOf self) seats.items }
        requires all { vec_len seats ≡ seats_of self }
        requires idle { All IsIdle seats.items }
        ensures word { result ≡ 0x3FFF }
        ensures ends { Ends (sizes_of self) (map card_of seats.items) }
    {
        self.close_with(&mut seats)
    }
}
