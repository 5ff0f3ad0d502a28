//! The looks of a waiter between its prewait and its commit, at rows and at the stop word; and the
//! stop. A commit at a count with rows requires what these calls promise (`HasPassed`).
ghost use Rattle.std.specs.Prelude.{◌≡◌, ◌<◌, [], true, false, None};
ghost use Rattle.event_word.specs.declared.phase.Phase.TheVariants.{Running, Pre};

use crate::answers::PassAll;
use crate::count::Count;
use crate::kind::Rowed;
use crate::rows::plays::{Measures, Passes, PassesFlag, Stops};
use crate::rule::{STOP, row_word_of};
use crate::seat::Seat;
use std::alloc::Allocator;

impl<A: Allocator> Count<Rowed, A> {
    ghost use Rattle.event_count.specs.Seats.{card_of, looked_of, row_sizes_of, IsSeatOf};
    ghost use Rattle.event_count.specs.Kinds.{has_passed_row};
    ghost use Rattle.event_count.specs.Rows.Gains.{passing, measuring};
    ghost use Rattle.event_count.specs.Rows.Calls.{IsPassFlag, IsStop, IsAfterPasses, IsPassAll};

    /// Returns how many jobs the row has. This look passes nothing: a seat that wants to wait calls
    /// `pass`.
    pub fn length(&self, seat: &mut Seat, row: u16) -> u64
        requires of { IsSeatOf self.now seat.old }
        requires row { row < (row_sizes_of self.now).rows }
        ensures of { IsSeatOf self.now seat.new }
        ensures used { looked_of seat.new ≡ None }
        ensures card { card_of seat.new ≡ measuring (card_of seat.old) row result }
    {
        let word = row_word_of(self.lines(), row);
        seat.looked = None;
        self.table.shared.load::<Measures>(&mut seat.seat, word)
    }

    /// Returns how many jobs a pre-waiter finds in the row. If there are none, it has passed the
    /// row.
    pub fn pass(&self, seat: &mut Seat, row: u16) -> u64
        requires of { IsSeatOf self.now seat.old }
        requires row { row < (row_sizes_of self.now).rows }
        requires pre { (card_of seat.old).phase ≡ Pre }
        ensures of { IsSeatOf self.now seat.new }
        ensures used { looked_of seat.new ≡ None }
        ensures card { card_of seat.new ≡ passing (card_of seat.old) row result }
        ensures passed { result ≡ 0 → has_passed_row (card_of seat.new) row ≡ true }
    {
        let place = row_word_of(self.lines(), row);
        seat.looked = None;
        self.table.shared.load::<Passes>(&mut seat.seat, place)
    }

    /// Returns whether a pre-waiter finds that nobody has stopped the count. If so, it has passed
    /// the flag.
    pub fn pass_flag(&self, seat: &mut Seat) -> bool
        requires of { IsSeatOf self.now seat.old }
        requires pre { (card_of seat.old).phase ≡ Pre }
        ensures of { IsSeatOf self.now seat.new }
        ensures used { looked_of seat.new ≡ None }
        ensures card { IsPassFlag (card_of seat.old) result (card_of seat.new) }
    {
        seat.looked = None;
        let found = self.table.shared.load::<PassesFlag>(&mut seat.seat, STOP);
        found == 0
    }

    /// Looks at the stop word and then at each row, up to the first that shows a stop or jobs. The
    /// seat may commit if it has passed all of them.
    pub fn pass_all(&self, seat: &mut Seat) -> PassAll
        requires of { IsSeatOf self.now seat.old }
        requires pre { (card_of seat.old).phase ≡ Pre }
        ensures of { IsSeatOf self.now seat.new }
        ensures used { looked_of seat.new ≡ None }
        ensures same { IsAfterPasses (card_of seat.old) (card_of seat.new) }
        ensures answer { IsPassAll (row_sizes_of self.now).rows (card_of seat.old) result
            (card_of seat.new) }
    {
        if !self.pass_flag(seat) {
            return PassAll::Stopped;
        }
        for row in 0..self.sizes.rows {
            if self.pass(seat, row) != 0 {
                return PassAll::Jobs(row);
            }
        }
        PassAll::Passed
    }

    /// Stops the count: from now on nobody passes the flag. Returns whether this call stopped it.
    /// If so, the seat has to notify all afterwards.
    pub fn stop(&self, seat: &mut Seat) -> bool
        requires of { IsSeatOf self.now seat.old }
        requires running { (card_of seat.old).phase ≡ Running }
        requires owes_none { (card_of seat.old).owing ≡ [] }
        requires silent { (card_of seat.old).announcing ≡ false }
        ensures of { IsSeatOf self.now seat.new }
        ensures used { looked_of seat.new ≡ None }
        ensures card { IsStop (card_of seat.old) result (card_of seat.new) }
    {
        seat.looked = None;
        let found = self
            .table
            .shared
            .compare_exchange::<Stops>(&mut seat.seat, STOP, 0, 1);
        found == 0
    }
}
