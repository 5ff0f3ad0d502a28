//! Credits flow back: a seat with many credits puts some into the bank, and a seat without credits
//! takes all that are there. `specs/Tickets.antt` counts the bank's credits with those of the
//! seats.
ghost use Rattle.std.specs.Prelude.{◌≡◌, ◌≤◌, None};

use crate::count::Count;
use crate::kind::Rowed;
use crate::rows::plays::{Deposits, Withdraws};
use crate::rule::BANK;
use crate::seat::Seat;
use std::alloc::Allocator;

impl<A: Allocator> Count<Rowed, A> {
    ghost use Rattle.event_count.specs.Seats.{card_of, looked_of, IsSeatOf};
    ghost use Rattle.event_count.specs.Rows.Gains.{depositing, withdrawing};

    /// Puts the given number of the seat's credits into the bank, for any seat to withdraw.
    pub fn deposit(&self, seat: &mut Seat, credits: u32)
        requires of { IsSeatOf self.now seat.old }
        requires credits { credits ≤ (card_of seat.old).credits }
        ensures of { IsSeatOf self.now seat.new }
        ensures used { looked_of seat.new ≡ None }
        ensures card { card_of seat.new ≡ depositing (card_of seat.old) credits }
    {
        let shared = &self.table.shared;
        shared.fetch_add::<Deposits>(&mut seat.seat, BANK, u64::from(credits));
        seat.looked = None;
        seat.credits -= credits;
    }

    /// Takes all credits out of the bank for the seat, and returns how many they were.
    pub fn withdraw(&self, seat: &mut Seat) -> u32
        requires of { IsSeatOf self.now seat.old }
        ensures of { IsSeatOf self.now seat.new }
        ensures used { looked_of seat.new ≡ None }
        ensures card { card_of seat.new ≡ withdrawing (card_of seat.old) result }
    {
        let shared = &self.table.shared;
        let found = shared.swap::<Withdraws>(&mut seat.seat, BANK, 0);
        seat.looked = None;
        let credits = found as u32;
        seat.credits += credits;
        credits
    }
}
