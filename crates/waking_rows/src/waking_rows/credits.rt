//! Credits flow back: a seat keeps few credits, and puts the others into the bank of the count, for
//! seats without credits. `specs/Credits.antt` repeats the two numbers.
ghost use Rattle.std.specs.Prelude.{◌≡◌};
ghost use Rattle.event_count.specs.Seats.{card_of, seat_id, IsIdle};
ghost use Rattle.event_count.specs.Rows.Seats.{IsSilent};
ghost use Rattle.waking_rows.specs.Credits.{saving, funds_of, GoesToBank, IsFunded};
ghost use Rattle.waking_rows.specs.Seats.{count_in};

use crate::waking_rows::WakingRows;
use event_count::Seat;
use std::alloc::Allocator;

/// A seat with more credits than this puts all but `KEPT` into the bank. The two numbers are apart,
/// so that a seat that puts and takes in turn seldom goes to the bank.
///
/// `on_one_count` opens more credits than full rows and all other seats can have. With 256 workers,
/// full rows have 262,144 of 1,048,576 credits. A seat that has taken a job keeps at most 1,024.
/// The seats that have not taken a job yet began with half of all credits together.
const MANY: u32 = 1024;

/// How many credits a seat keeps when it puts the others into the bank.
const KEPT: u32 = 512;

impl<J, A: Allocator> WakingRows<J, A> {
    /// Prepares a put: a seat without a credit takes all credits out of the bank, and puts its
    /// surplus back.
    pub(crate) fn fund(&self, seat: &mut Seat)
        requires ours { seat_id seat.old ≡ count_in self.now }
        requires idle { IsIdle seat.old }
        requires silent { IsSilent seat.old }
        ensures ours { seat_id seat.new ≡ seat_id seat.old }
        ensures idle { IsIdle seat.new }
        ensures silent { IsSilent seat.new }
        ensures card { IsFunded (card_of seat.old) (card_of seat.new) }
        ensures bank { GoesToBank (card_of seat.old).credits (card_of seat.old).book
            (card_of seat.new).book }
        ensures funds { (card_of seat.new).credits
            ≡ funds_of (card_of seat.old).credits (card_of seat.old).book (card_of seat.new).book }
    {
        if seat.credits() == 0 {
            self.count.withdraw(seat);
            self.save(seat);
        }
    }

    /// Puts the surplus of the seat's credits into the bank, if it has many.
    pub(crate) fn save(&self, seat: &mut Seat)
        requires ours { seat_id seat.old ≡ count_in self.now }
        ensures ours { seat_id seat.new ≡ seat_id seat.old }
        ensures card { card_of seat.new ≡ saving (card_of seat.old) }
    {
        let credits = seat.credits();
        if credits > MANY {
            self.count.deposit(seat, credits - KEPT);
        }
    }
}
