//! The loads on which the tries rest: of the state word, and for a look of the top's next word,
//! too.
ghost use Rattle.std.specs.Prelude.{◌≡◌, ◌≢◌, Some, None, IsSome};
ghost use Rattle.std.specs.Option.{ForSome};

use crate::count::Count;
use crate::kind::Kind;
use crate::plays::{Looks, Reads};
use crate::rule::{STATE, next_word_of};
use crate::seat::Seat;
use event_word::{NOBODY, PRE_WAITER};
use std::alloc::Allocator;

impl<K: Kind, A: Allocator> Count<K, A> {
    ghost use Rattle.event_word.specs.Fields.{fields_of};
    ghost use Rattle.event_word.specs.Word.{nobody};
    ghost use Rattle.event_count.specs.Gains.{loading, reading, IsRead, IsLook, Fits, IsHeard};
    ghost use Rattle.event_count.specs.Seats.{card_of, looked_of, row_sizes_of, IsSeatOf};

    /// Loads the state word, and keeps it in the seat until a step uses it up. If somebody is on
    /// the stack, loads and keeps the top's next word, too. At a count with rows, this look counts
    /// as a notification of all if the seat is to notify and finds nobody to notify.
    pub fn look(&self, seat: &mut Seat) -> u64
        requires of { IsSeatOf self.now seat.old }
        ensures of { IsSeatOf self.now seat.new }
        ensures looked { looked_of seat.new ≡ Some result }
        ensures card { IsLook K.rowed (card_of seat.old) result (card_of seat.new) }
    {
        let word = self.load_state(seat);
        self.load_top(seat, word);
        seat.looked = Some(word);
        word
    }

    /// Loads the next word of the looked word's top, if there is a top.
    fn load_top(&self, seat: &mut Seat, word: u64)
        requires of { IsSeatOf self.now seat.old }
        requires looked { (card_of seat.old).looked ≡ word }
        requires fits { Fits (card_of seat.old) word }
        requires heard { IsHeard (card_of seat.old) word }
        requires used { looked_of seat.old ≡ None }
        ensures of { IsSeatOf self.now seat.new }
        ensures used { looked_of seat.new ≡ None }
        ensures looked { (card_of seat.new).looked ≡ word }
        ensures fits { Fits (card_of seat.new) word }
        ensures heard { IsHeard (card_of seat.new) word }
        ensures reads { (fields_of word).top ≢ nobody → IsSome seat.new.next }
        ensures card { IsRead (card_of seat.old) word (card_of seat.new) }
    {
        if word % PRE_WAITER != NOBODY {
            self.load_next(seat, word);
        }
    }

    /// Loads and returns the state word. A step that pops no seat needs nothing more.
    pub(crate) fn load_state(&self, seat: &mut Seat) -> u64
        requires of { IsSeatOf self.now seat.old }
        ensures of { IsSeatOf self.now seat.new }
        ensures card { card_of seat.new ≡ loading K.rowed (card_of seat.old) result }
        ensures looked { (card_of seat.new).looked ≡ result }
        ensures fits { Fits (card_of seat.new) result }
        ensures heard { IsHeard (card_of seat.new) result }
        ensures used { looked_of seat.new ≡ None }
    {
        let word = self.table.shared.load::<Looks<K>>(&mut seat.seat, STATE);
        seat.looked = None;
        seat.next = None;
        word
    }

    /// Loads the next word of the looked word's top.
    fn load_next(&self, seat: &mut Seat, word: u64)
        requires of { IsSeatOf self.now seat.old }
        requires looked { (card_of seat.old).looked ≡ word }
        requires fits { Fits (card_of seat.old) word }
        requires there { (fields_of word).top ≢ nobody }
        requires used { looked_of seat.old ≡ None }
        ensures of { IsSeatOf self.now seat.new }
        ensures used { looked_of seat.new ≡ None }
        ensures read { IsSome seat.new.next }
        ensures card { ForSome seat.new.next (λ next.
            card_of seat.new ≡ reading (card_of seat.old) next) }
    {
        let place = next_word_of((word % PRE_WAITER) as u32);
        let next = self.table.shared.load::<Reads>(&mut seat.seat, place);
        seat.next = Some(next);
    }
}
