//! Unparks: how a notifier gives an owed seat its token, and how that seat takes it.
ghost use Rattle.std.specs.Prelude.{◌≡◌, ◌<◌, ◌↔◌, [], true, Some, None, IfNone, MatchBool};
ghost use Rattle.std.specs.Option.{ForSome};
ghost use Rattle.event_word.specs.declared.phase.Phase.TheVariants.{Stacked};

use crate::count::Count;
use crate::kind::Kind;
use crate::plays::{Follows, Unparks, Wakes};
use crate::rule::{next_word_of, parker_word_of};
use crate::seat::Seat;
use crate::woken::Woken;
use event_word::{NOBODY, PRE_WAITER, Phase};
use std::alloc::Allocator;

impl<K: Kind, A: Allocator> Count<K, A> {
    ghost use Rattle.event_count.specs.Gains.{foremost, behind, first_of};
    ghost use Rattle.event_count.specs.Gains.{polling, unparking, waking};
    ghost use Rattle.event_count.specs.Cards.{card_in};
    ghost use Rattle.event_count.specs.Places.{parker_place};
    ghost use Rattle.event_count.specs.Seats.{card_of, looked_of, IsSeatOf};

    /// Unparks the first seat to which this seat owes an unpark, and returns it. None if it owes
    /// none.
    ///
    /// An unpark is one store in the owed seat's parker word, which gives it its token, and one
    /// system call, which wakes its thread if it sleeps there. The call is always made, because the
    /// word says only whether there is a token, and not whether anybody sleeps. If more seats may
    /// be owed, a load before the store finds the next of them: once the owed seat has its token,
    /// it may run and store another next word.
    pub fn try_unpark_next(&self, seat: &mut Seat) -> Option<u16>
        requires of { IsSeatOf self.now seat.old }
        ensures of { IsSeatOf self.now seat.new }
        ensures used { looked_of seat.new ≡ None }
        ensures none { result ≡ None ↔ (card_of seat.old).owing ≡ [] }
        ensures same { IfNone result (card_of seat.new ≡ card_of seat.old) }
        ensures first { ForSome result (λ other. foremost (card_of seat.old).owing ≡ other) }
        ensures card { ForSome result (λ _. card_of seat.new ≡ unparking (card_of seat.old)) }
    {
        seat.looked = None;
        let Some(other) = seat.owed else {
            return None;
        };
        let after = if seat.linked {
            self.load_after(seat, other)
        } else {
            None
        };
        self.unpark(seat, other, after);
        Some(other)
    }

    /// Returns the owed seat behind the first one, if any.
    fn load_after(&self, seat: &mut Seat, other: u16) -> Option<u16>
        requires of { IsSeatOf self.now seat.old }
        requires used { looked_of seat.old ≡ None }
        requires first { seat.old.owed ≡ Some other }
        requires linked { (card_of seat.old).linked ≡ true }
        ensures seat { seat.new ≡ seat.old }
        ensures after { result ≡ first_of (behind (card_of seat.old).owing) }
        ensures known { ForSome result (λ n. n < seat.old.waiters) }
    {
        let place = next_word_of(u32::from(other));
        let next = self.table.shared.load::<Follows>(&mut seat.seat, place);
        let top = next % PRE_WAITER;
        if top == NOBODY {
            None
        } else {
            Some(top as u16)
        }
    }

    /// Gives the first owed seat its token, and then wakes its thread. `after` is the owed seat
    /// behind it.
    fn unpark(&self, seat: &mut Seat, other: u16, after: Option<u16>) -> Woken
        requires of { IsSeatOf self.now seat.old }
        requires used { looked_of seat.old ≡ None }
        requires first { seat.old.owed ≡ Some other }
        requires after { after ≡ first_of (behind (card_of seat.old).owing) }
        requires known { ForSome after (λ n. n < seat.old.waiters) }
        ensures of { IsSeatOf self.now seat.new }
        ensures used { looked_of seat.new ≡ None }
        ensures card { card_of seat.new ≡ unparking (card_of seat.old) }
        ensures place { result.place.value ≡ parker_place other }
        ensures woken { card_in result.seat.value.me.0 ≡ unparking (card_of seat.old) }
    {
        let place = parker_word_of(u32::from(other));
        self.table.shared.store::<Unparks>(&mut seat.seat, place, 1);
        let woken = Woken::at(&self.table.shared, place, &seat.seat);
        seat.owed = after;
        woken
    }

    /// Takes the stacked seat's token. Returns false if it has not been unparked.
    pub fn try_take_token(&self, seat: &mut Seat) -> bool
        requires of { IsSeatOf self.now seat.old }
        requires stacked { (card_of seat.old).phase ≡ Stacked }
        ensures of { IsSeatOf self.now seat.new }
        ensures used { looked_of seat.new ≡ None }
        ensures card { MatchBool result (card_of seat.new ≡ waking (polling (card_of seat.old)))
            (card_of seat.new ≡ polling (card_of seat.old)) }
    {
        seat.looked = None;
        let place = parker_word_of(seat.number);
        let found = self.table.shared.swap::<Wakes>(&mut seat.seat, place, 0);
        if found == 0 {
            return false;
        }
        seat.phase = Phase::Running;
        true
    }
}
