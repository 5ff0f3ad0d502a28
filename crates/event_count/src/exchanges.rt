//! The single steps of the tries: a store, and exchanges of the state word that expect a looked
//! word. `plays.rt` has the play of each step, and a change here is a change of its play.
ghost use Rattle.std.specs.Prelude.{◌≡◌, ◌≢◌, ◌<◌, ◌==◌, ℕ, [], Some, None, IsTrue, IsFalse};
ghost use mathlib.Core.Option.{none};
ghost use prog.Atomic.{either};
ghost use Rattle.atomic_table.specs.Table.{step, Allows};
ghost use Rattle.event_word.specs.declared.phase.Phase.TheVariants.{Running, Pre};

use crate::count::Count;
use crate::kind::Kind;
use crate::plays::{Cancels, Consumes, Exchanges, Gains, Pops, Pushes, Signals, Stores, TakesAll};
use crate::rule::{STATE, next_word_of};
use crate::seat::Seat;
use crate::view::View;
use event_word::{NOBODY, PRE_WAITER, Phase};
use std::alloc::Allocator;

impl<K: Kind, A: Allocator> Count<K, A> {
    ghost use Rattle.event_word.specs.Fields.{fields_of};
    ghost use Rattle.event_word.specs.Word.{nobody, below, cancelled, consumed, pushed};
    ghost use Rattle.event_word.specs.Word.{signalled, popped, all_notified};
    ghost use Rattle.event_count.specs.Limits.{epoch_limit};
    ghost use Rattle.event_count.specs.Cards.{exchange_of, only, card_in};
    ghost use Rattle.event_count.specs.Kinds.{MayCommit};
    ghost use Rattle.event_count.specs.Gains.{exchanging, storing, consuming, pushing};
    ghost use Rattle.event_count.specs.Gains.{cancelling, signalling, popping, Fits};
    ghost use Rattle.event_count.specs.Plays.{exchanges};
    ghost use Rattle.event_count.specs.Shown.{ShowsWorld};
    ghost use Rattle.event_count.specs.Seats.{card_of, looked_of, row_sizes_of, count_id, IsSeatOf};
    ghost use Rattle.event_count.specs.Tries.{Meets, MeetsAll};

    /// Exchanges the state word for the offered word if it is the wanted word. Returns whether it
    /// was.
    fn exchange<G: Gains>(
        &self,
        seat: &mut atomic_table::Seat<(), View>,
        wanted: u64,
        offered: u64,
    ) -> bool
        requires of { seat.old.table_id ≡ count_id self.now }
        requires allowed { Allows (ShowsWorld (row_sizes_of self.now)) (count_id self.now).slots
            seat.old.id seat.old.me STATE (λ word. either (word == wanted) offered word)
            (exchanges G.gain (step (count_id self.now).slots STATE wanted offered none)
            seat.old.me) }
        ensures of { seat.new.table_id ≡ seat.old.table_id }
        ensures slots { seat.new.me.1 ≡ seat.old.me.1 }
        ensures hit { IsTrue result →
            G.gain (card_in seat.old.me.0) (exchange_of wanted offered wanted) seat.new.me.0 }
        ensures miss { IsFalse result → (found : ℕ) × (found ≢ wanted) × (seat.new.me.0
            ≡ only (exchanging (card_in seat.old.me.0) (exchange_of wanted offered found))) }
    {
        let found = self
            .table
            .shared
            .compare_exchange::<Exchanges<G>>(seat, STATE, wanted, offered);
        found == wanted
    }

    /// Takes a signal for the pre-waiter. Returns whether the exchange found the looked word.
    pub(crate) fn consume(&self, seat: &mut Seat, word: u64, offered: u64) -> bool
        requires of { IsSeatOf self.now seat.old }
        requires passed { MayCommit K.rowed (row_sizes_of self.now) (card_of seat.old) }
        requires pre { (card_of seat.old).phase ≡ Pre }
        requires used { looked_of seat.old ≡ None }
        requires some { 0 < (fields_of word).signals }
        requires offered { fields_of offered ≡ consumed (fields_of word) }
        ensures of { IsSeatOf self.now seat.new }
        ensures used { looked_of seat.new ≡ None }
        ensures card { Meets (consuming K.rowed) (card_of seat.old) word offered result
            (card_of seat.new) }
    {
        if !self.exchange::<Consumes<K>>(&mut seat.seat, word, offered) {
            return false;
        }
        seat.phase = Phase::Running;
        true
    }

    /// Stores the top and epoch that will be below the seat on the stack in its next word.
    pub(crate) fn store_next(&self, seat: &mut Seat, next: u64)
        requires of { IsSeatOf self.now seat.old }
        requires pre { (card_of seat.old).phase ≡ Pre }
        requires waiter { (card_of seat.old).number < (card_of seat.old).waiters }
        requires used { looked_of seat.old ≡ None }
        ensures of { IsSeatOf self.now seat.new }
        ensures used { looked_of seat.new ≡ None }
        ensures card { card_of seat.new ≡ storing (card_of seat.old) next }
    {
        let place = next_word_of(seat.number);
        self.table
            .shared
            .store::<Stores>(&mut seat.seat, place, next);
    }

    /// Pushes the pre-waiter onto the stack. Returns whether the exchange found the looked word.
    pub(crate) fn push(&self, seat: &mut Seat, word: u64, offered: u64) -> bool
        requires of { IsSeatOf self.now seat.old }
        requires passed { MayCommit K.rowed (row_sizes_of self.now) (card_of seat.old) }
        requires pre { (card_of seat.old).phase ≡ Pre }
        requires waiter { (card_of seat.old).number < (card_of seat.old).waiters }
        requires used { looked_of seat.old ≡ None }
        requires left { (card_of seat.old).epoch < epoch_limit }
        requires none_given { (fields_of word).signals ≡ 0 }
        requires offered { fields_of offered
            ≡ pushed (fields_of word) (card_of seat.old).number (card_of seat.old).epoch }
        requires stored { fields_of (card_of seat.old).stored ≡ below (fields_of word) }
        ensures of { IsSeatOf self.now seat.new }
        ensures used { looked_of seat.new ≡ None }
        ensures card { Meets (pushing K.rowed) (card_of seat.old) word offered result
            (card_of seat.new) }
    {
        if !self.exchange::<Pushes<K>>(&mut seat.seat, word, offered) {
            return false;
        }
        seat.phase = Phase::Stacked;
        seat.epoch += 1;
        true
    }

    /// Takes the seat out of the pre-waiters. Returns whether the exchange found the looked word.
    pub(crate) fn leave(&self, seat: &mut Seat, word: u64, offered: u64) -> bool
        requires of { IsSeatOf self.now seat.old }
        requires pre { (card_of seat.old).phase ≡ Pre }
        requires used { looked_of seat.old ≡ None }
        requires offered { fields_of offered ≡ cancelled (fields_of word) }
        ensures of { IsSeatOf self.now seat.new }
        ensures used { looked_of seat.new ≡ None }
        ensures card { Meets cancelling (card_of seat.old) word offered result (card_of seat.new) }
    {
        if !self.exchange::<Cancels>(&mut seat.seat, word, offered) {
            return false;
        }
        seat.phase = Phase::Running;
        true
    }

    /// Gives a pre-waiter a signal. Returns whether the exchange found the looked word.
    pub(crate) fn signal(&self, seat: &mut Seat, word: u64, offered: u64) -> bool
        requires of { IsSeatOf self.now seat.old }
        requires running { (card_of seat.old).phase ≡ Running }
        requires owes_none { (card_of seat.old).owing ≡ [] }
        requires used { looked_of seat.old ≡ None }
        requires room { (fields_of word).signals < (fields_of word).pre }
        requires offered { fields_of offered ≡ signalled (fields_of word) }
        ensures of { IsSeatOf self.now seat.new }
        ensures used { looked_of seat.new ≡ None }
        ensures card { Meets signalling (card_of seat.old) word offered result (card_of seat.new) }
    {
        self.exchange::<Signals>(&mut seat.seat, word, offered)
    }

    /// Pops the top of the looked word, which the seat owes an unpark then. Returns whether the
    /// exchange found the looked word.
    pub(crate) fn pop(&self, seat: &mut Seat, word: u64, next: u64, offered: u64) -> bool
        requires of { IsSeatOf self.now seat.old }
        requires running { (card_of seat.old).phase ≡ Running }
        requires owes_none { (card_of seat.old).owing ≡ [] }
        requires used { looked_of seat.old ≡ None }
        requires looked { (card_of seat.old).looked ≡ word }
        requires read { (card_of seat.old).next ≡ Some next }
        requires fits { Fits (card_of seat.old) word }
        requires there { (fields_of word).top ≢ nobody }
        requires full { (fields_of word).signals ≡ (fields_of word).pre }
        requires offered { fields_of offered ≡ popped (fields_of word) (fields_of next) }
        ensures of { IsSeatOf self.now seat.new }
        ensures used { looked_of seat.new ≡ None }
        ensures card { Meets popping (card_of seat.old) word offered result (card_of seat.new) }
    {
        if !self.exchange::<Pops>(&mut seat.seat, word, offered) {
            return false;
        }
        seat.owed = Some((word % PRE_WAITER) as u16);
        seat.linked = false;
        true
    }

    /// Gives each pre-waiter a signal and takes the whole stack, whose seats are owed an unpark
    /// each. Returns whether the exchange found the looked word.
    pub(crate) fn take_all(&self, seat: &mut Seat, word: u64, offered: u64) -> bool
        requires of { IsSeatOf self.now seat.old }
        requires running { (card_of seat.old).phase ≡ Running }
        requires owes_none { (card_of seat.old).owing ≡ [] }
        requires used { looked_of seat.old ≡ None }
        requires fits { Fits (card_of seat.old) word }
        requires offered { fields_of offered ≡ all_notified (fields_of word) }
        ensures of { IsSeatOf self.now seat.new }
        ensures used { looked_of seat.new ≡ None }
        ensures card { MeetsAll (card_of seat.old) word offered result (card_of seat.new) }
    {
        if !self.exchange::<TakesAll>(&mut seat.seat, word, offered) {
            return false;
        }
        let top = word % PRE_WAITER;
        seat.owed = if top == NOBODY {
            None
        } else {
            Some(top as u16)
        };
        seat.linked = true;
        true
    }
}
