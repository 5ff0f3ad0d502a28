//! `Seat`: the right to use a count. Its fields repeat parts of the seat's card (`view.rt`), and
//! its ghost fields say so; a new field of either belongs in both.
ghost use Rattle.std.specs.Prelude.{◌≡◌, ◌≢◌, ◌+◌, ◌<◌, ◌≤◌, ◌↔◌, [], false, Some, None};
ghost use Rattle.std.specs.Prelude.{IsSome, IsTrue};
ghost use Rattle.std.specs.Option.{ForSome};
ghost use Rattle.event_word.specs.declared.phase.Phase.TheVariants.{Stacked, Ended};
ghost use Rattle.event_word.specs.Fields.{fields_of};
ghost use Rattle.event_word.specs.Word.{nobody};
ghost use Rattle.event_count.specs.Limits.{epoch_limit};
ghost use Rattle.event_count.specs.Places.{words_for};
ghost use Rattle.event_count.specs.Cards.{only, card_in};
ghost use Rattle.event_word.specs.Step.{row_limit};
ghost use Rattle.event_count.specs.Gains.{first_of, behind, Fits, IsHeard};

use crate::view::View;
use event_word::Phase;

/// One actor at an event count, for one thread at a time. A seat may move between threads.
///
/// A count can't be closed once one of its seats was dropped.
#[derive(Drop)]
pub struct Seat {
    pub(crate) seat: atomic_table::Seat<(), View>,
    pub(crate) number: u32,
    // How many seats of the count may wait.
    pub(crate) waiters: u16,
    pub(crate) phase: Phase,
    // The first seat to which this seat owes an unpark.
    pub(crate) owed: Option<u16>,
    // Whether next words link further owed seats to the first. If not, there are none.
    pub(crate) linked: bool,
    // The epoch of the seat's next push.
    pub(crate) epoch: u32,
    // How many more jobs the seat may publish.
    pub(crate) credits: u32,
    // The word of the seat's last look, until a step uses it up.
    pub(crate) looked: Option<u64>,
    // The next word of the looked word's top, if there is a top.
    pub(crate) next: Option<u64>,
    ghost alone: { seat.me.0 ≡ only (card_in seat.me.0) },
    ghost none_held: { seat.me.1 ≡ [] },
    ghost sized: { (card_in seat.me.0).waiters ≡ waiters },
    ghost placed: { seat.table_id.words ≡ words_for (waiters + (card_in seat.me.0).rows) },
    ghost numbered: { (card_in seat.me.0).number ≡ number },
    ghost phased: { (card_in seat.me.0).phase ≡ phase },
    ghost never_ended: { phase ≢ Ended },
    ghost stacked: { phase ≡ Stacked → number < waiters },
    ghost owes: { owed ≡ first_of (card_in seat.me.0).owing },
    ghost debt: { ForSome owed (λ other. other < waiters) },
    ghost chained: { (card_in seat.me.0).linked ≡ linked },
    ghost alone_owed: { linked ≡ false → behind (card_in seat.me.0).owing ≡ [] },
    ghost next_push: { ((card_in seat.me.0).epoch ≡ epoch) × (epoch ≤ epoch_limit) },
    ghost keeps: { ForSome looked (λ word. (card_in seat.me.0).looked ≡ word) },
    ghost below: { (card_in seat.me.0).next ≡ next },
    ghost reads: { ForSome looked (λ word. (fields_of word).top ≢ nobody → IsSome next) },
    ghost fits: { ForSome looked (Fits (card_in seat.me.0)) },
    ghost heard: { ForSome looked (IsHeard (card_in seat.me.0)) },
    ghost credited: { (card_in seat.me.0).credits ≡ credits },
    ghost few_credits: { credits ≤ row_limit },
}

impl Seat {
    ghost use Rattle.event_count.specs.Seats.{card_of, looked_of};

    /// Returns the seat's number. The waiters are numbered from 0 on, and the notifiers after them.
    pub fn number(&self) -> u32
        ensures { result ≡ (card_of self.now).number }
    {
        self.number
    }

    /// Returns the seat's phase. A notifier always runs.
    pub fn phase(&self) -> Phase
        ensures phase { result ≡ (card_of self.now).phase }
        ensures never_ended { result ≢ Ended }
    {
        self.phase
    }

    /// Returns whether the seat owes another seat an unpark.
    pub fn owing(&self) -> bool
        ensures { IsTrue result ↔ ((card_of self.now).owing ≢ []) }
    {
        self.owed.is_some()
    }

    /// Returns whether the seat has looked, and not used the look up.
    pub fn looked(&self) -> bool
        ensures { IsTrue result ↔ IsSome (looked_of self.now) }
    {
        self.looked.is_some()
    }

    /// Returns how many more jobs the seat may publish, at a count with rows.
    pub fn credits(&self) -> u32
        ensures { result ≡ (card_of self.now).credits }
    {
        self.credits
    }

    /// Returns the looked word, and uses the look up.
    pub(crate) fn take_look(&mut self) -> u64
        requires { IsSome (looked_of self.old) }
        ensures looked { looked_of self.old ≡ Some result }
        ensures used { looked_of self.new ≡ None }
        ensures fits { Fits (card_of self.old) result }
        ensures heard { IsHeard (card_of self.old) result }
        ensures word { (card_of self.old).looked ≡ result }
        ensures reads { (fields_of result).top ≢ nobody → IsSome self.new.next }
        ensures next { self.new.next ≡ self.old.next }
        ensures seat { self.new.seat ≡ self.old.seat }
        ensures number { self.new.number ≡ self.old.number }
        ensures epoch { self.new.epoch ≡ self.old.epoch }
        ensures waiters { self.new.waiters ≡ self.old.waiters }
        ensures credits { self.new.credits ≡ self.old.credits }
    {
        let Some(word) = self.looked else {
            unreachable!()
        };
        self.looked = None;
        word
    }
}
