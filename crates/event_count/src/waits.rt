//! The calls that may wait: each looks and tries until no other step comes between the two. Only a
//! notification may pop, so only a notification looks at the top's next word, too.
//! `specs/Waits.antt` states what the calls promise.
ghost use Rattle.std.specs.Prelude.{◌≡◌, ℕ, [], false, None, IsTrue, IsFalse};
ghost use Rattle.event_word.specs.declared.phase.Phase.TheVariants.{Running, Pre, Stacked};
ghost use Rattle.event_count.specs.declared.view.Card.{Card};

use crate::answers::{Committed, TryCancel, TryCommit, TryNotify, TryNotifyAll};
use crate::count::Count;
use crate::kind::Kind;
use crate::rule::parker_word_of;
use crate::seat::Seat;
use std::alloc::Allocator;
use std::sync::Wait;

impl<K: Kind, A: Allocator> Count<K, A> {
    ghost use Rattle.event_count.specs.Gains.{settling, IsLoad, IsLook};
    ghost use Rattle.event_count.specs.Seats.{card_of, looked_of, row_sizes_of, IsSeatOf};
    ghost use Rattle.event_count.specs.Kinds.{MayCommit};
    ghost use Rattle.event_count.specs.Tries.{IsTryCancel, IsTryNotify};
    ghost use Rattle.event_count.specs.Waits.{RestsOnCommit, RestsOnCancel, RestsOnNotify};
    ghost use Rattle.event_count.specs.Waits.{RestsOnNotifyAll, Sleeps};
    ghost use Rattle.event_count.specs.Waits.{IsLater};

    /// Commits a pre-waiter. It takes a signal if there is one; otherwise it goes onto the stack
    /// and sleeps until it is unparked. A seat that has used all its epochs cancels. At a count
    /// with rows the seat has passed the flag and all rows.
    pub fn commit<R: Wait>(&self, rt: &R, seat: &mut Seat) -> Committed
        requires of { IsSeatOf self.now seat.old }
        requires passed { MayCommit K.rowed (row_sizes_of self.now) (card_of seat.old) }
        requires pre { (card_of seat.old).phase ≡ Pre }
        ensures of { IsSeatOf self.now seat.new }
        ensures used { looked_of seat.new ≡ None }
        ensures answer { RestsOnCommit K.rowed (card_of seat.old) result (card_of seat.new) }
        ensures number { (card_of seat.new).number ≡ (card_of seat.old).number }
        ensures running { (card_of seat.new).phase ≡ Running }
        ensures owing { (card_of seat.new).owing ≡ (card_of seat.old).owing }
        ensures announcing { (card_of seat.new).announcing ≡ (card_of seat.old).announcing }
        ensures credits { (card_of seat.new).credits ≡ (card_of seat.old).credits }
        ensures book { (card_of seat.new).book ≡ (card_of seat.old).book }
    {
        for _ in rt.forever() {
            let word = self.load_state(seat);
            match self.commit_at(seat, word) {
                TryCommit::Consumed => return Committed::Consumed,
                TryCommit::Spent => return Committed::Spent,
                TryCommit::Pushed => {
                    self.take_token(rt, seat);
                    return Committed::Unparked;
                }
                TryCommit::Contended => {}
            }
        }
        unreachable!()
    }

    /// Puts a stacked seat to sleep until it has taken its token.
    fn take_token<R: Wait>(&self, rt: &R, seat: &mut Seat)
        requires of { IsSeatOf self.now seat.old }
        requires stacked { (card_of seat.old).phase ≡ Stacked }
        ensures of { IsSeatOf self.now seat.new }
        ensures used { looked_of seat.new ≡ None }
        ensures card { Sleeps (card_of seat.old) (card_of seat.new) }
    {
        for _ in rt.forever() {
            if self.try_take_token(seat) {
                return;
            }
            let place = parker_word_of(seat.number);
            self.table.shared.park(rt, place, 0);
        }
    }

    /// Makes one round of a cancel: loads the state word, and tries to cancel. Returns whether the
    /// seat has cancelled; false means that the try was contended.
    #[inline(always)]
    pub(crate) fn cancel_once(&self, seat: &mut Seat) -> bool
        requires of { IsSeatOf self.now seat.old }
        requires pre { (card_of seat.old).phase ≡ Pre }
        ensures of { IsSeatOf self.now seat.new }
        ensures used { looked_of seat.new ≡ None }
        ensures done { IsTrue result
            → RestsOnCancel K.rowed (card_of seat.old) (card_of seat.new) }
        ensures contended { IsFalse result → IsLater (card_of seat.old) (card_of seat.new) }
        ensures lost { IsFalse result → (after : Card) × (word : ℕ)
            × IsLoad K.rowed (card_of seat.old) word after
            × IsTryCancel after word TryCancel.Contended (card_of seat.new) }
    {
        let word = self.load_state(seat);
        match self.cancel_at(seat, word) {
            TryCancel::Done => true,
            TryCancel::Contended => false,
        }
    }

    /// Cancels a pre-waiter: it gives up waiting.
    pub fn cancel<R: Wait>(&self, rt: &R, seat: &mut Seat)
        requires of { IsSeatOf self.now seat.old }
        requires pre { (card_of seat.old).phase ≡ Pre }
        ensures of { IsSeatOf self.now seat.new }
        ensures used { looked_of seat.new ≡ None }
        ensures answer { RestsOnCancel K.rowed (card_of seat.old) (card_of seat.new) }
        ensures number { (card_of seat.new).number ≡ (card_of seat.old).number }
        ensures running { (card_of seat.new).phase ≡ Running }
        ensures owing { (card_of seat.new).owing ≡ (card_of seat.old).owing }
        ensures announcing { (card_of seat.new).announcing ≡ (card_of seat.old).announcing }
        ensures credits { (card_of seat.new).credits ≡ (card_of seat.old).credits }
        ensures book { (card_of seat.new).book ≡ (card_of seat.old).book }
    {
        for _ in rt.forever() {
            if self.cancel_once(seat) {
                return;
            }
        }
    }

    /// Makes one round of a notification: looks, tries to notify, and unparks a seat that the try
    /// popped. Returns whether the seat has notified; false means that the try was contended.
    #[inline(always)]
    pub(crate) fn notify_once(&self, seat: &mut Seat) -> bool
        requires of { IsSeatOf self.now seat.old }
        requires running { (card_of seat.old).phase ≡ Running }
        requires owes_none { (card_of seat.old).owing ≡ [] }
        ensures of { IsSeatOf self.now seat.new }
        ensures used { looked_of seat.new ≡ None }
        ensures done { IsTrue result
            → RestsOnNotify K.rowed (card_of seat.old) (card_of seat.new) }
        ensures contended { IsFalse result → IsLater (card_of seat.old) (card_of seat.new) }
        ensures lost { IsFalse result → (after : Card) × (word : ℕ)
            × IsLook K.rowed (card_of seat.old) word after
            × IsTryNotify after word TryNotify.Contended (card_of seat.new) }
        ensures silent { IsTrue result → (card_of seat.new).announcing ≡ false }
    {
        self.look(seat);
        match self.try_notify(seat) {
            TryNotify::Nothing | TryNotify::Signalled => true,
            TryNotify::Popped(_) => {
                self.try_unpark_next(seat);
                true
            }
            TryNotify::Contended => false,
        }
    }

    /// Notifies one waiter, if the looked word has one to notify, and unparks it if it was on the
    /// stack. Afterwards the seat isn't to notify, whatever it had published.
    ///
    /// No fence is needed, unlike in Eigen: each step here is sequentially consistent, and so are
    /// the prewait and the load of this look. Say that the condition was made true before the look,
    /// by such a step or under a lock. Then either the waiter's check comes later and finds the
    /// condition true, or its prewait comes before the look, which counts it.
    pub fn notify<R: Wait>(&self, rt: &R, seat: &mut Seat)
        requires of { IsSeatOf self.now seat.old }
        requires running { (card_of seat.old).phase ≡ Running }
        requires owes_none { (card_of seat.old).owing ≡ [] }
        ensures of { IsSeatOf self.now seat.new }
        ensures used { looked_of seat.new ≡ None }
        ensures answer { RestsOnNotify K.rowed (card_of seat.old) (card_of seat.new) }
        ensures number { (card_of seat.new).number ≡ (card_of seat.old).number }
        ensures running { (card_of seat.new).phase ≡ Running }
        ensures owes_none { (card_of seat.new).owing ≡ [] }
        ensures silent { (card_of seat.new).announcing ≡ false }
        ensures credits { (card_of seat.new).credits ≡ (card_of seat.old).credits }
        ensures book { (card_of seat.new).book ≡ (card_of seat.old).book }
    {
        for _ in rt.forever() {
            if self.notify_once(seat) {
                return;
            }
        }
    }

    /// Notifies all waiters that the loaded state word has, and unparks those that were on the
    /// stack, the top first. Afterwards the seat isn't to notify, whether it had published or
    /// stopped.
    pub fn notify_all<R: Wait>(&self, rt: &R, seat: &mut Seat)
        requires of { IsSeatOf self.now seat.old }
        requires running { (card_of seat.old).phase ≡ Running }
        requires owes_none { (card_of seat.old).owing ≡ [] }
        ensures of { IsSeatOf self.now seat.new }
        ensures used { looked_of seat.new ≡ None }
        ensures answer { RestsOnNotifyAll K.rowed (card_of seat.old) (card_of seat.new) }
        ensures number { (card_of seat.new).number ≡ (card_of seat.old).number }
        ensures running { (card_of seat.new).phase ≡ Running }
        ensures owes_none { (card_of seat.new).owing ≡ [] }
        ensures silent { (card_of seat.new).announcing ≡ false }
        ensures credits { (card_of seat.new).credits ≡ (card_of seat.old).credits }
        ensures book { (card_of seat.new).book ≡ (card_of seat.old).book }
    {
        for _ in rt.forever() {
            let word = self.load_state(seat);
            match self.notify_all_at(seat, word) {
                TryNotifyAll::Nothing => return,
                TryNotifyAll::Taken => {
                    self.unpark_all(rt, seat);
                    return;
                }
                TryNotifyAll::Contended => {}
            }
        }
    }

    /// Unparks all seats that the seat owes.
    fn unpark_all<R: Wait>(&self, rt: &R, seat: &mut Seat)
        requires of { IsSeatOf self.now seat.old }
        ensures of { IsSeatOf self.now seat.new }
        ensures used { looked_of seat.new ≡ None }
        ensures card { card_of seat.new ≡ settling (card_of seat.old) }
    {
        for _ in rt.forever() {
            if self.try_unpark_next(seat).is_none() {
                return;
            }
        }
    }
}
