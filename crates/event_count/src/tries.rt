//! The tries: each makes at most one exchange of the state word, which expects the word of a look.
//! `specs/Tries.antt` states the answers. The waiting calls (`waits.rt`) repeat tries.
ghost use Rattle.std.specs.Prelude.{◌≡◌, ◌<◌, [], None, IfSome, IsSome};
ghost use Rattle.event_word.specs.declared.phase.Phase.TheVariants.{Running, Pre};

use crate::answers::{TryCancel, TryCommit, TryNotify, TryNotifyAll};
use crate::count::Count;
use crate::kind::Kind;
use crate::plays::Prewaits;
use crate::rule::{EPOCHS, STATE};
use crate::seat::Seat;
use event_word::{
    AfterCommit, AfterNotify, AfterNotifyAll, PRE_WAITER, Phase, after_cancel, after_commit,
    after_notify, after_notify_all, after_pop,
};
use std::alloc::Allocator;

impl<K: Kind, A: Allocator> Count<K, A> {
    ghost use Rattle.event_count.specs.Kinds.{MayCommit, MayPrewait};
    ghost use Rattle.event_count.specs.Gains.{prewaiting, Fits, IsHeard};
    ghost use Rattle.event_count.specs.Seats.{card_of, looked_of, row_sizes_of, IsSeatOf};
    ghost use Rattle.event_count.specs.Tries.{IsTryCommit, IsTryCancel, EndsAnnouncement};
    ghost use Rattle.event_count.specs.Tries.{IsTryNotify, IsTryNotifyAll, EndsAnnouncementAll};

    /// Makes the seat a pre-waiter: from now on notifications count it. Afterwards the caller
    /// checks its condition, and commits or cancels. At a count with rows the condition is the stop
    /// word and each row: `pass_all` checks it.
    pub fn prewait(&self, seat: &mut Seat)
        requires of { IsSeatOf self.now seat.old }
        requires silent { MayPrewait K.rowed (card_of seat.old) }
        requires waiter { (card_of seat.old).number < (row_sizes_of self.now).waiters }
        requires running { (card_of seat.old).phase ≡ Running }
        requires owes_none { (card_of seat.old).owing ≡ [] }
        ensures of { IsSeatOf self.now seat.new }
        ensures used { looked_of seat.new ≡ None }
        ensures card { card_of seat.new ≡ prewaiting (card_of seat.old) }
    {
        self.table
            .shared
            .fetch_add::<Prewaits>(&mut seat.seat, STATE, PRE_WAITER);
        seat.phase = Phase::Pre;
        seat.looked = None;
    }

    /// Tries to commit a pre-waiter that has looked. The seat takes a signal, or goes onto the
    /// stack if there is none. A seat on the stack then has to sleep until it takes its token. A
    /// seat that has used all its epochs cancels. At a count with rows the seat has passed the flag
    /// and all rows before it looked.
    pub fn try_commit(&self, seat: &mut Seat) -> TryCommit
        requires of { IsSeatOf self.now seat.old }
        requires passed { MayCommit K.rowed (row_sizes_of self.now) (card_of seat.old) }
        requires pre { (card_of seat.old).phase ≡ Pre }
        requires looked { IsSome (looked_of seat.old) }
        ensures of { IsSeatOf self.now seat.new }
        ensures used { looked_of seat.new ≡ None }
        ensures answer { IfSome (looked_of seat.old) (λ word.
            IsTryCommit K.rowed (card_of seat.old) word result (card_of seat.new)) }
    {
        let word = seat.take_look();
        self.commit_at(seat, word)
    }

    /// Does what `try_commit` does, for a word that was loaded.
    pub(crate) fn commit_at(&self, seat: &mut Seat, word: u64) -> TryCommit
        requires of { IsSeatOf self.now seat.old }
        requires passed { MayCommit K.rowed (row_sizes_of self.now) (card_of seat.old) }
        requires pre { (card_of seat.old).phase ≡ Pre }
        requires used { looked_of seat.old ≡ None }
        requires fits { Fits (card_of seat.old) word }
        ensures of { IsSeatOf self.now seat.new }
        ensures used { looked_of seat.new ≡ None }
        ensures answer { IsTryCommit K.rowed (card_of seat.old) word result (card_of seat.new) }
    {
        if seat.epoch == EPOCHS {
            return if self.leave(seat, word, after_cancel(word)) {
                TryCommit::Spent
            } else {
                TryCommit::Contended
            };
        }
        match after_commit(word, seat.number as u16, seat.epoch) {
            AfterCommit::Consumed(offered) => {
                if self.consume(seat, word, offered) {
                    TryCommit::Consumed
                } else {
                    TryCommit::Contended
                }
            }
            AfterCommit::Pushed {
                word: offered,
                next,
            } => {
                self.store_next(seat, next);
                if self.push(seat, word, offered) {
                    TryCommit::Pushed
                } else {
                    TryCommit::Contended
                }
            }
        }
    }

    /// Tries to cancel a pre-waiter that has looked: it gives up waiting.
    pub fn try_cancel(&self, seat: &mut Seat) -> TryCancel
        requires of { IsSeatOf self.now seat.old }
        requires pre { (card_of seat.old).phase ≡ Pre }
        requires looked { IsSome (looked_of seat.old) }
        ensures of { IsSeatOf self.now seat.new }
        ensures used { looked_of seat.new ≡ None }
        ensures answer { IfSome (looked_of seat.old) (λ word.
            IsTryCancel (card_of seat.old) word result (card_of seat.new)) }
    {
        let word = seat.take_look();
        self.cancel_at(seat, word)
    }

    /// Does what `try_cancel` does, for a word that was loaded.
    pub(crate) fn cancel_at(&self, seat: &mut Seat, word: u64) -> TryCancel
        requires of { IsSeatOf self.now seat.old }
        requires pre { (card_of seat.old).phase ≡ Pre }
        requires used { looked_of seat.old ≡ None }
        requires fits { Fits (card_of seat.old) word }
        ensures of { IsSeatOf self.now seat.new }
        ensures used { looked_of seat.new ≡ None }
        ensures answer { IsTryCancel (card_of seat.old) word result (card_of seat.new) }
    {
        if self.leave(seat, word, after_cancel(word)) {
            TryCancel::Done
        } else {
            TryCancel::Contended
        }
    }

    /// Tries to notify one waiter. The seat runs, and has looked. It gives a signal to a pre-waiter
    /// without one. If there is none, it pops the top of the stack, and then owes that seat an
    /// unpark.
    ///
    /// `Nothing` is true at the moment of the look, so look after the condition was made true.
    pub fn try_notify(&self, seat: &mut Seat) -> TryNotify
        requires of { IsSeatOf self.now seat.old }
        requires running { (card_of seat.old).phase ≡ Running }
        requires owes_none { (card_of seat.old).owing ≡ [] }
        requires looked { IsSome (looked_of seat.old) }
        ensures of { IsSeatOf self.now seat.new }
        ensures used { looked_of seat.new ≡ None }
        ensures answer { IfSome (looked_of seat.old) (λ word.
            IsTryNotify (card_of seat.old) word result (card_of seat.new)) }
        ensures silent { EndsAnnouncement result (card_of seat.new) }
    {
        let word = seat.take_look();
        match after_notify(word) {
            AfterNotify::Nothing => TryNotify::Nothing,
            AfterNotify::Signalled(offered) => {
                if self.signal(seat, word, offered) {
                    TryNotify::Signalled
                } else {
                    TryNotify::Contended
                }
            }
            AfterNotify::Pop(top) => {
                let Some(next) = seat.next else {
                    unreachable!()
                };
                if self.pop(seat, word, next, after_pop(word, next)) {
                    TryNotify::Popped(top)
                } else {
                    TryNotify::Contended
                }
            }
        }
    }

    /// Tries to notify all waiters. The seat runs, and has looked. It gives each pre-waiter a
    /// signal and takes the whole stack. Then it owes each seat of the stack an unpark, the top
    /// first.
    pub fn try_notify_all(&self, seat: &mut Seat) -> TryNotifyAll
        requires of { IsSeatOf self.now seat.old }
        requires running { (card_of seat.old).phase ≡ Running }
        requires owes_none { (card_of seat.old).owing ≡ [] }
        requires looked { IsSome (looked_of seat.old) }
        ensures of { IsSeatOf self.now seat.new }
        ensures used { looked_of seat.new ≡ None }
        ensures answer { IfSome (looked_of seat.old) (λ word.
            IsTryNotifyAll (card_of seat.old) word result (card_of seat.new)) }
        ensures silent { EndsAnnouncementAll result (card_of seat.new) }
    {
        let word = seat.take_look();
        self.notify_all_at(seat, word)
    }

    /// Does what `try_notify_all` does, for a word that was loaded.
    pub(crate) fn notify_all_at(&self, seat: &mut Seat, word: u64) -> TryNotifyAll
        requires of { IsSeatOf self.now seat.old }
        requires running { (card_of seat.old).phase ≡ Running }
        requires owes_none { (card_of seat.old).owing ≡ [] }
        requires used { looked_of seat.old ≡ None }
        requires fits { Fits (card_of seat.old) word }
        requires heard { IsHeard (card_of seat.old) word }
        ensures of { IsSeatOf self.now seat.new }
        ensures used { looked_of seat.new ≡ None }
        ensures answer { IsTryNotifyAll (card_of seat.old) word result (card_of seat.new) }
        ensures silent { EndsAnnouncementAll result (card_of seat.new) }
    {
        match after_notify_all(word) {
            AfterNotifyAll::Nothing => TryNotifyAll::Nothing,
            AfterNotifyAll::Taken { word: offered, .. } => {
                if self.take_all(seat, word, offered) {
                    TryNotifyAll::Taken
                } else {
                    TryNotifyAll::Contended
                }
            }
        }
    }
}
