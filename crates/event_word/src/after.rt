//! The word after each step of an event count. Each function computes on the packed word, and
//! `specs/Word.antt` says what it does to the fields. event_count exchanges its state word for
//! these words.

ghost use Rattle.std.specs.Prelude.{◌≡◌, ◌≢◌, ℕ, ◌+◌, ◌<◌, ◌≤◌, ◌^◌};
ghost use Rattle.event_word.specs.Fields.{fields_of};
ghost use Rattle.event_word.specs.Word.{nobody, prewaited, cancelled, popped, IsCommit, IsNotify};
ghost use Rattle.event_word.specs.Word.{IsNotifyAll};

use crate::word::{EPOCH, NOBODY, PRE_WAITER, SIGNAL};

/// What a commit does to the word.
#[derive(Clone, Copy, Debug, PartialEq, Eq)]
pub enum AfterCommit {
    /// A signal was taken, and the seat continues at once. This is the new word.
    Consumed(u64),
    /// The seat is on the stack. `word` is the new word, and `next` is the word that the seat
    /// keeps: the top and epoch before its push.
    Pushed { word: u64, next: u64 },
}

/// What a notification does to the word.
#[derive(Clone, Copy, Debug, PartialEq, Eq)]
pub enum AfterNotify {
    /// Nobody has to be notified: the stack is empty and each pre-waiter has a signal.
    Nothing,
    /// A pre-waiter got a signal. This is the new word.
    Signalled(u64),
    /// This seat is the top, and has to be popped: `after_pop` returns the new word, from the
    /// seat's next word.
    Pop(u16),
}

/// What a notification of all does to the word.
#[derive(Clone, Copy, Debug, PartialEq, Eq)]
pub enum AfterNotifyAll {
    /// Nobody has to be notified: the stack is empty and each pre-waiter has a signal.
    Nothing,
    /// Each pre-waiter has a signal, and the stack is empty. `word` is the new word, and `top` is
    /// the former top, or 16,383 if the stack was empty.
    Taken { word: u64, top: u16 },
}

/// Returns how many pre-waiters the word has.
const fn pre_waiters(word: u64) -> u64
    ensures { result ≡ (fields_of word).pre }
{
    word / PRE_WAITER % PRE_WAITER
}

/// Returns how many signals the word has.
const fn signals(word: u64) -> u64
    ensures { result ≡ (fields_of word).signals }
{
    word / SIGNAL % PRE_WAITER
}

/// Returns the word after a prewait: it has one pre-waiter more.
pub const fn after_prewait(word: u64) -> u64
    requires room { (fields_of word).pre < 16383 }
    ensures { fields_of result ≡ prewaited (fields_of word) }
{
    word + PRE_WAITER
}

/// Returns what a commit of `seat` does, where `epoch` is the epoch of the seat's next push.
pub const fn after_commit(word: u64, seat: u16, epoch: u32) -> AfterCommit
    requires seat { seat < nobody }
    requires epoch { epoch < 2 ^ 22 }
    requires pre { 0 < (fields_of word).pre }
    requires answered { (fields_of word).signals ≤ (fields_of word).pre }
    ensures { IsCommit (fields_of word) seat epoch result }
{
    if signals(word) > 0 {
        return AfterCommit::Consumed(word - PRE_WAITER - SIGNAL);
    }
    AfterCommit::Pushed {
        word: seat as u64 + (pre_waiters(word) - 1) * PRE_WAITER + epoch as u64 * EPOCH,
        next: word % PRE_WAITER + word / EPOCH * EPOCH,
    }
}

/// Returns the word after a cancel: it has one pre-waiter fewer, and one signal fewer if each
/// pre-waiter had one.
pub const fn after_cancel(word: u64) -> u64
    requires pre { 0 < (fields_of word).pre }
    requires answered { (fields_of word).signals ≤ (fields_of word).pre }
    ensures { fields_of result ≡ cancelled (fields_of word) }
{
    if signals(word) == pre_waiters(word) {
        word - PRE_WAITER - SIGNAL
    } else {
        word - PRE_WAITER
    }
}

/// Returns what a notification of one waiter does.
pub const fn after_notify(word: u64) -> AfterNotify
    requires answered { (fields_of word).signals ≤ (fields_of word).pre }
    ensures { IsNotify (fields_of word) result }
{
    if signals(word) < pre_waiters(word) {
        return AfterNotify::Signalled(word + SIGNAL);
    }
    let top = word % PRE_WAITER;
    if top == NOBODY {
        return AfterNotify::Nothing;
    }
    AfterNotify::Pop(top as u16)
}

/// Returns the word after the top is popped. `next` is the top's next word.
pub const fn after_pop(word: u64, next: u64) -> u64
    requires stacked { (fields_of word).top ≢ nobody }
    ensures { fields_of result ≡ popped (fields_of word) (fields_of next) }
{
    next % PRE_WAITER + word / PRE_WAITER % SIGNAL * PRE_WAITER + next / EPOCH * EPOCH
}

/// Returns what a notification of all waiters does.
pub const fn after_notify_all(word: u64) -> AfterNotifyAll
    requires answered { (fields_of word).signals ≤ (fields_of word).pre }
    ensures { IsNotifyAll (fields_of word) result }
{
    let top = word % PRE_WAITER;
    let pre = pre_waiters(word);
    if top == NOBODY && signals(word) == pre {
        return AfterNotifyAll::Nothing;
    }
    AfterNotifyAll::Taken {
        word: NOBODY + pre * PRE_WAITER + pre * SIGNAL,
        top: top as u16,
    }
}
