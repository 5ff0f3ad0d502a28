//! Tests of the state word of an event count: fields, and what each step makes of it.

use event_word::{
    AfterCommit, AfterNotify, AfterNotifyAll, Fields, after_cancel, after_commit, after_notify,
    after_notify_all, after_pop, after_prewait, pack, unpack,
};

/// What is done with a word, and the expected result.
#[derive(Clone, Copy)]
enum Step {
    /// Unpacks the word to these fields, and packs them to the word again.
    Unpacks(Fields),
    /// Makes this word by a prewait. `Cancels` does so by a cancel.
    Prewaits(u64),
    Cancels(u64),
    /// Commits by seat 0 at this epoch.
    Commits(u32, AfterCommit),
    Notifies(AfterNotify),
    NotifiesAll(AfterNotifyAll),
    /// Pops the top, whose next word is the first number, which makes the second number.
    Pops(u64, u64),
}

/// The number of epochs: each epoch is below it.
const EPOCHS: u32 = 4_194_304;

const NONE_WAITING: u64 = 0x3FFF;

const CONSUMED: AfterCommit = AfterCommit::Consumed(NONE_WAITING);

const PUSHED: AfterCommit = AfterCommit::Pushed {
    word: 0,
    next: NONE_WAITING,
};

const PUSHED_AT_1: AfterCommit = AfterCommit::Pushed {
    word: 0x400_0000_0000,
    next: NONE_WAITING,
};

/// A top, two pre-waiters and an epoch.
const FIELDS: Fields = Fields {
    top: 1,
    pre: 2,
    signals: 0,
    epoch: 3,
};

const TAKEN: AfterNotifyAll = AfterNotifyAll::Taken {
    word: 0x2000_BFFF,
    top: 1,
};

const WORDS: &[(u64, Step)] = &[
    (NONE_WAITING, Step::Prewaits(0x7FFF)),
    (0x7FFF, Step::Notifies(AfterNotify::Signalled(0x1000_7FFF))),
    (0x1000_7FFF, Step::Commits(0, CONSUMED)),
    (0x7FFF, Step::Commits(0, PUSHED)),
    (0x7FFF, Step::Commits(1, PUSHED_AT_1)),
    (0, Step::Notifies(AfterNotify::Pop(0))),
    (0, Step::Pops(NONE_WAITING, NONE_WAITING)),
    (0xC00_0000_8001, Step::Unpacks(FIELDS)),
    (0xC00_0000_8001, Step::NotifiesAll(TAKEN)),
    (NONE_WAITING, Step::NotifiesAll(AfterNotifyAll::Nothing)),
    // There are two pre-waiters and one signal.
    (0x1000_BFFF, Step::Cancels(0x1000_7FFF)),
    (0x1000_7FFF, Step::Cancels(NONE_WAITING)),
];

/// Returns whether the step may be taken, and makes of the word what it says.
fn is_right(word: u64, step: Step) -> bool {
    let fields = unpack(word);
    match step {
        Step::Unpacks(told) => fields == told && pack(fields) == word,
        Step::Prewaits(told) => fields.pre < 16_383 && after_prewait(word) == told,
        Step::Pops(next, told) => fields.top != 16_383 && after_pop(word, next) == told,
        _ if fields.signals > fields.pre => false,
        Step::Notifies(told) => after_notify(word) == told,
        Step::NotifiesAll(told) => after_notify_all(word) == told,
        _ if fields.pre == 0 => false,
        Step::Cancels(told) => after_cancel(word) == told,
        Step::Commits(epoch, told) => epoch < EPOCHS && after_commit(word, 0, epoch) == told,
    }
}

#[test]
fn worked_words(rt: HostRuntime) {
    for &(word, step) in WORDS {
        assert!(rt; is_right(word, step), "of {word}");
    }
}
