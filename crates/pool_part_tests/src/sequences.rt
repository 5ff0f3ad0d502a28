//! Sequences of calls on an event count, with the words that they find. `steps.rt` runs them.

use crate::steps::{FIRST_EPOCH, LAST_EPOCH, Sequence, Step, run};
use event_count::{CountFault, EventCount, TryCancel, TryCommit, TryNotify, TryNotifyAll};

const SEQUENCES: [Sequence; 4] = [
    Sequence {
        name: "a waiter takes a signal and cancels",
        waiters: 1,
        notifiers: 1,
        epoch: FIRST_EPOCH,
        steps: &[
            (0, Step::Prewaits),
            (0, Step::Looks(0x7FFF)),
            (1, Step::Looks(0x7FFF)),
            (1, Step::TriesNotify(TryNotify::Signalled)),
            (0, Step::TriesCommit(TryCommit::Contended)),
            (0, Step::Looks(0x1000_7FFF)),
            (0, Step::TriesCommit(TryCommit::Consumed)),
            (1, Step::Looks(0x3FFF)),
            (1, Step::TriesNotify(TryNotify::Nothing)),
            (1, Step::Looks(0x3FFF)),
            (1, Step::TriesNotifyAll(TryNotifyAll::Nothing)),
            (0, Step::Prewaits),
            (0, Step::Looks(0x7FFF)),
            (0, Step::TriesCancel(TryCancel::Done)),
        ],
    },
    // A prewait comes between the looks of the cancel and of the notification and their exchanges.
    Sequence {
        name: "a cancel and a notification of all are contended",
        waiters: 2,
        notifiers: 1,
        epoch: FIRST_EPOCH,
        steps: &[
            (0, Step::Prewaits),
            (0, Step::Looks(0x7FFF)),
            (2, Step::Looks(0x7FFF)),
            (1, Step::Prewaits),
            (0, Step::TriesCancel(TryCancel::Contended)),
            (2, Step::TriesNotifyAll(TryNotifyAll::Contended)),
            (2, Step::Looks(0xBFFF)),
            (2, Step::TriesNotifyAll(TryNotifyAll::Taken)),
            (0, Step::Looks(0x2000_BFFF)),
            (0, Step::TriesCommit(TryCommit::Consumed)),
            (1, Step::Looks(0x1000_7FFF)),
            (1, Step::TriesCommit(TryCommit::Consumed)),
            (2, Step::Looks(0x3FFF)),
        ],
    },
    // A pop fails if it was prepared at an older epoch of the top of the stack.
    Sequence {
        name: "stale pop is contended",
        waiters: 2,
        notifiers: 2,
        epoch: FIRST_EPOCH,
        steps: &[
            (0, Step::Prewaits),
            (0, Step::Looks(0x7FFF)),
            (0, Step::TriesCommit(TryCommit::Pushed)),
            (2, Step::Looks(0)),
            (3, Step::Looks(0)),
            (3, Step::TriesNotify(TryNotify::Popped(0))),
            (3, Step::TriesUnpark(Some(0))),
            (0, Step::TriesToken(true)),
            (1, Step::Prewaits),
            (1, Step::Looks(0x7FFF)),
            (1, Step::TriesCommit(TryCommit::Pushed)),
            (0, Step::Prewaits),
            (0, Step::Looks(0x4001)),
            (0, Step::TriesCommit(TryCommit::Pushed)),
            (2, Step::TriesNotify(TryNotify::Contended)),
            (2, Step::Looks(0x400_0000_0000)),
            (2, Step::TriesNotify(TryNotify::Popped(0))),
            (2, Step::TriesUnpark(Some(0))),
            (2, Step::Looks(1)),
            (2, Step::TriesNotify(TryNotify::Popped(1))),
            (2, Step::TriesUnpark(Some(1))),
            (2, Step::Looks(0x3FFF)),
            (0, Step::TriesToken(true)),
            (1, Step::TriesToken(true)),
            (3, Step::Looks(0x3FFF)),
        ],
    },
    Sequence {
        name: "last epoch",
        waiters: 1,
        notifiers: 1,
        epoch: LAST_EPOCH,
        steps: &[
            (0, Step::Prewaits),
            (0, Step::Looks(0x7FFF)),
            (0, Step::TriesCommit(TryCommit::Pushed)),
            (1, Step::Looks(0xFFFF_FC00_0000_0000)),
            (1, Step::TriesNotify(TryNotify::Popped(0))),
            (1, Step::TriesUnpark(Some(0))),
            (0, Step::TriesToken(true)),
            (0, Step::Prewaits),
            (0, Step::Looks(0x7FFF)),
            (0, Step::TriesCommit(TryCommit::Spent)),
            (1, Step::Looks(0x3FFF)),
        ],
    },
];

#[test]
fn worked_sequences(rt: HostRuntime) {
    for sequence in &SEQUENCES {
        run(&rt, rt.alloc(), sequence);
    }
}

#[test]
fn the_most_waiters(rt: HostRuntime) {
    let Ok((count, seats)) = EventCount::new(rt.alloc(), 16_382, 1) else {
        panic!(rt; "no count")
    };
    assert!(rt; count.close(seats) == 0x3FFF);
    let refused = EventCount::new(rt.alloc(), 16_383, 1).err();
    assert!(rt; refused == Some(CountFault::TooManyWaiters));
}
