//! Tests of threads that wait at one event count, and of threads that notify them.
ghost use Rattle.std.specs.Prelude.{◌≡◌, ◌<◌, ◌↔◌, [], All, IsSome, IsTrue, length};
ghost use Rattle.event_count.specs.Seats.{card_of, looked_of, sizes_of, IsSeatOf, IsIdle};

use event_count::{Committed, EventCount, Phase, Seat, TryNotify};
use std::alloc::Global;
use std::process::Abort;
use std::sync::Wait;
use std::sync::atomic::{AtomicU64, Ordering};
use std::thread::{self, Threads};

/// What waiters wait for.
#[derive(Clone, Copy)]
enum Wanted {
    /// No condition: each turn takes a signal, or parks and takes a token.
    Notice,
    /// An item, which the waiter takes.
    Item,
    /// More rounds than the number of this turn.
    Round,
}

/// Numbers of waiters, of turns for each waiter, of notifiers, and of notifications that count for
/// each notifier.
struct Run {
    name: &'static str,
    wanted: Wanted,
    waiters: u16,
    turns: u64,
    notifiers: u16,
    notices: u64,
}

const RUNS: [Run; 3] = [
    // Each turn of a waiter takes one notification, and there are as many notifications as turns.
    Run {
        name: "a ring of waiters and notifiers",
        wanted: Wanted::Notice,
        waiters: 4,
        turns: 100_000,
        notifiers: 2,
        notices: 200_000,
    },
    // Each item is made by one thread and taken by another, and no item is left.
    Run {
        name: "producers and consumers",
        wanted: Wanted::Item,
        waiters: 4,
        turns: 200_000,
        notifiers: 4,
        notices: 200_000,
    },
    // All waiters are woken while some of them go onto the stack.
    Run {
        name: "all are woken",
        wanted: Wanted::Round,
        waiters: 3,
        turns: 20_000,
        notifiers: 1,
        notices: 20_000,
    },
];

/// Checks what a seat reports of itself, and that it owes no unpark.
fn expect_seat<R: Abort>(rt: &R, seat: &Seat, number: u32, phase: Phase, looked: bool)
    ensures number { (card_of seat.now).number ≡ number }
    ensures phase { (card_of seat.now).phase ≡ phase }
    ensures owes_none { (card_of seat.now).owing ≡ [] }
    ensures looked { IsTrue looked ↔ IsSome (looked_of seat.now) }
{
    let found = (seat.number(), seat.phase(), seat.looked(), seat.owing());
    assert_eq!(rt; found, (number, phase, looked, false));
}

/// Takes an item, and returns whether there was one.
fn take_item<R: Wait>(rt: &R, items: &AtomicU64) -> bool {
    for _ in rt.forever() {
        let left = items.load(Ordering::SeqCst);
        if left == 0 {
            return false;
        }
        let taken = items.compare_exchange(left, left - 1, Ordering::SeqCst, Ordering::SeqCst);
        if taken.is_ok() {
            return true;
        }
    }
    unreachable!()
}

/// Waits once, until what is wanted is there.
fn wait_once<R: Wait + Abort>(
    rt: &R,
    count: &EventCount,
    seat: &mut Seat,
    wanted: Wanted,
    made: &AtomicU64,
    turn: u64,
)
    requires of { IsSeatOf count.now seat.old }
    requires waiter { (card_of seat.old).number < (sizes_of count.now).waiters }
    requires idle { IsIdle seat.old }
    ensures of { IsSeatOf count.now seat.new }
    ensures waiter { (card_of seat.new).number < (sizes_of count.now).waiters }
    ensures idle { IsIdle seat.new }
{
    let number = seat.number();
    for _ in rt.forever() {
        count.prewait(seat);
        let is_there = match wanted {
            Wanted::Notice => false,
            Wanted::Item => take_item(rt, made),
            Wanted::Round => made.load(Ordering::SeqCst) > turn,
        };
        if is_there {
            count.cancel(rt, seat);
        } else {
            assert!(rt; count.commit(rt, seat) != Committed::Spent);
        }
        expect_seat(rt, seat, number, Phase::Running, false);
        if is_there || matches!(wanted, Wanted::Notice) {
            return;
        }
    }
}

/// Waits once in each turn of the run.
fn wait_often<R: Wait + Abort>(
    rt: &R,
    count: &EventCount,
    seat: &mut Seat,
    run: &Run,
    made: &AtomicU64,
)
    requires of { IsSeatOf count.now seat.old }
    requires waiter { (card_of seat.old).number < (sizes_of count.now).waiters }
    requires idle { IsIdle seat.old }
    ensures of { IsSeatOf count.now seat.new }
    ensures idle { IsIdle seat.new }
{
    for turn in 0..run.turns {
        wait_once(rt, count, seat, run.wanted, made, turn);
    }
}

/// Notifies one waiter or all of them. Returns whether the notification counts: without a
/// condition, it counts only if it reached a waiter.
fn notify_once<R: Wait + Abort>(
    rt: &R,
    count: &EventCount,
    seat: &mut Seat,
    wanted: Wanted,
    made: &AtomicU64,
) -> bool
    requires of { IsSeatOf count.now seat.old }
    requires idle { IsIdle seat.old }
    ensures of { IsSeatOf count.now seat.new }
    ensures idle { IsIdle seat.new }
{
    let number = seat.number();
    let told = match wanted {
        Wanted::Notice => {
            count.look(seat);
            expect_seat(rt, seat, number, Phase::Running, true);
            match count.try_notify(seat) {
                TryNotify::Nothing | TryNotify::Contended => false,
                TryNotify::Signalled => true,
                TryNotify::Popped(other) => {
                    assert!(rt; count.try_unpark_next(seat) == Some(other));
                    true
                }
            }
        }
        Wanted::Item => {
            made.fetch_add(1, Ordering::SeqCst);
            count.notify(rt, seat);
            true
        }
        Wanted::Round => {
            made.fetch_add(1, Ordering::SeqCst);
            count.notify_all(rt, seat);
            true
        }
    };
    expect_seat(rt, seat, number, Phase::Running, false);
    told
}

/// Notifies until the run's number of notifications have counted.
fn notify_often<R: Wait + Abort>(
    rt: &R,
    count: &EventCount,
    seat: &mut Seat,
    run: &Run,
    made: &AtomicU64,
)
    requires of { IsSeatOf count.now seat.old }
    requires idle { IsIdle seat.old }
    ensures of { IsSeatOf count.now seat.new }
    ensures idle { IsIdle seat.new }
{
    let mut told = 0;
    for _ in rt.forever() {
        if told == run.notices {
            return;
        }
        if notify_once(rt, count, seat, run.wanted, made) {
            told += 1;
        }
    }
}

/// Runs the waiters and the notifiers, each on a thread of its own.
fn wait_and_notify<R: Threads + Wait + Abort + Sync>(
    rt: &R,
    count: &EventCount,
    seats: &mut Vec<Seat>,
    run: &Run,
    made: &AtomicU64,
)
    requires waiters { (sizes_of count.now).waiters ≡ run.now.waiters }
    requires of { All (IsSeatOf count.now) seats.old.items }
    requires idle { All IsIdle seats.old.items }
    ensures of { All (IsSeatOf count.now) seats.new.items }
    ensures idle { All IsIdle seats.new.items }
    ensures all { length seats.new.items ≡ length seats.old.items }
{
    let waiters = run.waiters;
    thread::for_each_mut(
        rt,
        seats.as_mut_slice(),
        8,
        &|_, seat: &mut Seat|
            requires waiters { (sizes_of count.now).waiters ≡ waiters }
            requires of { IsSeatOf count.now seat.old }
            requires idle { IsIdle seat.old }
            ensures of { IsSeatOf count.entry.now seat.new }
            ensures idle { IsIdle seat.new }
        {
            if seat.number() < u32::from(waiters) {
                wait_often(rt, count, seat, run, made);
            } else {
                notify_often(rt, count, seat, run, made);
            }
        },
    );
}

/// Runs the waiters and notifiers at a new count. Returns how many items are left, or how many
/// rounds there were.
fn made_by<R: Threads + Wait + Abort + Sync>(rt: &R, alloc: Global, run: &Run) -> u64 {
    let Ok((count, mut seats)) = EventCount::new(alloc, run.waiters, run.notifiers) else {
        panic!(rt; "no count")
    };
    let made = AtomicU64::new(0);
    wait_and_notify(rt, &count, &mut seats, run, &made);
    assert!(rt; count.close(seats) == 0x3FFF);
    made.load(Ordering::SeqCst)
}

#[test]
fn waiters_and_notifiers(rt: HostRuntime) {
    for run in &RUNS {
        let wanted = match run.wanted {
            Wanted::Round => run.notices,
            _ => 0,
        };
        assert!(rt; made_by(&rt, rt.alloc(), run) == wanted, "{}", run.name);
    }
}
