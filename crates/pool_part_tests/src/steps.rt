//! Steps on an event count, each by the seat with a given number, and what it finds or returns.
//! `sequences.rt` has the table; a new call needs a variant of `Step`.
ghost use Rattle.std.specs.Prelude.{◌≡◌, ◌↔◌, [], All, IsTrue, length};
ghost use Rattle.event_word.specs.declared.phase.Phase.TheVariants.{Pre};
ghost use Rattle.event_count.specs.Seats.{card_of, sizes_of, IsSeatOf, IsIdle};

use crate::told::expect;
use event_count::{EventCount, Phase, Seat, TryCancel, TryCommit, TryNotify, TryNotifyAll};
use std::alloc::Global;
use std::process::Abort;

/// The epoch of each seat's first push, in a count that is made by `new`.
pub(crate) const FIRST_EPOCH: u32 = 0;

/// The last epoch that a seat can have. From there each waiter is pushed at most once.
pub(crate) const LAST_EPOCH: u32 = 4_194_303;

/// Steps on a new count, each by the seat with the given number. The count has `waiters` and
/// `notifiers` seats, and `epoch` is the epoch of their first pushes.
pub(crate) struct Sequence {
    pub(crate) name: &'static str,
    pub(crate) waiters: u16,
    pub(crate) notifiers: u16,
    pub(crate) epoch: u32,
    pub(crate) steps: &'static [(u16, Step)],
}

/// What a seat does, and what it must find or return.
#[derive(Clone, Copy)]
pub(crate) enum Step {
    /// The seat looks, and finds this word.
    Looks(u64),
    /// The seat is running, and becomes a pre-waiter.
    Prewaits,
    /// The seat makes a call that tries once, and gets this result. If the call needs a look, the
    /// seat has looked. This holds for all variants whose names begin with `Tries`.
    TriesCommit(TryCommit),
    TriesCancel(TryCancel),
    TriesNotify(TryNotify),
    TriesNotifyAll(TryNotifyAll),
    TriesToken(bool),
    TriesUnpark(Option<u16>),
}

/// Takes the step if the seat may, and returns whether it finds and returns what the step says.
fn takes(count: &EventCount, waiters: u16, seat: &mut Seat, step: Step) -> bool
    requires of { IsSeatOf count.now seat.old }
    requires waiters { (sizes_of count.now).waiters ≡ waiters }
    ensures of { IsSeatOf count.now seat.new }
{
    match step {
        Step::Looks(word) => count.look(seat) == word,
        Step::TriesUnpark(told) => count.try_unpark_next(seat) == told,
        _ if is_idle(seat) => take_running(count, waiters, seat, step),
        _ if seat.owing() => false,
        Step::TriesToken(told) if seat.phase() == Phase::Stacked => {
            count.try_take_token(seat) == told
        }
        _ if seat.phase() == Phase::Pre => take_waiting(count, seat, step),
        _ => false,
    }
}

/// Takes the step of a seat that is running and owes no unpark, and returns whether it finds and
/// returns what the step says.
fn take_running(count: &EventCount, waiters: u16, seat: &mut Seat, step: Step) -> bool
    requires of { IsSeatOf count.now seat.old }
    requires waiters { (sizes_of count.now).waiters ≡ waiters }
    requires idle { IsIdle seat.old }
    ensures of { IsSeatOf count.now seat.new }
{
    match step {
        Step::Prewaits if seat.number() < u32::from(waiters) => {
            count.prewait(seat);
            true
        }
        Step::TriesNotify(told) if seat.looked() => count.try_notify(seat) == told,
        Step::TriesNotifyAll(told) if seat.looked() => count.try_notify_all(seat) == told,
        _ => false,
    }
}

/// Takes the step of a pre-waiter, and returns whether it returns what the step says.
fn take_waiting(count: &EventCount, seat: &mut Seat, step: Step) -> bool
    requires of { IsSeatOf count.now seat.old }
    requires pre { (card_of seat.old).phase ≡ Pre }
    ensures of { IsSeatOf count.now seat.new }
{
    match step {
        Step::TriesCommit(told) if seat.looked() => count.try_commit(seat) == told,
        Step::TriesCancel(told) if seat.looked() => count.try_cancel(seat) == told,
        _ => false,
    }
}

/// Takes the steps of a sequence in turn, each by the seat at its number.
fn take_each<R: Abort>(rt: &R, count: &EventCount, sequence: &Sequence, seats: &mut Vec<Seat>)
    requires ours { All (IsSeatOf count.now) seats.old.items }
    requires waiters { (sizes_of count.now).waiters ≡ sequence.now.waiters }
    ensures ours { All (IsSeatOf count.now) seats.new.items }
    ensures all { length seats.new.items ≡ length seats.old.items }
{
    let mut place: u64 = 0;
    for (number, step) in sequence.steps {
        let at = usize::from(*number);
        assert!(rt; at < seats.len());
        let seat = &mut seats[at];
        let is_numbered = seat.number() == u32::from(*number);
        let is_taken = takes(count, sequence.waiters, seat, *step);
        expect(rt, is_numbered && is_taken, sequence.name, place);
        place = place.saturating_add(1);
    }
}

/// Returns whether the seat is running and owes no unpark.
fn is_idle(seat: &Seat) -> bool
    ensures { IsTrue result ↔ IsIdle seat.now }
{
    seat.phase() == Phase::Running && !seat.owing()
}

/// Runs a sequence on a new count. The test fails if a step finds or returns something unexpected,
/// if a seat is not idle after the last step, or if the count is not closed at the initial word.
pub(crate) fn run<R: Abort>(rt: &R, alloc: Global, sequence: &Sequence) {
    let (waiters, notifiers) = (sequence.waiters, sequence.notifiers);
    assert!(rt; sequence.epoch <= LAST_EPOCH);
    let made = EventCount::new_at(alloc, waiters, notifiers, sequence.epoch);
    let Ok((count, mut seats)) = made else {
        panic!(rt; "no memory")
    };
    take_each(rt, &count, sequence, &mut seats);
    assert!(rt; seats.iter().all(is_idle), "{} ends idle", sequence.name);
    assert_eq!(rt; count.close(seats), 0x3FFF);
}
