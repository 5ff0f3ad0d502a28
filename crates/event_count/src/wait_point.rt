//! `WaitPoint`: the trait of what the workers of a pool wait on. `EventCount` implements it here,
//! and `LockedCount` in its own module. worker_pool calls it.
ghost use Rattle.std.specs.Prelude.{◌≡◌, ℕ, ◌+◌, ◌<◌, ◌↔◌, List, [], length, map, All};
ghost use Rattle.std.specs.Prelude.{IfOk, IsErrOf, vec_len};
ghost use Rattle.std.specs.List.{range_with_len};
ghost use Rattle.atomic_table.specs.Seated.{TableId};
ghost use Rattle.event_word.specs.declared.phase.Phase.{Phase};
ghost use Rattle.event_word.specs.declared.phase.Phase.TheVariants.{Running, Pre};
ghost use Rattle.event_count.specs.Limits.{most_waiters};

use crate::answers::Committed;
use crate::count::EventCount;
use crate::fault::CountFault;
use crate::seat::Seat;
use event_word::Phase;
use std::alloc::Allocator;
use std::sync::Wait;

/// A point at which threads wait for a condition that others make true. Each thread has a seat of
/// its own.
///
/// A waiter enters, checks its condition, and then sleeps or leaves. A notifier makes the condition
/// true, and then wakes one waiter or all. The seats with the lowest numbers may wait, and all
/// seats may wake.
///
/// `EventCount` is a point without a lock, and `LockedCount` a point behind a lock.
pub trait WaitPoint<A: Allocator>: Sized + Drop {
    /// A thread's right to use the point.
    type Seat: Drop;

    // How many seats may wait, and how many seats there are.
    ghost waiter_count: { Self → ℕ };

    ghost seat_count: { Self → ℕ };

    // What distinguishes this point from others, and the point with which a seat was made.
    ghost Identity: { Type 0 };

    ghost identity_of: { Self → Identity };

    ghost point_of: { Self.Seat → Identity };

    // A seat's number, from 0 on, its phase, and the seats that it has to wake.
    ghost number_of: { Self.Seat → ℕ };

    ghost phase_of: { Self.Seat → Phase };

    ghost owing_of: { Self.Seat → List ℕ };

    // Which words `shut` may return.
    ghost is_last: { ℕ → Type 0 };

    /// Returns a point and its seats, by number: the waiters first, then the notifiers.
    fn open(
        alloc: A,
        waiters: u16,
        notifiers: u16,
    ) -> Result<(Self, Vec<Self::Seat, A>), CountFault>
        requires { 0 < waiters }
        ensures too_many { IsErrOf result CountFault.TooManyWaiters ↔ (most_waiters < waiters) }
        ensures waiters { IfOk result (λ made. waiter_count made.0 ≡ waiters) }
        ensures seats { IfOk result (λ made. seat_count made.0 ≡ waiters + notifiers) }
        ensures all { IfOk result (λ made. length made.1.items ≡ seat_count made.0) }
        ensures numbers { IfOk result (λ made.
            map number_of made.1.items ≡ range_with_len 0 (waiters + notifiers)) }
        ensures running { IfOk result (λ made. All (λ s. phase_of s ≡ Running) made.1.items) }
        ensures owe_none { IfOk result (λ made. All (λ s. owing_of s ≡ []) made.1.items) }
        ensures ours { IfOk result (λ made.
            All (λ s. point_of s ≡ identity_of made.0) made.1.items) };

    /// Says that the seat is about to wait: from now on it is woken.
    fn enter<R: Wait>(&self, rt: &R, seat: &mut Self::Seat)
        requires ours { point_of seat.old ≡ identity_of self.now }
        requires waiter { number_of seat.old < waiter_count self.now }
        requires running { phase_of seat.old ≡ Running }
        requires owes_none { owing_of seat.old ≡ [] }
        ensures ours { point_of seat.new ≡ point_of seat.old }
        ensures number { number_of seat.new ≡ number_of seat.old }
        ensures pre { phase_of seat.new ≡ Pre }
        ensures owes_none { owing_of seat.new ≡ [] };

    /// Waits until the seat is woken. `Spent` means that the seat can't sleep any more, and was not
    /// woken.
    fn sleep<R: Wait>(&self, rt: &R, seat: &mut Self::Seat) -> Committed
        requires ours { point_of seat.old ≡ identity_of self.now }
        requires pre { phase_of seat.old ≡ Pre }
        ensures ours { point_of seat.new ≡ point_of seat.old }
        ensures number { number_of seat.new ≡ number_of seat.old }
        ensures running { phase_of seat.new ≡ Running }
        ensures owing { owing_of seat.new ≡ owing_of seat.old };

    /// Says that the seat gives up waiting.
    fn leave<R: Wait>(&self, rt: &R, seat: &mut Self::Seat)
        requires ours { point_of seat.old ≡ identity_of self.now }
        requires pre { phase_of seat.old ≡ Pre }
        ensures ours { point_of seat.new ≡ point_of seat.old }
        ensures number { number_of seat.new ≡ number_of seat.old }
        ensures running { phase_of seat.new ≡ Running }
        ensures owing { owing_of seat.new ≡ owing_of seat.old };

    /// Wakes one waiter, if any waits.
    fn wake_one<R: Wait>(&self, rt: &R, seat: &mut Self::Seat)
        requires ours { point_of seat.old ≡ identity_of self.now }
        requires running { phase_of seat.old ≡ Running }
        requires owes_none { owing_of seat.old ≡ [] }
        ensures ours { point_of seat.new ≡ point_of seat.old }
        ensures number { number_of seat.new ≡ number_of seat.old }
        ensures running { phase_of seat.new ≡ Running }
        ensures owes_none { owing_of seat.new ≡ [] };

    /// Wakes all waiters.
    fn wake_all<R: Wait>(&self, rt: &R, seat: &mut Self::Seat)
        requires ours { point_of seat.old ≡ identity_of self.now }
        requires running { phase_of seat.old ≡ Running }
        requires owes_none { owing_of seat.old ≡ [] }
        ensures ours { point_of seat.new ≡ point_of seat.old }
        ensures number { number_of seat.new ≡ number_of seat.old }
        ensures running { phase_of seat.new ≡ Running }
        ensures owes_none { owing_of seat.new ≡ [] };

    /// Does what `shut` does. Each implementation writes this method; callers call `shut`. It may
    /// take the seats out of the list.
    fn shut_with(self, seats: &mut Vec<Self::Seat, A>) -> u64
        requires ours { All (λ s. point_of s ≡ identity_of self) seats.old.items }
        requires all { length seats.old.items ≡ seat_count self }
        requires running { All (λ s. phase_of s ≡ Running) seats.old.items }
        requires owe_none { All (λ s. owing_of s ≡ []) seats.old.items }
        ensures { is_last result };

    /// Ends the point, given all its seats, and returns the last state word.
    final fn shut(self, mut seats: Vec<Self::Seat, A>) -> u64
        requires ours { All (λ s. point_of s ≡ identity_of self) seats.items }
        requires all { length seats.items ≡ seat_count self }
        requires running { All (λ s. phase_of s ≡ Running) seats.items }
        requires owe_none { All (λ s. owing_of s ≡ []) seats.items }
        ensures { is_last result }
    {
        self.shut_with(&mut seats)
    }
}

// Each call is a call of the count, and promises for the seat what that call promises.
impl<A: Allocator + Clone> WaitPoint<A> for EventCount<A> {
    ghost use Rattle.event_count.specs.Cards.{fresh_cards};
    ghost use Rattle.event_count.specs.Counts.{Ends};
    ghost use Rattle.event_count.specs.Gains.{prewaiting};
    ghost use Rattle.event_count.specs.Kinds.{without_rows};
    ghost use Rattle.event_count.specs.Seats.{card_of, sizes_of, seats_of, count_id, seat_id};
    ghost use Rattle.event_count.specs.Seats.{IsSeatOf, HasNoLook};
    ghost use Rattle.event_count.specs.Waits.{RestsOnCommit, RestsOnCancel, RestsOnNotify};
    ghost use Rattle.event_count.specs.Waits.{RestsOnNotifyAll};

    type Seat = Seat;

    ghost waiter_count = { λ count. (sizes_of count).waiters };

    ghost seat_count = { λ count. seats_of count };

    ghost Identity = { TableId };

    ghost identity_of = { λ count. count_id count };

    ghost point_of = { λ seat. seat_id seat };

    ghost number_of = { λ seat. (card_of seat).number };

    ghost phase_of = { λ seat. (card_of seat).phase };

    ghost owing_of = { λ seat. (card_of seat).owing };

    ghost is_last = { λ word. word ≡ 0x3FFF };

    fn open(alloc: A, waiters: u16, notifiers: u16) -> Result<(Self, Vec<Seat, A>), CountFault>
        requires { 0 < waiters }
        ensures too_many { IsErrOf result CountFault.TooManyWaiters ↔ (most_waiters < waiters) }
        ensures waiters { IfOk result (λ made. (sizes_of made.0).waiters ≡ waiters) }
        ensures seats { IfOk result (λ made. seats_of made.0 ≡ waiters + notifiers) }
        ensures all { IfOk result (λ made. length made.1.items ≡ seats_of made.0) }
        ensures numbers { IfOk result (λ made.
            map (λ s. (card_of s).number) made.1.items ≡ range_with_len 0 (waiters + notifiers)) }
        ensures running { IfOk result (λ made.
            All (λ s. (card_of s).phase ≡ Running) made.1.items) }
        ensures owe_none { IfOk result (λ made. All (λ s. (card_of s).owing ≡ []) made.1.items) }
        ensures ours { IfOk result (λ made. All (IsSeatOf made.0) made.1.items) }
        ensures sizes { IfOk result (λ made.
            sizes_of made.0 ≡ record { waiters = waiters; notifiers = notifiers; first = 0 }) }
        ensures cards { IfOk result (λ made.
            map card_of made.1.items ≡ fresh_cards (sizes_of made.0)) }
        ensures unlooked { IfOk result (λ made. All HasNoLook made.1.items) }
    {
        EventCount::new_at(alloc, waiters, notifiers, 0)
    }

    fn enter<R: Wait>(&self, _rt: &R, seat: &mut Seat)
        requires ours { IsSeatOf self.now seat.old }
        requires waiter { (card_of seat.old).number < (sizes_of self.now).waiters }
        requires running { (card_of seat.old).phase ≡ Running }
        requires owes_none { (card_of seat.old).owing ≡ [] }
        ensures ours { seat_id seat.new ≡ seat_id seat.old }
        ensures card { card_of seat.new ≡ prewaiting (card_of seat.old) }
    {
        self.prewait(seat);
    }

    fn sleep<R: Wait>(&self, rt: &R, seat: &mut Seat) -> Committed
        requires ours { IsSeatOf self.now seat.old }
        requires pre { (card_of seat.old).phase ≡ Pre }
        ensures ours { seat_id seat.new ≡ seat_id seat.old }
        ensures number { (card_of seat.new).number ≡ (card_of seat.old).number }
        ensures running { (card_of seat.new).phase ≡ Running }
        ensures owing { (card_of seat.new).owing ≡ (card_of seat.old).owing }
        ensures answer { RestsOnCommit without_rows (card_of seat.old) result (card_of seat.new) }
    {
        self.commit(rt, seat)
    }

    fn leave<R: Wait>(&self, rt: &R, seat: &mut Seat)
        requires ours { IsSeatOf self.now seat.old }
        requires pre { (card_of seat.old).phase ≡ Pre }
        ensures ours { seat_id seat.new ≡ seat_id seat.old }
        ensures number { (card_of seat.new).number ≡ (card_of seat.old).number }
        ensures running { (card_of seat.new).phase ≡ Running }
        ensures owing { (card_of seat.new).owing ≡ (card_of seat.old).owing }
        ensures answer { RestsOnCancel without_rows (card_of seat.old) (card_of seat.new) }
    {
        self.cancel(rt, seat);
    }

    fn wake_one<R: Wait>(&self, rt: &R, seat: &mut Seat)
        requires ours { IsSeatOf self.now seat.old }
        requires running { (card_of seat.old).phase ≡ Running }
        requires owes_none { (card_of seat.old).owing ≡ [] }
        ensures ours { seat_id seat.new ≡ seat_id seat.old }
        ensures number { (card_of seat.new).number ≡ (card_of seat.old).number }
        ensures running { (card_of seat.new).phase ≡ Running }
        ensures owes_none { (card_of seat.new).owing ≡ [] }
        ensures answer { RestsOnNotify without_rows (card_of seat.old) (card_of seat.new) }
    {
        self.notify(rt, seat);
    }

    fn wake_all<R: Wait>(&self, rt: &R, seat: &mut Seat)
        requires ours { IsSeatOf self.now seat.old }
        requires running { (card_of seat.old).phase ≡ Running }
        requires owes_none { (card_of seat.old).owing ≡ [] }
        ensures ours { seat_id seat.new ≡ seat_id seat.old }
        ensures number { (card_of seat.new).number ≡ (card_of seat.old).number }
        ensures running { (card_of seat.new).phase ≡ Running }
        ensures owes_none { (card_of seat.new).owing ≡ [] }
        ensures answer { RestsOnNotifyAll without_rows (card_of seat.old) (card_of seat.new) }
    {
        self.notify_all(rt, seat);
    }

    fn shut_with(self, seats: &mut Vec<Seat, A>) -> u64
        requires ours { All (IsSeatOf self) seats.old.items }
        requires all { vec_len seats.old ≡ seats_of self }
        requires running { All (λ s. (card_of s).phase ≡ Running) seats.old.items }
        requires owe_none { All (λ s. (card_of s).owing ≡ []) seats.old.items }
        ensures word { result ≡ 0x3FFF }
        ensures ends { Ends (sizes_of self) (map card_of seats.old.items) }
    {
        self.close_with(seats)
    }
}
