//! `LockedCount`: an event count behind a lock. Tests compare `EventCount` with it, and a pool may
//! use it instead.
ghost use Rattle.std.specs.Prelude.{◌≡◌, ◌≢◌, ◌+◌, ◌<◌, ◌≤◌, [], map, All, IfOk};
ghost use Rattle.std.specs.List.{range_with_len};
ghost use Rattle.std.specs.Sync.Mutex.{mutex_guard_value};
ghost use Rattle.event_word.specs.declared.phase.Phase.TheVariants.{Running, Pre};
ghost use Rattle.event_count.specs.Limits.{most_waiters};
ghost use Rattle.event_count.specs.Known.{first_world};
ghost use Rattle.event_count.specs.LockedCount.{HasJustWoken, IsSleep, IsLast};

use crate::answers::{CommitIn, Committed};
use crate::fault::CountFault;
use crate::rule::{MOST_WAITERS, Sizes};
use crate::stepped_world::SteppedWorld;
use crate::wait_point::WaitPoint;
use event_word::{Event, Phase};
use std::alloc::{AllocError, Allocator, Global};
use std::sync::{Condvar, Mutex, MutexGuard, Wait};

/// An event count behind one lock. Whenever the lock is free, it holds a lawful World without rows.
#[derive(Drop)]
pub struct LockedCount<A: Allocator = Global> {
    // The sizes of the count. Only contracts read this field.
    sizes: Sizes,
    world: Mutex<SteppedWorld<A>>,
    // Signalled after each notification.
    notified: Condvar,
    ghost few: { sizes.waiters ≤ most_waiters },
}

/// A seat at a `LockedCount`: its number and its phase.
#[derive(Drop)]
pub struct LockedSeat {
    number: u32,
    phase: Phase,
    ghost waits: { phase ≡ Pre → number < most_waiters },
}

impl LockedSeat {
    /// Returns a seat that runs.
    fn new(number: u32) -> LockedSeat
        ensures number { result.number ≡ number }
        ensures running { result.phase ≡ Running }
    {
        LockedSeat {
            number,
            phase: Phase::Running,
        }
    }

    /// Returns the number of the seat, which is a waiter.
    fn waiter(&self) -> u16
        requires { self.now.number < most_waiters }
        ensures { result ≡ self.now.number }
    {
        self.number as u16
    }
}

/// Returns `count` seats, numbered from 0 on.
fn seats<A: Allocator>(alloc: A, count: u32) -> Result<Vec<LockedSeat, A>, AllocError>
    ensures numbers { IfOk result (λ seats.
        map (λ seat. seat.number) seats.items ≡ range_with_len 0 count) }
    ensures running { IfOk result (λ seats. All (λ seat. seat.phase ≡ Running) seats.items) }
{
    let mut seats = Vec::with_capacity(alloc, count as usize)?;
    for number in 0..count {
        seats.push_reserved(LockedSeat::new(number));
    }
    Ok(seats)
}

impl<A: Allocator> LockedCount<A> {
    /// Returns a count that begins with this World and has its sizes.
    fn beginning_with(world: SteppedWorld<A>) -> LockedCount<A>
        requires { world.world ≡ first_world world.sizes }
        ensures { result.sizes ≡ world.sizes }
    {
        LockedCount {
            sizes: world.sizes,
            world: Mutex::new(world),
            notified: Condvar::new(),
        }
    }

    /// Commits the seat in the World behind the lock. A seat that was pushed sleeps.
    fn commit<'a, R: Wait>(
        &'a self,
        rt: &R,
        mut world: MutexGuard<'a, SteppedWorld<A>>,
        seat: u16,
    ) -> (Committed, MutexGuard<'a, SteppedWorld<A>>)
        ensures { IsSleep (mutex_guard_value world.entry).world seat result.0
            (mutex_guard_value result.1).world }
    {
        match world.commit(seat) {
            CommitIn::Pushed => (Committed::Unparked, self.take_token(rt, world, seat)),
            CommitIn::Consumed | CommitIn::Impossible => (Committed::Consumed, world),
        }
    }

    /// Puts a stacked seat to sleep until it has taken its token.
    fn take_token<'a, R: Wait>(
        &'a self,
        rt: &R,
        mut world: MutexGuard<'a, SteppedWorld<A>>,
        seat: u16,
    ) -> MutexGuard<'a, SteppedWorld<A>>
        ensures { HasJustWoken seat (mutex_guard_value result).world }
    {
        for _ in rt.forever() {
            if world.step(Event::Wake { seat }) {
                return world;
            }
            world = self.notified.wait(rt, world);
        }
        unreachable!()
    }
}

// Each call takes steps of the World under the lock. Contracts know the World behind the lock by
// its type alone. So no clause of a call says which steps it took, or that the World's sizes are
// the count's.
impl<A: Allocator + Clone> WaitPoint<A> for LockedCount<A> {
    type Seat = LockedSeat;

    ghost waiter_count = { λ count. count.sizes.waiters };

    ghost seat_count = { λ count. count.sizes.waiters + count.sizes.notifiers };

    // A seat is only a number and a phase.
    ghost Identity = { Unit {0} };

    ghost identity_of = { λ _. tt };

    ghost point_of = { λ _. tt };

    ghost number_of = { λ seat. seat.number };

    ghost phase_of = { λ seat. seat.phase };

    // A seat unparks what it pops before it releases the lock.
    ghost owing_of = { λ _. [] };

    ghost is_last = { IsLast };

    fn open(
        alloc: A,
        waiters: u16,
        notifiers: u16,
    ) -> Result<(Self, Vec<LockedSeat, A>), CountFault> {
        if waiters > MOST_WAITERS {
            return Err(CountFault::TooManyWaiters);
        }
        let sizes = Sizes {
            waiters,
            notifiers,
            first: 0,
        };
        let world = SteppedWorld::new(alloc.clone()?, sizes)?;
        let seats = seats(alloc, u32::from(waiters) + u32::from(notifiers))?;
        Ok((LockedCount::beginning_with(world), seats))
    }

    fn enter<R: Wait>(&self, rt: &R, seat: &mut LockedSeat) {
        let number = seat.waiter();
        self.world.lock(rt).step(Event::Prewait { seat: number });
        seat.phase = Phase::Pre;
    }

    fn sleep<R: Wait>(&self, rt: &R, seat: &mut LockedSeat) -> Committed
        requires pre { seat.old.phase ≡ Pre }
        ensures number { seat.new.number ≡ seat.old.number }
        ensures running { seat.new.phase ≡ Running }
        ensures never_spent { result ≢ Committed.Spent }
    {
        let number = seat.waiter();
        seat.phase = Phase::Running;
        self.commit(rt, self.world.lock(rt), number).0
    }

    fn leave<R: Wait>(&self, rt: &R, seat: &mut LockedSeat) {
        let number = seat.waiter();
        self.world.lock(rt).step(Event::Cancel { seat: number });
        seat.phase = Phase::Running;
    }

    fn wake_one<R: Wait>(&self, rt: &R, seat: &mut LockedSeat) {
        self.world.lock(rt).notify(seat.number);
        self.notified.notify_all();
    }

    fn wake_all<R: Wait>(&self, rt: &R, seat: &mut LockedSeat) {
        self.world.lock(rt).notify_all(seat.number);
        self.notified.notify_all();
    }

    fn shut_with(self, seats: &mut Vec<LockedSeat, A>) -> u64 {
        seats.clear();
        self.world.into_inner().word()
    }
}
