//! `Notification`: a barrier of one notice. Each call is a call of `barrier.rt`.
ghost use Rattle.std.specs.Prelude.{◌≡◌, ◌+◌, ◌<◌, IfOk, IsSomeAnd};

use crate::barrier::Barrier;
use crate::share::{Share, Waiter};
use crate::woken::Woken;
use std::alloc::{AllocError, Allocator, Global};
use std::sync::Wait;

/// One notice, and a waiter for it.
#[derive(Drop)]
pub struct Notification<A: Allocator = Global> {
    barrier: Barrier<A>,
}

impl<A: Allocator> Notification<A> {
    ghost use Rattle.pool_barrier.specs.Shares.{notices_of, given_of, count_of, IsFresh, IsDone};
    ghost use Rattle.pool_barrier.specs.Shares.{IsShareOf, IsWaiterOf, HasFoundLast, HasWoken};
    ghost use Rattle.pool_barrier.specs.Notifications.{barrier_of};

    /// Returns a notification, its waiter, and a share that has the one notice. Fails only if an
    /// allocation fails.
    pub fn new(alloc: A) -> Result<(Notification<A>, Waiter, Share), AllocError>
        ensures barrier { IfOk result (λ made. count_of (barrier_of made.0) ≡ 1) }
        ensures waiter { IfOk result (λ made. IsWaiterOf (barrier_of made.0) made.1) }
        ensures fresh { IfOk result (λ made. IsFresh made.1) }
        ensures share { IfOk result (λ made. IsShareOf (barrier_of made.0) made.2) }
        ensures notices { IfOk result (λ made. notices_of made.2 ≡ 1) }
        ensures given { IfOk result (λ made. given_of made.2 ≡ 0) }
    {
        let (barrier, waiter, share) = Barrier::with_count(alloc, 1)?;
        Ok((Notification { barrier }, waiter, share))
    }

    /// Gives the notice. If the waiter may sleep, wakes it, and returns a token of this.
    pub fn notify(&self, share: &mut Share) -> Option<Woken>
        requires of { IsShareOf (barrier_of self.now) share.old }
        requires left { 0 < notices_of share.old }
        ensures of { IsShareOf (barrier_of self.now) share.new }
        ensures left { notices_of share.new + 1 ≡ notices_of share.old }
        ensures given { given_of share.new ≡ given_of share.old + 1 }
        ensures woken { HasFoundLast share.new → IsSomeAnd result (HasWoken share.new) }
    {
        self.barrier.notify(share)
    }

    /// Waits until the notice was given. It may be called again, and then returns at once.
    pub fn wait<R: Wait>(&self, rt: &R, waiter: &mut Waiter)
        requires { IsWaiterOf (barrier_of self.now) waiter.old }
        ensures of { IsWaiterOf (barrier_of self.now) waiter.new }
        ensures done { IsDone waiter.new }
    {
        self.barrier.wait(rt, waiter);
    }
}
