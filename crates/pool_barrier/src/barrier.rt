//! `Barrier`: its calls, each a step on one word. `specs/Shares.antt` names what their contracts
//! say, and `notification.rt` forwards to them.
ghost use Rattle.std.specs.Prelude.{◌≡◌, ◌+◌, ◌<◌, ◌≤◌, ◌↔◌, IfOk, IsErrOf, IsSomeAnd};
ghost use Rattle.pool_barrier.specs.declared.rule.TheConstants.{WORDS};
ghost use Rattle.pool_barrier.specs.Limits.{most_notices};

use crate::fault::BarrierFault;
use crate::plays::{GivesOne, SetsFlag};
use crate::rule::{Amount, CutsShare, Law, MOST_NOTICES, Moves, STATE, WORDS};
use crate::share::{Share, Waiter};
use crate::view::View;
use crate::woken::Woken;
use atomic_table::Table;
use std::alloc::{AllocError, Allocator, Global};
use std::marker::Brand;
use std::sync::Wait;

/// What one notice left adds to the word.
const NOTICE: u64 = 2;

/// The waiter's flag, which is the word's lowest bit.
const FLAG: u64 = 1;

/// A number of notices, each given once, and a waiter for all of them.
///
/// The word is twice the number of notices left, plus 1 if the waiter has set its flag, as in
/// Eigen's `Barrier.h`.
#[derive(Drop)]
pub struct Barrier<A: Allocator = Global> {
    table: Table<(), View, u64, Law, A>,
    ghost words: { table.shared.table_id.words ≡ WORDS },
}

impl<A: Allocator> Barrier<A> {
    ghost use Rattle.pool_barrier.specs.Shares.{notices_of, given_of, count_of, IsFresh, IsDone};
    ghost use Rattle.pool_barrier.specs.Shares.{IsShareOf, IsWaiterOf, HasFoundLast, HasWoken};

    /// Returns a barrier of `count` notices, its waiter, and a share of all notices. Too many
    /// notices are reported before an allocation fails.
    pub fn new(alloc: A, count: u64) -> Result<(Barrier<A>, Waiter, Share), BarrierFault>
        ensures too_large { IsErrOf result BarrierFault.TooLarge ↔ (most_notices < count) }
        ensures barrier { IfOk result (λ made. count_of made.0 ≡ count) }
        ensures waiter { IfOk result (λ made. IsWaiterOf made.0 made.1) }
        ensures fresh { IfOk result (λ made. IsFresh made.1) }
        ensures share { IfOk result (λ made. IsShareOf made.0 made.2) }
        ensures notices { IfOk result (λ made. notices_of made.2 ≡ count) }
        ensures given { IfOk result (λ made. given_of made.2 ≡ 0) }
    {
        if count > MOST_NOTICES {
            return Err(BarrierFault::TooLarge);
        }
        Ok(Barrier::with_count(alloc, count)?)
    }

    /// Does what `new` does, for a count that is not too large.
    pub(crate) fn with_count(
        alloc: A,
        count: u64,
    ) -> Result<(Barrier<A>, Waiter, Share), AllocError>
        requires { count ≤ most_notices }
        ensures barrier { IfOk result (λ made. count_of made.0 ≡ count) }
        ensures waiter { IfOk result (λ made. IsWaiterOf made.0 made.1) }
        ensures fresh { IfOk result (λ made. IsFresh made.1) }
        ensures share { IfOk result (λ made. IsShareOf made.0 made.2) }
        ensures notices { IfOk result (λ made. notices_of made.2 ≡ count) }
        ensures given { IfOk result (λ made. given_of made.2 ≡ 0) }
    {
        let mut words = [0; WORDS];
        words[STATE] = NOTICE * count;
        let (table, mut seat) = Table::of_words(alloc, &words, &count)?;
        let given = table.shared.split_seat::<CutsShare>(&mut seat);
        let share = Share {
            seat: given,
            notices: count,
        };
        Ok((Barrier { table }, Waiter { seat }, share))
    }

    /// Moves `k` notices to a new share, and returns it.
    pub fn split(&self, share: &mut Share, k: u64) -> Share
        requires of { IsShareOf self.now share.old }
        requires room { k ≤ notices_of share.old }
        ensures of { IsShareOf self.now share.new × IsShareOf self.now result }
        ensures left { notices_of share.new + k ≡ notices_of share.old }
        ensures moved { notices_of result ≡ k }
        ensures given { (given_of share.new ≡ given_of share.old) × (given_of result ≡ 0) }
    {
        self.split_by::<Brand>(share, k)
    }

    /// Moves `k` notices to a new share; the type `K` names `k` to the play.
    fn split_by<K: Amount>(&self, share: &mut Share, k: u64) -> Share
        requires amount { K.amount ≡ k }
        requires of { IsShareOf self.now share.old }
        requires room { k ≤ notices_of share.old }
        ensures of { IsShareOf self.now share.new × IsShareOf self.now result }
        ensures left { notices_of share.new + k ≡ notices_of share.old }
        ensures moved { notices_of result ≡ k }
        ensures given { (given_of share.new ≡ given_of share.old) × (given_of result ≡ 0) }
    {
        let seat = self.table.shared.split_seat::<Moves<K>>(&mut share.seat);
        share.notices -= k;
        Share { seat, notices: k }
    }

    /// Gives one notice. If this was the last notice and the waiter may sleep, wakes the waiter, and
    /// returns a token of this. Does not wait.
    pub fn notify(&self, share: &mut Share) -> Option<Woken>
        requires of { IsShareOf self.now share.old }
        requires left { 0 < notices_of share.old }
        ensures of { IsShareOf self.now share.new }
        ensures left { notices_of share.new + 1 ≡ notices_of share.old }
        ensures given { given_of share.new ≡ given_of share.old + 1 }
        ensures woken { HasFoundLast share.new → IsSomeAnd result (HasWoken share.new) }
    {
        let shared = &self.table.shared;
        let found = shared.fetch_sub::<GivesOne>(&mut share.seat, STATE, NOTICE);
        share.notices -= 1;
        if found != NOTICE + FLAG {
            return None;
        }
        Some(Woken::waiter(shared, &share.seat))
    }

    /// Waits until no share of the barrier has a notice left. It may be called again, and then
    /// returns at once.
    pub fn wait<R: Wait>(&self, rt: &R, waiter: &mut Waiter)
        requires { IsWaiterOf self.now waiter.old }
        ensures of { IsWaiterOf self.now waiter.new }
        ensures done { IsDone waiter.new }
    {
        for _ in rt.forever() {
            let found = self
                .table
                .shared
                .fetch_or::<SetsFlag>(&mut waiter.seat, STATE, FLAG);
            if found < NOTICE {
                return;
            }
            self.table.shared.park(rt, STATE, (found | FLAG) as u32);
        }
        unreachable!()
    }
}
