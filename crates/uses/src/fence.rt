//! A fence: one thread goes on once all others have done their part. `pool_barrier/CALLING.md`
//! quotes it.
ghost use Rattle.std.specs.Prelude.{◌≡◌, ◌<◌, ◌↔◌, All, IsErrOf};
ghost use Rattle.pool_barrier.specs.Limits.{most_notices};
ghost use Rattle.pool_barrier.specs.Shares.{notices_of, IsShareOf, IsWaiterOf};

use pool_barrier::{Barrier, BarrierFault, Share};
use std::alloc::Global;
use std::sync::Wait;
use std::sync::atomic::{AtomicU64, Ordering};
use std::thread::{self, Threads};

/// Waits at a barrier for the given number of threads, and returns how many of them had arrived
/// when the wait ended.
pub fn arrived<RT: Threads + Wait + Sync>(
    rt: &RT,
    alloc: Global,
    threads: u32,
) -> Result<u64, BarrierFault>
    requires { 0 < threads }
    ensures too_large { IsErrOf result BarrierFault.TooLarge ↔ (most_notices < threads) }
{
    let (barrier, mut waiter, mut all) = Barrier::new(alloc, u64::from(threads))?;
    let mut shares = Vec::with_capacity(alloc, threads as usize)?;
    for _ in 0..threads {
        shares.push_reserved(barrier.split(&mut all, 1));
    }
    let (barrier, parts) = (&barrier, AtomicU64::new(0));
    let (seen, ()) = thread::join(
        rt,
        || -> u64
            requires { IsWaiterOf barrier.now waiter }
        {
            barrier.wait(rt, &mut waiter);
            parts.load(Ordering::SeqCst)
        },
        ||
            requires threads { 0 < threads }
            requires of { All (IsShareOf barrier.now) shares.items }
            requires one { All (λ share. notices_of share ≡ 1) shares.items }
        {
            thread::for_each_mut(
                rt,
                &mut shares,
                threads as usize,
                &|_, share: &mut Share|
                    requires of { IsShareOf barrier.now share.old }
                    requires one { notices_of share.old ≡ 1 }
                {
                    parts.fetch_add(1, Ordering::SeqCst);
                    barrier.notify(share);
                },
            );
        },
    );
    Ok(seen)
}
