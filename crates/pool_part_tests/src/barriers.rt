//! Tests of barriers: notices that are given, and waits for them.
ghost use Rattle.pool_barrier.specs.Shares.{IsShareOf, IsWaiterOf, notices_of};
ghost use Rattle.std.specs.Prelude.{◌≡◌};

use pool_barrier::{Barrier, BarrierFault, Notification, Share, Waiter};
use std::alloc::Global;
use std::process::Abort;
use std::sync::Wait;
use std::thread::{self, Threads};
use std::time::{Clock, Duration};

/// Returns a barrier, its waiter, and its notices in two shares, of which the second has `moved`.
fn dealt<R: Abort>(
    rt: &R,
    alloc: Global,
    notices: u64,
    moved: u64,
) -> (Barrier, Waiter, Share, Share)
    ensures first { IsShareOf result.0 result.2 }
    ensures second { IsShareOf result.0 result.3 }
    ensures waiter { IsWaiterOf result.0 result.1 }
{
    let Ok((barrier, waiter, mut first)) = Barrier::new(alloc, notices) else {
        panic!(rt; "no barrier")
    };
    assert!(rt; moved <= notices);
    let second = barrier.split(&mut first, moved);
    (barrier, waiter, first, second)
}

/// Gives all notices of a share after a pause in milliseconds.
fn give_late(clock: &impl Clock, pause: u64, barrier: &Barrier, mut share: Share)
    requires { IsShareOf barrier.now share }
{
    thread::sleep(clock, Duration::from_millis(pause));
    while share.notices() > 0 {
        barrier.notify(&mut share);
    }
}

#[test]
fn notices_are_given_on_one_thread(rt: HostRuntime) {
    for (notices, moved) in [(2, 1), (0, 0)] {
        let (barrier, mut waiter, first, second) = dealt(&rt, rt.alloc(), notices, moved);
        give_late(&rt, 0, &barrier, first);
        give_late(&rt, 0, &barrier, second);
        barrier.wait(&rt, &mut waiter);
        barrier.wait(&rt, &mut waiter);
    }
}

#[test]
fn too_many_notices(rt: HostRuntime) {
    let refused = Barrier::new(rt.alloc(), 2_147_483_648).err();
    assert!(rt; refused == Some(BarrierFault::TooLarge));
}

#[test]
fn a_notification_that_was_notified(rt: HostRuntime) {
    let Ok((notification, mut waiter, mut share)) = Notification::new(rt.alloc()) else {
        panic!(rt; "no memory")
    };
    notification.notify(&mut share);
    notification.wait(&rt, &mut waiter);
}

/// Lets two threads give the notices of two shares, and waits for them. Returns whether both
/// threads were started.
fn waits_for_two<R: Threads + Wait + Clock + Abort + Sync>(
    rt: &R,
    alloc: Global,
    (notices, moved, pause): (u64, u64, u64),
) -> bool {
    let (barrier, mut waiter, first, second) = dealt(rt, alloc, notices, moved);
    let barrier = &barrier;
    thread::scope(
        thread::scope_env(),
        rt,
        |scope| -> bool
            requires first { IsShareOf barrier.now first }
            requires second { IsShareOf barrier.now second }
            requires waiter { IsWaiterOf barrier.now waiter }
        {
            let one = scope
                .spawn(move || give_late(rt, pause, barrier, first))
                .is_ok();
            let two = scope
                .spawn(move || give_late(rt, pause, barrier, second))
                .is_ok();
            if one && two {
                barrier.wait(rt, &mut waiter);
                barrier.wait(rt, &mut waiter);
            }
            one && two
        },
    )
}

/// The second time the waiter has time to fall asleep before the first notice.
#[test]
fn two_threads_give_the_notices(rt: HostRuntime) {
    for split in [(2000, 700, 0), (3, 0, 50)] {
        assert!(rt; waits_for_two(&rt, rt.alloc(), split), "of {split:?}");
    }
}
