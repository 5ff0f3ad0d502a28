//! Tests of wait points with one waiter and one notifier, through the trait `WaitPoint`. A new kind
//! of point gets a line at the end.
ghost use Rattle.std.specs.Prelude.{◌≡◌, ◌<◌, []};
ghost use Rattle.event_word.specs.declared.phase.Phase.TheVariants.{Running, Pre};

use event_count::{Committed, EventCount, LockedCount, WaitPoint};
use std::alloc::Global;
use std::process::Abort;
use std::sync::Wait;
use std::sync::atomic::{AtomicU64, Ordering};
use std::thread::{self, Threads};

/// How often the word goes back and forth.
const TURNS: u64 = 100_000;

/// Returns a point of one waiter and one notifier, with their seats.
fn pair<P: WaitPoint<Global>, R: Abort>(rt: &R, alloc: Global) -> (P, P::Seat, P::Seat)
    ensures waiters { P.waiter_count result.0 ≡ 1 }
    ensures seats { P.seat_count result.0 ≡ 2 }
    ensures waiter { P.number_of result.1 ≡ 0 }
    ensures waits { P.phase_of result.1 ≡ Running }
    ensures notifies { P.phase_of result.2 ≡ Running }
    ensures waiter_owes_none { P.owing_of result.1 ≡ [] }
    ensures notifier_owes_none { P.owing_of result.2 ≡ [] }
    ensures waiter_ours { P.point_of result.1 ≡ P.identity_of result.0 }
    ensures notifier_ours { P.point_of result.2 ≡ P.identity_of result.0 }
{
    let Ok((point, seats)) = P::open(alloc, 1, 1) else {
        panic!(rt; "no point")
    };
    let seats = match <[P::Seat; 2]>::try_from(seats) {
        Ok(seats) => seats,
        Err(_) => panic!(rt; "there are two seats"),
    };
    let [waiter, notifier] = seats;
    (point, waiter, notifier)
}

/// Checks that a sleep consumes a signal that came before it.
fn consumes_signals<P: WaitPoint<Global>, R: Wait + Abort>(rt: &R, alloc: Global) {
    let (point, mut waiter, mut notifier) = pair::<P, R>(rt, alloc);
    point.enter(rt, &mut waiter);
    point.wake_one(rt, &mut notifier);
    let after_one = point.sleep(rt, &mut waiter);
    point.enter(rt, &mut waiter);
    point.wake_all(rt, &mut notifier);
    let after_all = point.sleep(rt, &mut waiter);
    let mut seats = Vec::new(alloc);
    assert!(rt; seats.push(waiter).is_ok());
    assert!(rt; seats.push(notifier).is_ok());
    let word = point.shut(seats);
    let both = (after_one, after_all) == (Committed::Consumed, Committed::Consumed);
    assert!(rt; both && word == 0x3FFF);
}

/// Hands the word over, and sleeps until it is back, in each turn.
fn lead<P: WaitPoint<Global>, R: Wait + Abort>(
    rt: &R,
    there: &P,
    here: &P,
    notifier: &mut P::Seat,
    waiter: &mut P::Seat,
    word: &AtomicU64,
)
    requires ours { P.point_of waiter.old ≡ P.identity_of here.now }
    requires waiter { P.number_of waiter.old < P.waiter_count here.now }
    requires running { P.phase_of waiter.old ≡ Running }
    requires owes_none { P.owing_of waiter.old ≡ [] }
    requires theirs { P.point_of notifier.old ≡ P.identity_of there.now }
    requires notifies { P.phase_of notifier.old ≡ Running }
    requires notifier_owes_none { P.owing_of notifier.old ≡ [] }
{
    for turn in 0..TURNS {
        here.enter(rt, waiter);
        word.store(2 * turn + 1, Ordering::SeqCst);
        there.wake_one(rt, notifier);
        here.sleep(rt, waiter);
        assert!(rt; word.load(Ordering::SeqCst) == 2 * turn + 2, "turn {turn}");
    }
}

/// Sleeps until the word comes, and hands it back, in each turn. The waiter has entered before the
/// call.
fn follow<P: WaitPoint<Global>, R: Wait + Abort>(
    rt: &R,
    here: &P,
    there: &P,
    waiter: &mut P::Seat,
    notifier: &mut P::Seat,
    word: &AtomicU64,
)
    requires ours { P.point_of waiter.old ≡ P.identity_of here.now }
    requires waiter { P.number_of waiter.old < P.waiter_count here.now }
    requires pre { P.phase_of waiter.old ≡ Pre }
    requires owes_none { P.owing_of waiter.old ≡ [] }
    requires theirs { P.point_of notifier.old ≡ P.identity_of there.now }
    requires notifies { P.phase_of notifier.old ≡ Running }
    requires notifier_owes_none { P.owing_of notifier.old ≡ [] }
{
    for turn in 0..TURNS {
        here.sleep(rt, waiter);
        assert!(rt; word.load(Ordering::SeqCst) == 2 * turn + 1, "turn {turn}");
        here.enter(rt, waiter);
        word.store(2 * turn + 2, Ordering::SeqCst);
        there.wake_one(rt, notifier);
    }
    here.leave(rt, waiter);
}

/// Hands a word back and forth between two threads. Each turn of a side is one sleep, which one
/// wake of the other side ends.
fn goes_to_and_fro<P: WaitPoint<Global> + Sync, R: Threads + Wait + Abort + Sync>(
    rt: &R,
    alloc: Global,
)
where
    P::Seat: Send,
{
    let (ping, mut ping_waiter, mut ping_notifier) = pair::<P, R>(rt, alloc);
    let (pong, mut pong_waiter, mut pong_notifier) = pair::<P, R>(rt, alloc);
    let word = AtomicU64::new(0);
    ping.enter(rt, &mut ping_waiter);
    thread::join(
        rt,
        || lead(
            rt,
            &ping,
            &pong,
            &mut ping_notifier,
            &mut pong_waiter,
            &word,
        ),
        || follow(
            rt,
            &ping,
            &pong,
            &mut ping_waiter,
            &mut pong_notifier,
            &word,
        ),
    );
    assert!(rt; word.load(Ordering::SeqCst) == 2 * TURNS);
}

/// Runs all checks on a kind of wait point.
fn expect_point<P: WaitPoint<Global> + Sync, R: Threads + Wait + Abort + Sync>(
    rt: &R,
    alloc: Global,
)
where
    P::Seat: Send,
{
    consumes_signals::<P, R>(rt, alloc);
    goes_to_and_fro::<P, R>(rt, alloc);
}

#[test]
fn points_with_and_without_a_lock(rt: HostRuntime) {
    expect_point::<LockedCount, HostRuntime>(&rt, rt.alloc());
    expect_point::<EventCount, HostRuntime>(&rt, rt.alloc());
}
