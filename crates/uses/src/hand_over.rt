//! A bounded hand-over: numbers go through a ring of few places from one thread to another. A
//! thread that finds the ring full or empty sleeps until the other has moved it on.
//! `event_count/CALLING.md` quotes it.
ghost use Rattle.std.specs.Prelude.{◌≡◌, ◌∷◌, ◌++◌, [], ◌<◌, ◌≤◌, IfOk};
ghost use Rattle.std.specs.Prelude.{length, vec_len, vec_capacity};
ghost use Rattle.std.specs.Arc.{arc_value};
ghost use Rattle.event_count.specs.Seats.{card_of, sizes_of, IsSeatOf, IsIdle};
ghost use Rattle.rtrb.specs.Ring.{sent, received, IsPair, SameProducer, SameConsumer};

use event_count::{CountFault, EventCount, Seat};
use rtrb::{Consumer, Producer, RingBuffer};
use std::alloc::{AllocError, Global};
use std::snapshot::Snapshot;
use std::sync::{Arc, Wait};
use std::thread::{self, Promise, Threads};

/// One side of the ring: the count at which it waits, and the count by which it wakes the other
/// side.
#[derive(Drop)]
struct Side {
    waits: Arc<EventCount>,
    waiter: Seat,
    wakes: Arc<EventCount>,
    notifier: Seat,
    ghost waits_there: { IsSeatOf (arc_value waits) waiter },
    ghost may_wait: { (card_of waiter).number < (sizes_of (arc_value waits)).waiters },
    ghost wakes_there: { IsSeatOf (arc_value wakes) notifier },
    ghost idle: { IsIdle waiter },
    ghost idle_too: { IsIdle notifier },
}

/// Puts a number in, once there is room.
fn put<R: Wait>(rt: &R, side: &mut Side, producer: &mut Producer<u64>, number: u64)
    ensures ring { SameProducer producer.old producer.new }
    ensures sent { sent producer.new ≡ sent producer.old ++ number ∷ [] }
{
    for _ in rt.forever() {
        if producer.slots() > 0 {
            producer.push_reserved(number);
            side.wakes.notify(rt, &mut side.notifier);
            return;
        }
        side.waits.prewait(&mut side.waiter);
        if producer.slots() > 0 {
            side.waits.cancel(rt, &mut side.waiter);
        } else {
            side.waits.commit(rt, &mut side.waiter);
        }
    }
    unreachable!()
}

/// Takes a number out, once there is one.
fn take<R: Wait>(rt: &R, side: &mut Side, consumer: &mut Consumer<u64>) -> u64
    ensures ring { SameConsumer consumer.old consumer.new }
    ensures received { received consumer.new ≡ received consumer.old ++ result ∷ [] }
{
    for _ in rt.forever() {
        if consumer.slots() > 0 {
            let number = consumer.pop_known();
            side.wakes.notify(rt, &mut side.notifier);
            return number;
        }
        side.waits.prewait(&mut side.waiter);
        if consumer.slots() > 0 {
            side.waits.cancel(rt, &mut side.waiter);
        } else {
            side.waits.commit(rt, &mut side.waiter);
        }
    }
    unreachable!()
}

// The promise of the putting thread: it returns the producer once all numbers were put in.
#[derive(Drop)]
struct PutAll<'a> {
    first: Snapshot<Producer<u64>>,
    numbers: &'a [u64],
}

impl<'a> Promise<Producer<u64>> for PutAll<'a> {
    ghost kept_by = { λ all last.
        SameProducer all.first.value last × (sent last ≡ all.numbers.now) };
}

/// Puts in all numbers, and returns the producer.
fn put_all<R: Wait>(
    rt: &R,
    mut side: Side,
    mut producer: Producer<u64>,
    numbers: &[u64],
) -> Producer<u64>
    requires { sent producer ≡ [] }
    ensures ring { SameProducer producer result }
    ensures sent { sent result ≡ numbers.now }
{
    for number in numbers {
        put(rt, &mut side, &mut producer, *number);
    }
    producer
}

/// Takes `count` numbers, and adds them to the list `got`, which has room for them.
fn take_all<R: Wait>(
    rt: &R,
    mut side: Side,
    consumer: &mut Consumer<u64>,
    got: &mut Vec<u64>,
    count: usize,
)
    requires none { (received consumer.old ≡ []) × (got.old.items ≡ []) }
    requires room { count ≤ vec_capacity got.old }
    ensures ring { SameConsumer consumer.old consumer.new }
    ensures received { received consumer.new ≡ got.new.items }
    ensures count { vec_len got.new ≡ count }
{
    for _ in 0..count {
        got.push_reserved(take(rt, &mut side, consumer));
    }
}

/// Makes a count for one waiter and one notifier, and returns it with their seats in this order.
fn count_of_two(alloc: Global) -> Result<(Arc<EventCount>, Seat, Seat), CountFault>
    ensures ours { IfOk result (λ made.
        IsSeatOf (arc_value made.0) made.1 × IsSeatOf (arc_value made.0) made.2) }
    ensures idle { IfOk result (λ made. IsIdle made.1 × IsIdle made.2) }
    ensures waits { IfOk result (λ made.
        (card_of made.1).number < (sizes_of (arc_value made.0)).waiters) }
{
    let (count, mut seats) = EventCount::new(alloc, 1, 1)?;
    let (Some(notifier), Some(waiter)) = (seats.pop(), seats.pop()) else {
        unreachable!()
    };
    match Arc::new(alloc, count) {
        Ok(count) => Ok((count, waiter, notifier)),
        Err(_) => Err(CountFault::NoMemory),
    }
}

/// Returns the numbers after another thread has handed them over, one by one, through a ring of
/// `places` places.
pub fn handed_over<RT: Threads + Wait + Sync>(
    rt: &RT,
    alloc: Global,
    numbers: &[u64],
    places: usize,
) -> Result<Vec<u64>, CountFault>
    requires { 0 < places }
    ensures { IfOk result (λ got. got.items ≡ numbers.now) }
{
    let (room, room_waiter, room_notifier) = count_of_two(alloc)?;
    let (items, item_waiter, item_notifier) = count_of_two(alloc)?;
    let puts = Side {
        waits: Arc::try_clone(&room)?,
        waiter: room_waiter,
        wakes: Arc::try_clone(&items)?,
        notifier: item_notifier,
    };
    let takes = Side {
        waits: items,
        waiter: item_waiter,
        wakes: room,
        notifier: room_notifier,
    };
    let (producer, mut consumer) = RingBuffer::new(alloc, places)?;
    let mut got = Vec::with_capacity(alloc, numbers.len())?;
    let first = Snapshot::of(&producer);
    thread::scope(
        thread::scope_env(),
        rt,
        |scope| -> Result<Vec<u64>, AllocError>
            requires ring { IsPair producer consumer × (first.value ≡ producer) }
            requires none { (sent producer ≡ []) × (received consumer ≡ []) × (got.items ≡ []) }
            requires room { length numbers.now ≤ vec_capacity got }
            ensures { IfOk result (λ got. got.items ≡ numbers.entry.now) }
        {
            let putting = move || -> Producer<u64>
                requires { sent producer ≡ [] }
                ensures ring { SameProducer producer result }
                ensures sent { sent result ≡ numbers.entry.now }
            { put_all(rt, puts, producer, numbers) };
            let child = scope.spawn_with(PutAll { first, numbers }, putting)?;
            take_all(rt, takes, &mut consumer, &mut got, numbers.len());
            consumer.slots_beside(&mut child.join(rt));
            Ok(got)
        },
    )
    .map_err(CountFault::from)
}
