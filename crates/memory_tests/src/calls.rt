//! Calls that allocate, made with an allocator that refuses. `each_call.rt` has how many
//! allocations each makes; a new call needs a variant of `Call` and an arm of `make`.

use crate::refusing::Sparing;
use event_count::{CountFault, EventCount, LockedCount, RowCount, RowFault, RowSizes, WaitPoint};
use event_word::{Event, World};
use parallel_for::leaves;
use pool_barrier::{Barrier, BarrierFault, Notification};
use run_queue::{Deque, LockedRows, Rows, RowsFault, SlotRows};
use std::alloc::{AllocError, Global};
use std::sync::Wait;
use steal_walk::Coprimes;
use waking_rows::{Rested, on_one_count};

type Heap = Sparing<Global>;

/// A call that allocates.
#[derive(Clone, Copy, Debug)]
pub(crate) enum Call {
    Barrier,
    Notification,
    EventCount,
    EventCountAtTheLastEpoch,
    EventCountAsPoint,
    LockedCount,
    RowCount,
    World,
    Row,
    LockedRows,
    SlotRows,
    OnOneCount,
    Coprimes,
    Leaves,
}

/// The result of a call.
#[derive(Clone, Copy, Debug, Eq, PartialEq)]
pub(crate) enum Answer {
    /// The fault `NoMemory`.
    NoMemory,
    /// The expected result of a call that has memory.
    Right,
    /// Any other result.
    Wrong,
}

impl Answer {
    /// Returns the answer of a call that found something right or wrong, or that had a fault.
    fn of<E: PartialEq + Drop>(found: Result<bool, E>, no_memory: E) -> Answer {
        match found {
            Ok(true) => Answer::Right,
            Err(fault) if fault == no_memory => Answer::NoMemory,
            _ => Answer::Wrong,
        }
    }

    fn of_count(found: Result<bool, CountFault>) -> Answer {
        Answer::of(found, CountFault::NoMemory)
    }

    fn of_rows(found: Result<bool, RowsFault>) -> Answer {
        Answer::of(found, RowsFault::NoMemory)
    }

    fn of_memory(found: Result<bool, AllocError>) -> Answer {
        Answer::of(found, AllocError)
    }
}

/// Makes a call.
pub(crate) fn make<R: Wait>(rt: &R, call: Call, heap: &Heap) -> Answer {
    match call {
        Call::Barrier => Answer::of(barrier(heap), BarrierFault::NoMemory),
        Call::Notification => Answer::of_memory(notification(heap)),
        Call::EventCount => Answer::of_count(count(heap)),
        Call::EventCountAtTheLastEpoch => Answer::of_count(count_at_the_last(heap)),
        Call::EventCountAsPoint => Answer::of_count(point::<EventCount<&Heap>>(heap)),
        Call::LockedCount => Answer::of_count(point::<LockedCount<&Heap>>(heap)),
        Call::RowCount => Answer::of(row_count(heap), RowFault::NoMemory),
        Call::World => Answer::of_memory(world(heap)),
        Call::Row => Answer::of_memory(row(heap)),
        Call::LockedRows => Answer::of_rows(two_rows::<R, LockedRows<u64, &Heap>>(rt, heap)),
        Call::SlotRows => Answer::of_rows(two_rows::<R, SlotRows<u64, &Heap>>(rt, heap)),
        Call::OnOneCount => Answer::of_memory(one_count(rt, heap)),
        Call::Coprimes => Answer::of_memory(coprimes(heap)),
        Call::Leaves => Answer::of_memory(leaves_of_ten(heap)),
    }
}

/// Opens a barrier, whose first share must have all notices.
fn barrier(heap: &Heap) -> Result<bool, BarrierFault> {
    let (_barrier, _waiter, share) = Barrier::new(heap, 2)?;
    Ok(share.notices() == 2)
}

/// Opens a notification, whose share must have one notice.
fn notification(heap: &Heap) -> Result<bool, AllocError> {
    let (_notification, _waiter, share) = Notification::new(heap)?;
    Ok(share.notices() == 1)
}

/// Opens an event count at its first epoch, which must have three seats and be closed at one word.
/// The three functions that follow open others.
fn count(heap: &Heap) -> Result<bool, CountFault> {
    let (count, seats) = EventCount::new(heap, 2, 1)?;
    Ok((seats.len(), count.close(seats)) == (3, 0x3FFF))
}

fn count_at_the_last(heap: &Heap) -> Result<bool, CountFault> {
    let (count, seats) = EventCount::new_at(heap, 2, 1, 4_194_303)?;
    Ok((seats.len(), count.close(seats)) == (3, 0x3FFF))
}

fn point<'h, P: WaitPoint<&'h Heap>>(heap: &'h Heap) -> Result<bool, CountFault> {
    let (point, seats) = P::open(heap, 2, 1)?;
    Ok((seats.len(), point.shut(seats)) == (3, 0x3FFF))
}

fn row_count(heap: &Heap) -> Result<bool, RowFault> {
    let sizes = RowSizes {
        waiters: 2,
        notifiers: 1,
        first: 0,
        rows: 3,
        credits: 65,
    };
    let (count, seats) = RowCount::new(heap, &sizes)?;
    Ok((seats.len(), count.close(seats)) == (3, 0x3FFF))
}

/// Opens a World with a row, and plays six events, which must leave one signal.
fn world(heap: &Heap) -> Result<bool, AllocError> {
    let mut world = World::new(heap, 2, 1, 1)?;
    let events = [
        Event::Prewait { seat: 0 },
        Event::Prewait { seat: 1 },
        Event::PassFlag { seat: 1 },
        Event::Pass { seat: 1, row: 0 },
        Event::Commit { seat: 1 },
        Event::NotifyAll { actor: 2 },
    ];
    let taken = world.play(&events);
    Ok((taken, world.signals()) == (6, 1))
}

/// Opens a row, which must take 1,024 jobs without another allocation.
fn row(heap: &Heap) -> Result<bool, AllocError> {
    let mut row = Deque::new(heap)?;
    for job in 0..1030u64 {
        let _ = row.push_back(job);
    }
    Ok(row.len() == 1024)
}

/// Opens two rows, which must have three seats. The job that is put in comes out at the end without
/// another allocation.
fn two_rows<'h, R: Wait, Q: Rows<u64, &'h Heap>>(
    rt: &R,
    heap: &'h Heap,
) -> Result<bool, RowsFault> {
    let (rows, mut seats) = Q::open(heap, 2, 1)?;
    let put = rows.put_back(rt, &mut seats[0], 1, 7);
    let count = seats.len();
    let left = rows.drain_all(seats);
    Ok(count == 3 && put.is_ok() && left.as_slice() == [7].as_slice())
}

/// Opens rows for two workers and their wait point, which must have three seats each. A rest finds
/// the job that was put in, and the job comes out at the end. All this needs no other allocation.
fn one_count<R: Wait>(rt: &R, heap: &Heap) -> Result<bool, AllocError> {
    let made = on_one_count::<u64, &Heap>(&heap, 2)?;
    let (rows, mut row_seats) = (made.rows, made.row_seats);
    let (point, mut waiters) = (made.point, made.waiters);
    let counts = (row_seats.len(), waiters.len());
    let put = rows.push_back(rt, &mut row_seats[2], 1, 7);
    let rested = point.rest(rt, &mut waiters[0]);
    let left = rows.close(&mut row_seats);
    let is_right = counts == (3, 3) && put.is_ok() && rested == Rested::Jobs(1);
    Ok(is_right && left.as_slice() == [7].as_slice())
}

fn coprimes(heap: &Heap) -> Result<bool, AllocError> {
    let coprimes = Coprimes::new(heap, 12)?;
    Ok(coprimes.numbers() == [1, 5, 7, 11].as_slice())
}

fn leaves_of_ten(heap: &Heap) -> Result<bool, AllocError> {
    let leaves = leaves(heap, 10, 4)?;
    Ok(leaves.as_slice() == [(0, 4), (4, 8), (8, 10)].as_slice())
}
