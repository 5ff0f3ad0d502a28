//! A sum of numbers that one thread puts into a queue and others take out. A thread that finds the
//! queue empty sleeps at a count with a row until a number comes or the count is stopped.
//! `event_count/CALLING.md` quotes it.
ghost use Rattle.std.specs.Prelude.{◌≡◌, ◌+◌, ◌%◌, ◌^◌, ◌<◌, ◌≤◌, All, IfOk, MatchBool};
ghost use Rattle.std.specs.Prelude.{vec_len, sum, sum_by};
ghost use Rattle.event_count.specs.Seats.{card_of, seat_id, IsIdle};
ghost use Rattle.event_count.specs.Rows.Seats.{row_sizes_of, row_count_id, ticket_id, IsSilent};

use event_count::{PassAll, RowCount, RowFault, RowSizes, Seat, Ticket};
use std::alloc::{AllocError, Global};
use std::collections::VecDeque;
use std::marker::{Brand, PhantomData};
use std::sync::ledger::{Blank, Book, Ledger, Share};
use std::sync::{Mutex, Wait};
use std::thread::{self, Threads};

/// The credits that each seat begins with. A put costs the producer one credit, which goes to the
/// seat that takes the number. A producer without credits adds up its numbers itself.
const CREDITS: u32 = 64;

/// The ledger of a run's numbers and the count at which its threads wait, as a type. The types of
/// the run name it. So a number in the queue is known to be of that count, though nothing but its
/// type is known.
trait Crew: Ledger {
    ghost use Rattle.event_count.specs.Seated.{TableId};

    ghost count: { TableId };
}

impl Crew for Brand {
    ghost use Rattle.uses.specs.Crews.{no_count};

    ghost count = { no_count };
}

/// A number, with the ticket that counts it in the row.
#[derive(Drop)]
struct Job<C: Crew> {
    number: u64,
    ticket: Ticket,
    crew: PhantomData<C>,
    ghost ours: { ticket_id ticket ≡ C.count },
}

/// The content of the lock: the numbers in the queue, and a share of the ledger that is worth their
/// sum.
#[derive(Drop)]
struct Queue<C: Crew> {
    jobs: VecDeque<Job<C>>,
    worth: Share<C>,
    ghost part: { worth.parts ≡ 1 },
    ghost held: { worth.amount ≡ sum_by (λ job. job.number) jobs.items },
}

/// The count and the queue, which all threads share.
#[derive(Drop)]
struct Hub<C: Crew> {
    count: RowCount,
    consumers: u16,
    queue: Mutex<Queue<C>>,
    ghost here: { row_count_id count ≡ C.count },
    ghost row: { (row_sizes_of count).rows ≡ 1 },
    ghost waiters: { (row_sizes_of count).waiters ≡ consumers },
}

/// A thread's seat, and the sum of the numbers that it has taken. Between calls the seat runs and
/// owes no notification.
#[derive(Drop)]
struct Member<C: Crew> {
    seat: Seat,
    total: u64,
    worth: Share<C>,
    ghost ours: { seat_id seat ≡ C.count },
    ghost idle: { IsIdle seat },
    ghost silent: { IsSilent seat },
    ghost part: { worth.parts ≡ 1 },
    ghost added: { total ≡ worth.amount % 2 ^ 64 },
}

/// Puts a number into the queue, and notifies a consumer. Returns false if no credit is left or an
/// allocation fails.
fn put<C: Crew, R: Wait>(
    rt: &R,
    hub: &Hub<C>,
    seat: &mut Seat,
    worth: &mut Share<C>,
    number: u64,
) -> bool
    requires of { seat_id seat.old ≡ C.count }
    requires idle { IsIdle seat.old }
    requires silent { IsSilent seat.old }
    requires part { worth.old.parts ≡ 1 }
    requires some { number ≤ worth.old.amount }
    ensures of { seat_id seat.new ≡ C.count }
    ensures idle { IsIdle seat.new }
    ensures silent { IsSilent seat.new }
    ensures part { worth.new.parts ≡ 1 }
    ensures worth { MatchBool result (worth.new.amount + number ≡ worth.old.amount)
        (worth.new.amount ≡ worth.old.amount) }
{
    let mut queue = hub.queue.lock(rt);
    let Queue { jobs, worth: held } = &mut *queue;
    if jobs.reserve(1).is_err() {
        return false;
    }
    let Some(ticket) = hub.count.publish(seat, 0) else {
        return false;
    };
    worth.transfer(held, number);
    jobs.push_back_reserved(Job {
        number,
        ticket,
        crew: PhantomData,
    });
    drop(queue);
    hub.count.notify(rt, seat);
    true
}

/// Puts all numbers into the queue, and then stops the count. The producer adds up the numbers that
/// it could not put.
fn produce<C: Crew, R: Wait>(
    rt: &R,
    hub: &Hub<C>,
    producer: Member<C>,
    mut book: Book<C>,
    numbers: &[u64],
) -> (Member<C>, Book<C>)
    requires { book.total ≡ 0 }
    ensures { result.1.total ≡ sum numbers.now }
{
    let Member {
        mut seat,
        mut total,
        mut worth,
    } = producer;
    for number in numbers {
        book.add(&mut worth, *number);
        if !put(rt, hub, &mut seat, &mut worth, *number) {
            total = total.wrapping_add(*number);
        }
    }
    hub.count.stop(&mut seat);
    hub.count.notify_all(rt, &mut seat);
    (Member { seat, total, worth }, book)
}

/// Takes a number out of the queue, and returns whether there was one.
fn take<C: Crew, R: Wait>(rt: &R, hub: &Hub<C>, member: &mut Member<C>) -> bool
    ensures { (card_of member.new.seat).number ≡ (card_of member.old.seat).number }
{
    let Member { seat, total, worth } = member;
    let mut queue = hub.queue.lock(rt);
    let Queue { jobs, worth: held } = &mut *queue;
    let Some(Job { number, ticket, .. }) = jobs.pop_front() else {
        return false;
    };
    held.transfer(worth, number);
    drop(queue);
    *total = total.wrapping_add(number);
    hub.count.take(seat, ticket);
    true
}

/// Sleeps if the row is empty and the count is not stopped. Returns whether it was stopped.
fn rest<C: Crew, R: Wait>(rt: &R, hub: &Hub<C>, member: &mut Member<C>) -> bool
    requires { (card_of member.old.seat).number < hub.now.consumers }
    ensures { (card_of member.new.seat).number ≡ (card_of member.old.seat).number }
{
    let (count, seat) = (&hub.count, &mut member.seat);
    count.prewait(seat);
    match count.pass_all(seat) {
        PassAll::Passed => {
            count.commit(rt, seat);
            false
        }
        PassAll::Jobs(_) => {
            count.cancel(rt, seat);
            false
        }
        PassAll::Stopped => {
            count.cancel(rt, seat);
            true
        }
    }
}

/// Takes numbers until the count is stopped and no number is left.
fn consume<C: Crew, R: Wait>(rt: &R, hub: &Hub<C>, member: &mut Member<C>)
    requires { (card_of member.old.seat).number < hub.now.consumers }
{
    let mut is_over = false;
    for _ in rt.forever() {
        if !take(rt, hub, member) {
            if is_over {
                return;
            }
            is_over = rest(rt, hub, member);
        }
    }
}

/// Runs all consumers, each on a thread of its own, and returns them.
fn consume_all<C: Crew + Send + Sync, RT: Threads + Wait + Sync>(
    rt: &RT,
    hub: &Hub<C>,
    mut members: Vec<Member<C>>,
) -> Vec<Member<C>>
    ensures { vec_len result ≡ vec_len members }
{
    let threads = members.len().max(1);
    thread::for_each_mut(
        rt,
        members.as_mut_slice(),
        threads,
        &|_, member: &mut Member<C>| {
            if member.seat.number() < u32::from(hub.consumers) {
                consume(rt, hub, member);
            }
        },
    );
    members
}

/// Returns a member for each of these seats, with a part of the ledger.
fn members_of<C: Crew>(
    alloc: Global,
    seats: Vec<Seat>,
    all: &mut Share<C>,
) -> Result<Vec<Member<C>>, AllocError>
    requires ours { All (λ seat. seat_id seat ≡ C.count) seats.items }
    requires idle { All IsIdle seats.items }
    requires silent { All IsSilent seats.items }
    requires parts { vec_len seats < all.old.parts }
    requires none { all.old.amount ≡ 0 }
    ensures count { IfOk result (λ members. vec_len members ≡ vec_len seats) }
    ensures parts { IfOk result (λ _. all.new.parts + vec_len seats ≡ all.old.parts) }
    ensures none { IfOk result (λ _. all.new.amount ≡ 0) }
{
    let mut members = Vec::with_capacity(alloc, seats.len())?;
    for seat in seats {
        members.push_reserved(Member {
            seat,
            total: 0,
            worth: all.split_off(1, 0),
        });
    }
    Ok(members)
}

/// Adds up what all members have taken and what is left in the queue, modulo 2^64.
fn total_of<C: Crew>(mut book: Book<C>, queue: Queue<C>, members: Vec<Member<C>>) -> u64
    requires { C.parts ≡ vec_len members + 1 }
    ensures { result ≡ book.total % 2 ^ 64 }
{
    let Queue {
        jobs,
        worth: mut all,
    } = queue;
    let mut total = 0u64;
    for job in jobs {
        total = total.wrapping_add(job.number);
    }
    for member in members {
        total = total.wrapping_add(member.total);
        all.merge(member.worth);
    }
    book.audit(&mut all);
    total
}

/// Adds up the numbers by a queue and a count that the types name.
fn summed<C: Crew + Send + Sync, RT: Threads + Wait + Sync>(
    rt: &RT,
    alloc: Global,
    count: RowCount,
    seats: Vec<Seat>,
    blank: Blank,
    numbers: &[u64],
) -> Result<u64, AllocError>
    requires name { blank.name ≡ C.name }
    requires parts { (blank.parts ≡ C.parts) × (C.parts ≡ vec_len seats + 1) }
    requires here { row_count_id count ≡ C.count }
    requires row { (row_sizes_of count).rows ≡ 1 }
    requires waiters { (row_sizes_of count).waiters + 1 ≡ vec_len seats }
    requires ours { All (λ seat. seat_id seat ≡ C.count) seats.items }
    requires idle { All IsIdle seats.items }
    requires silent { All IsSilent seats.items }
    ensures { IfOk result (λ total. total ≡ sum numbers.now % 2 ^ 64) }
{
    let consumers = (seats.len() - 1) as u16;
    let (book, mut worth) = blank.open::<C>();
    let mut members = members_of(alloc, seats, &mut worth)?;
    let Some(producer) = members.pop() else {
        unreachable!()
    };
    let queue = Mutex::new(Queue {
        jobs: VecDeque::new(alloc),
        worth,
    });
    let hub = Hub {
        count,
        consumers,
        queue,
    };
    let shared = &hub;
    let taking = move || -> Vec<Member<C>>
        ensures { vec_len result ≡ vec_len members }
    { consume_all(rt, shared, members) };
    let putting = move || -> (Member<C>, Book<C>)
        requires { book.total ≡ 0 }
        ensures { result.1.total ≡ sum numbers.entry.now }
    { produce(rt, shared, producer, book, numbers) };
    let (mut members, (producer, book)) = thread::join(rt, taking, putting);
    members.push(producer)?;
    let Hub { queue, .. } = hub;
    Ok(total_of(book, queue.into_inner(), members))
}

/// Adds up the numbers, modulo 2^64. The calling thread puts them into a queue, and the given
/// number of consumers take them out and add them up.
pub fn queued_sum<RT: Threads + Wait + Sync>(
    rt: &RT,
    alloc: Global,
    numbers: &[u64],
    consumers: u16,
) -> Result<u64, RowFault>
    requires { 0 < consumers }
    ensures { IfOk result (λ total. total ≡ sum numbers.now % 2 ^ 64) }
{
    let sizes = RowSizes {
        waiters: consumers,
        notifiers: 1,
        first: 0,
        rows: 1,
        credits: CREDITS,
    };
    let (count, seats) = RowCount::new(alloc, &sizes)?;
    let blank = Blank::new(seats.len() as u64 + 1);
    Ok(summed::<Brand, RT>(rt, alloc, count, seats, blank, numbers)?)
}
