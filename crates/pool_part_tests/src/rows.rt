//! Tests of rows that threads share, through the trait `Rows`: rows with a lock, and rows of slots.
//! The expected results are written down, or come from a row of one thread (`Deque`), which is
//! proved to be a list. A new kind of rows gets a line at the end.
ghost use Rattle.std.specs.Prelude.{◌≡◌, ◌<◌, IsTrue};

use crate::told::expect;
use rand_core::SeedableRng;
use rand_core::utils::NextWord;
use rand_pcg::Lcg64Xsh32;
use run_queue::{Deque, LockedRows, Rows, SlotRows};
use std::alloc::Global;
use std::process::Abort;
use std::sync::Wait;

/// A call on the one row, and its expected result.
#[derive(Clone, Copy)]
enum Call {
    PutFront(u32, Result<(), u32>),
    PutBack(u32, Result<(), u32>),
    TakeFront(Option<u32>),
    TakeBack(Option<u32>),
    Length(u64),
}

/// Calls on an empty row, which they leave empty.
const BOTH_ENDS: &[Call] = &[
    Call::Length(0),
    Call::TakeFront(None),
    Call::TakeBack(None),
    Call::PutFront(1, Ok(())),
    Call::PutFront(2, Ok(())),
    Call::PutBack(3, Ok(())),
    Call::TakeFront(Some(2)),
    Call::TakeBack(Some(3)),
    Call::Length(1),
    Call::TakeBack(Some(1)),
    Call::TakeFront(None),
];

/// How many jobs a row has room for.
const MOST: u32 = 1024;

/// Calls on a row into which the jobs from 0 to 1,023 were put at the front. They leave it as it was.
const FULL: &[Call] = &[
    Call::PutFront(5000, Err(5000)),
    Call::PutBack(5001, Err(5001)),
    Call::Length(1024),
    Call::TakeBack(Some(0)),
    Call::PutBack(0, Ok(())),
    Call::TakeFront(Some(1023)),
    Call::PutFront(1023, Ok(())),
];

/// The number of calls that are drawn.
const DRAWS: u32 = 100_000;

/// The number of calls in a phase. Phases that mostly empty the row alternate with phases that
/// mostly fill it, until it is full.
const PHASE: u32 = 5_000;

/// Makes a call by a seat, and returns whether the result is as expected. Only the owner of the row
/// may make calls at the front.
fn answers<Q: Rows<u32, Global>, R: Wait>(
    rt: &R,
    rows: &Q,
    seat: &mut Q::Seat,
    owns: bool,
    call: Call,
) -> bool
    requires ours { Q.rows_of seat.old ≡ Q.identity_of rows.now }
    requires row { Q.row_count rows.now ≡ 1 }
    requires owner { IsTrue owns → Q.number_of seat.old < 1 }
    ensures ours { Q.rows_of seat.new ≡ Q.rows_of seat.old }
    ensures number { Q.number_of seat.new ≡ Q.number_of seat.old }
{
    match call {
        Call::PutFront(job, told) => owns && rows.put_front(rt, seat, job) == told,
        Call::TakeFront(told) => owns && rows.take_front(rt, seat) == told,
        Call::PutBack(job, told) => rows.put_back(rt, seat, 0, job) == told,
        Call::TakeBack(told) => rows.take_back(rt, seat, 0) == told,
        Call::Length(told) => rows.row_length(rt, seat, 0) == told,
    }
}

/// Makes the calls in turn by the owner. The test fails at the first unexpected result.
fn make_calls<Q: Rows<u32, Global>, R: Wait + Abort>(
    rt: &R,
    rows: &Q,
    owner: &mut Q::Seat,
    calls: &[Call],
)
    requires ours { Q.rows_of owner.old ≡ Q.identity_of rows.now }
    requires row { Q.row_count rows.now ≡ 1 }
    requires owner { Q.number_of owner.old < 1 }
    ensures ours { Q.rows_of owner.new ≡ Q.rows_of owner.old }
    ensures number { Q.number_of owner.new ≡ Q.number_of owner.old }
{
    let mut place: u64 = 0;
    for call in calls {
        expect(
            rt,
            answers(rt, rows, owner, true, *call),
            "worked calls",
            place,
        );
        place = place.saturating_add(1);
    }
}

/// Puts the jobs below [`MOST`] in at the front of the row and of a row of one thread.
fn fill<Q: Rows<u32, Global>, R: Wait + Abort>(
    rt: &R,
    rows: &Q,
    owner: &mut Q::Seat,
    row: &mut Deque<u32>,
)
    requires ours { Q.rows_of owner.old ≡ Q.identity_of rows.now }
    requires row { Q.row_count rows.now ≡ 1 }
    requires owner { Q.number_of owner.old < 1 }
    ensures ours { Q.rows_of owner.new ≡ Q.rows_of owner.old }
    ensures number { Q.number_of owner.new ≡ Q.number_of owner.old }
{
    for job in 0..MOST {
        let is_put = rows.put_front(rt, owner, job).is_ok() && row.push_front(job).is_ok();
        assert!(rt; is_put, "job {job}");
    }
}

/// Returns the call that a word picks, in a phase that mostly fills the row or mostly empties it.
/// The expected result comes from the row of one thread.
fn call_of(row: &mut Deque<u32>, word: u32, fills: bool) -> Call {
    match word % 8 {
        0 => Call::PutFront(word, row.push_front(word)),
        1 => Call::PutBack(word, row.push_back(word)),
        2 => Call::TakeFront(row.pop_front()),
        3 => Call::TakeBack(row.pop_back()),
        4 | 5 if fills => Call::PutFront(word, row.push_front(word)),
        6 if fills => Call::PutBack(word, row.push_back(word)),
        4 | 5 => Call::TakeBack(row.pop_back()),
        6 => Call::TakeFront(row.pop_front()),
        _ => Call::Length(row.len() as u64),
    }
}

/// Makes calls that are drawn at random. Calls at the back are made by the outsider.
fn make_drawn<Q: Rows<u32, Global>, R: Wait + Abort>(
    rt: &R,
    rows: &Q,
    owner: &mut Q::Seat,
    outsider: &mut Q::Seat,
    row: &mut Deque<u32>,
)
    requires ours { Q.rows_of owner.old ≡ Q.identity_of rows.now }
    requires too { Q.rows_of outsider.old ≡ Q.identity_of rows.now }
    requires row { Q.row_count rows.now ≡ 1 }
    requires owner { Q.number_of owner.old < 1 }
    ensures ours { Q.rows_of owner.new ≡ Q.rows_of owner.old }
    ensures too { Q.rows_of outsider.new ≡ Q.rows_of outsider.old }
    ensures number { Q.number_of owner.new ≡ Q.number_of owner.old }
{
    let mut words = Lcg64Xsh32::seed_from_u64(5);
    for place in 0..DRAWS {
        let call = call_of(row, words.next_word(), place / PHASE % 2 == 1);
        let is_right = match call {
            Call::PutBack(..) | Call::TakeBack(_) => answers(rt, rows, outsider, false, call),
            _ => answers(rt, rows, owner, true, call),
        };
        expect(rt, is_right, "drawn calls", u64::from(place));
    }
}

/// Opens one row for its owner and an outsider, and returns it with their seats.
fn opened<Q: Rows<u32, Global>, R: Abort>(rt: &R, alloc: Global) -> (Q, Q::Seat, Q::Seat)
    ensures row { Q.row_count result.0 ≡ 1 }
    ensures seats { Q.seat_count result.0 ≡ 2 }
    ensures owner { Q.number_of result.1 < 1 }
    ensures ours { Q.rows_of result.1 ≡ Q.identity_of result.0 }
    ensures too { Q.rows_of result.2 ≡ Q.identity_of result.0 }
{
    let Ok((rows, seats)) = Q::open(alloc, 1, 1) else {
        panic!(rt; "no rows")
    };
    let seats = match <[Q::Seat; 2]>::try_from(seats) {
        Ok(seats) => seats,
        Err(_) => panic!(rt; "there are two seats"),
    };
    let [owner, outsider] = seats;
    (rows, owner, outsider)
}

/// Makes all calls on rows of a kind.
fn expect_rows<Q: Rows<u32, Global>, R: Wait + Abort>(rt: &R, alloc: Global) {
    let (rows, mut owner, mut outsider) = opened::<Q, R>(rt, alloc);
    let Ok(mut row) = Deque::new(alloc) else {
        panic!(rt; "no row")
    };
    make_calls(rt, &rows, &mut owner, BOTH_ENDS);
    fill(rt, &rows, &mut owner, &mut row);
    make_calls(rt, &rows, &mut owner, FULL);
    make_drawn(rt, &rows, &mut owner, &mut outsider, &mut row);
    let mut seats = Vec::new(alloc);
    assert!(rt; seats.push(owner).is_ok());
    assert!(rt; seats.push(outsider).is_ok());
    assert!(rt;
        rows.drain_all(seats).len() == row.len(),
        "as many are left"
    );
}

#[test]
fn rows_with_a_lock_and_of_slots(rt: HostRuntime) {
    expect_rows::<LockedRows<u32>, HostRuntime>(&rt, rt.alloc());
    expect_rows::<SlotRows<u32>, HostRuntime>(&rt, rt.alloc());
}
