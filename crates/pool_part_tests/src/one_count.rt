//! Tests of rows whose puts wake workers, and of the point at which workers rest, over one count.
//! The expected results are written down.
ghost use Rattle.std.specs.Prelude.{◌≡◌, ◌<◌, []};
ghost use Rattle.event_word.specs.declared.phase.Phase.TheVariants.{Running};
ghost use Rattle.event_count.specs.Seats.{card_of, seat_id};
ghost use Rattle.waking_rows.specs.Points.{count_at, waiters_at};
ghost use Rattle.waking_rows.specs.Seats.{place_of, rows_in, seats_in, home_of, number_by};

use crate::told::expect;
use std::alloc::Global;
use std::process::Abort;
use std::sync::Wait;
use waking_rows::{Rested, RowPoint, RowWaiter, WakingRows, WakingSeat, on_one_count};

/// A call, and its expected result. Row 0 is the worker's own.
#[derive(Clone, Copy)]
enum Call {
    PushFront(u32, Result<(), u32>),
    PopFront(Option<u32>),
    PushBack(u16, u32, Result<(), u32>),
    PopBack(u16, Option<u32>),
    Rest(Rested),
    Stop,
}

/// Calls on two empty rows, which leave one job. A rest finds jobs, or the end after a stop.
const CALLS: &[Call] = &[
    Call::PopFront(None),
    Call::PopBack(1, None),
    Call::PushBack(1, 1, Ok(())),
    Call::Rest(Rested::Jobs(1)),
    Call::PushFront(2, Ok(())),
    Call::PushFront(3, Ok(())),
    Call::PushBack(0, 4, Ok(())),
    Call::Rest(Rested::Jobs(0)),
    Call::PopFront(Some(3)),
    Call::PopBack(0, Some(4)),
    Call::PopBack(0, Some(2)),
    Call::PopFront(None),
    Call::Rest(Rested::Jobs(1)),
    Call::Stop,
    Call::Rest(Rested::Jobs(1)),
    Call::PushFront(5, Ok(())),
    Call::Rest(Rested::Jobs(0)),
    Call::PopBack(1, Some(1)),
    Call::PopFront(Some(5)),
    Call::Rest(Rested::Ended),
    Call::Stop,
    Call::Rest(Rested::Ended),
    Call::PushBack(1, 6, Ok(())),
    Call::Rest(Rested::Jobs(1)),
];

/// How many jobs a row has room for.
const MOST: u32 = 1024;

/// Calls while the worker's row has the jobs from 0 to 1,023. They leave it as it was.
const FULL: &[Call] = &[
    Call::PushFront(5000, Err(5000)),
    Call::PushBack(0, 5001, Err(5001)),
    Call::PopBack(0, Some(0)),
    Call::PushBack(0, 0, Ok(())),
    Call::PopFront(Some(1023)),
    Call::PushFront(1023, Ok(())),
    Call::Rest(Rested::Jobs(0)),
];

/// Two rows and their point, the seats of one of two workers, and the other seats of the rows.
#[derive(Drop)]
struct Pair {
    rows: WakingRows<u32>,
    point: RowPoint,
    seat: WakingSeat<u32>,
    waiter: RowWaiter,
    other: WakingSeat<u32>,
    outsider: WakingSeat<u32>,
    ghost two: { rows_in rows ≡ 2 },
    ghost three: { seats_in rows ≡ 3 },
    ghost home: { home_of seat ≡ place_of rows },
    ghost owner: { number_by seat ≡ 0 },
    ghost other_home: { home_of other ≡ place_of rows },
    ghost outsider_home: { home_of outsider ≡ place_of rows },
    ghost at: { seat_id waiter.seat ≡ count_at point },
    ghost waits: { (card_of waiter.seat).number < waiters_at point },
    ghost running: { (card_of waiter.seat).phase ≡ Running },
    ghost owes_none: { (card_of waiter.seat).owing ≡ [] },
}

impl Pair {
    /// Opens two rows and their point.
    fn open<R: Abort>(rt: &R, alloc: Global) -> Pair {
        let Ok(made) = on_one_count::<u32, Global>(&alloc, 2) else {
            panic!(rt; "no rows")
        };
        let (rows, seats) = (made.rows, made.row_seats);
        let (point, waiters) = (made.point, made.waiters);
        let seats = match <[WakingSeat<u32>; 3]>::try_from(seats) {
            Ok(seats) => seats,
            Err(_) => panic!(rt; "there are three seats"),
        };
        let waiters = match <[RowWaiter; 3]>::try_from(waiters) {
            Ok(waiters) => waiters,
            Err(_) => panic!(rt; "there are three waiters"),
        };
        let [seat, other, outsider] = seats;
        let [waiter, _other, _last] = waiters;
        Pair {
            rows,
            point,
            seat,
            waiter,
            other,
            outsider,
        }
    }

    /// Makes a call, and returns whether the result is as expected. The outsider makes the calls at
    /// the back.
    fn answers<R: Wait>(&mut self, rt: &R, call: Call) -> bool {
        match call {
            Call::PushFront(job, told) => self.rows.push_front(rt, &mut self.seat, job) == told,
            Call::PopFront(told) => self.rows.pop_front(&mut self.seat) == told,
            Call::PushBack(row, job, told) => {
                row < 2 && self.rows.push_back(rt, &mut self.outsider, row, job) == told
            }
            Call::PopBack(row, told) => {
                row < 2 && self.rows.pop_back(rt, &mut self.outsider, row) == told
            }
            Call::Rest(told) => self.point.rest(rt, &mut self.waiter) == told,
            Call::Stop => {
                self.point.stop(rt, &mut self.waiter);
                true
            }
        }
    }

    /// Makes the calls in turn. The test fails at the first unexpected result.
    fn make_calls<R: Wait + Abort>(&mut self, rt: &R, name: &str, calls: &[Call]) {
        let mut place: u64 = 0;
        for call in calls {
            expect(rt, self.answers(rt, *call), name, place);
            place = place.saturating_add(1);
        }
    }

    /// Puts the jobs below [`MOST`] in at the front of the worker's row.
    fn fill<R: Wait + Abort>(&mut self, rt: &R) {
        for job in 0..MOST {
            expect(
                rt,
                self.answers(rt, Call::PushFront(job, Ok(()))),
                "fill",
                u64::from(job),
            );
        }
    }

    /// Closes the rows, and returns the jobs that are left.
    fn close<R: Abort>(self, rt: &R, alloc: Global) -> Vec<u32> {
        let Pair {
            rows,
            seat,
            other,
            outsider,
            ..
        } = self;
        let mut seats = Vec::new(alloc);
        assert!(rt; seats.push(seat).is_ok());
        assert!(rt; seats.push(other).is_ok());
        assert!(rt; seats.push(outsider).is_ok());
        rows.close(&mut seats)
    }
}

#[test]
fn rests_find_jobs_or_the_end(rt: HostRuntime) {
    let mut pair = Pair::open(&rt, rt.alloc());
    pair.make_calls(&rt, "worked calls", CALLS);
    let left = pair.close(&rt, rt.alloc());
    assert!(rt; left.as_slice() == [6].as_slice(), "the last job is left");
}

#[test]
fn a_full_row_refuses_jobs(rt: HostRuntime) {
    let mut pair = Pair::open(&rt, rt.alloc());
    pair.fill(&rt);
    pair.make_calls(&rt, "a full row", FULL);
    assert!(rt;
        pair.close(&rt, rt.alloc()).len() == MOST as usize,
        "all jobs are left"
    );
}
