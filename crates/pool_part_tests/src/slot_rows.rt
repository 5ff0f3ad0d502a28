//! Tests of rows of slots that threads share.
ghost use Rattle.std.specs.Prelude.{◌≡◌, ◌<◌, All, length};
ghost use Rattle.run_queue.specs.SlotSeats.{table_of, number_in, rows_id, row_count_of};

use run_queue::{SlotRows, SlotSeat};
use std::alloc::Global;
use std::process::Abort;
use std::sync::{Mutex, Wait};
use std::thread::{self, Threads};

/// How many jobs the owner puts in, and how often each thief tries to take a job.
const JOBS: u32 = 1_000_000;

/// Accepts a value only if threads may share it.
fn share<T: Sync>(_value: &T) {}

/// Compiles only if rows may be shared when their jobs may be sent to other threads, even if the
/// jobs themselves may not be shared.
fn rows_may_be_shared<J: Drop + Send>(rows: &SlotRows<J>) {
    share(rows);
}

/// Counts that a job came out of the rows.
fn mark<R: Wait>(rt: &R, marks: &Mutex<Vec<u8>>, job: u32) {
    let mut marks = marks.lock(rt);
    if let Some(mark) = marks.get_mut(job as usize) {
        *mark = mark.saturating_add(1);
    }
}

/// Puts each job in at the front by the owner, which takes a job out every fourth time.
fn own<R: Wait>(rt: &R, rows: &SlotRows<u32>, seat: &mut SlotSeat<u32>, marks: &Mutex<Vec<u8>>)
    requires of { table_of seat.old ≡ rows_id rows.now }
    requires owner { number_in seat.old < row_count_of rows.now }
    ensures of { table_of seat.new ≡ table_of seat.old }
{
    for job in 0..JOBS {
        if let Err(back) = rows.push_front(seat, job) {
            mark(rt, marks, back);
        }
        if job % 4 == 3
            && let Some(taken) = rows.pop_front(seat)
        {
            mark(rt, marks, taken);
        }
    }
}

/// Takes jobs out at the back by a thief.
fn steal<R: Wait>(rt: &R, rows: &SlotRows<u32>, seat: &mut SlotSeat<u32>, marks: &Mutex<Vec<u8>>)
    requires of { table_of seat.old ≡ rows_id rows.now }
    requires row { 0 < row_count_of rows.now }
    ensures of { table_of seat.new ≡ table_of seat.old }
{
    for _ in 0..JOBS {
        if let Some(taken) = rows.pop_back(rt, seat, 0) {
            mark(rt, marks, taken);
        }
    }
}

/// Runs the owner and the thieves, each on a thread of its own.
fn own_and_steal<R: Threads + Wait + Sync>(
    rt: &R,
    rows: &SlotRows<u32>,
    seats: &mut Vec<SlotSeat<u32>>,
    marks: &Mutex<Vec<u8>>,
)
    requires row { row_count_of rows.now ≡ 1 }
    requires of { All (λ s. table_of s ≡ rows_id rows.now) seats.old.items }
    ensures of { All (λ s. table_of s ≡ rows_id rows.now) seats.new.items }
    ensures count { length seats.new.items ≡ length seats.old.items }
{
    thread::for_each_mut(
        rt,
        seats.as_mut_slice(),
        4,
        &|_, seat: &mut SlotSeat<u32>|
            requires row { row_count_of rows.now ≡ 1 }
            requires of { table_of seat.old ≡ rows_id rows.now }
            ensures of { table_of seat.new ≡ rows_id rows.entry.now }
        {
            if seat.number() == 0 {
                own(rt, rows, seat, marks);
            } else {
                steal(rt, rows, seat, marks);
            }
        },
    );
}

/// Returns for each job how often it was given back, taken or left.
fn marks_of<R: Threads + Wait + Abort + Sync>(rt: &R, alloc: Global) -> Vec<u8> {
    let Ok(mut marks) = Vec::with_capacity(alloc, JOBS as usize) else {
        panic!(rt; "no memory")
    };
    assert!(rt; marks.resize(JOBS as usize, 0).is_ok());
    let marks = Mutex::new(marks);
    let Ok((rows, mut seats)) = SlotRows::<u32>::open(alloc, 1, 3) else {
        panic!(rt; "no rows")
    };
    rows_may_be_shared(&rows);
    own_and_steal(rt, &rows, &mut seats, &marks);
    for job in rows.close(seats) {
        mark(rt, &marks, job);
    }
    marks.into_inner()
}

#[test]
fn an_owner_and_three_thieves(rt: HostRuntime) {
    let mut job: u64 = 0;
    for count in marks_of(&rt, rt.alloc()) {
        assert!(rt; count == 1, "job {job}");
        job = job.saturating_add(1);
    }
    assert!(rt; job == u64::from(JOBS));
}
