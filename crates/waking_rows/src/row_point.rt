//! `RowPoint`: the point at which threads wait for the jobs of `WakingRows`. Its `rest` makes the
//! looks that keep jobs from being slept on; its clauses are in `specs/Points.antt`.
ghost use Rattle.std.specs.Prelude.{◌≡◌, ◌<◌, [], map, All, IfOk, IfSome, IfNone};
ghost use Rattle.std.specs.Arc.{arc_value};
ghost use Rattle.event_word.specs.declared.phase.Phase.TheVariants.{Running, Pre};
ghost use Rattle.event_count.specs.Rows.Calls.{IsAfterPasses};
ghost use Rattle.event_count.specs.Rows.Seats.{row_count_id, row_sizes_of, IsSilent};
ghost use Rattle.event_count.specs.Seats.{card_of, seat_id, IsSeatOf};
ghost use Rattle.waking_rows.specs.Credits.{banking};

use event_count::{PassAll, RowCount, Seat};
use std::alloc::{Allocator, Global};
use std::sync::{Arc, Wait};

/// The point at which threads wait for jobs in rows, over a count with these rows.
///
/// A thread that falls asleep here has found that nobody has stopped the count, and that each row
/// is empty, so no row with a job is slept on. A put into the rows notifies by itself. Once the
/// count is stopped, nobody falls asleep any more.
#[derive(Drop)]
pub struct RowPoint<A: Allocator = Global> {
    pub(crate) count: Arc<RowCount<A>, A>,
    /// How many rows the count has.
    pub(crate) rows: u16,
    ghost all: { rows ≡ (row_sizes_of (arc_value count)).rows },
}

/// A seat at a `RowPoint`. Between its calls it has nothing to notify.
#[derive(Drop)]
pub struct RowWaiter {
    pub(crate) seat: Seat,
    ghost silent: { IsSilent seat },
}

/// How a rest ended.
#[derive(Clone, Copy, Debug, PartialEq, Eq)]
pub enum Rested {
    /// The thread slept until it was woken, or a wake was there already. A seat that has used all
    /// its epochs did not sleep.
    Slept,
    /// This row had jobs: the first such row that the thread looked at.
    Jobs(u16),
    /// The count was stopped, and each row was found empty after that.
    Ended,
}

/// Makes each seat of the count a seat of the point. Puts its credits into the bank, since a waiter
/// puts no job in.
pub(crate) fn waiters_of<A: Allocator + Clone>(
    alloc: &A,
    count: &RowCount<A>,
    seats: Vec<Seat, A>,
) -> Result<Vec<RowWaiter, A>, std::alloc::AllocError>
    requires silent { All IsSilent seats.items }
    requires ours { All (IsSeatOf count.now) seats.items }
    ensures cards { IfOk result (λ list. map (λ waiter. card_of waiter.seat) list.items
        ≡ map (λ seat. banking (card_of seat)) seats.items) }
    ensures ours { IfOk result (λ list.
        All (λ waiter. seat_id waiter.seat ≡ row_count_id count.now) list.items) }
{
    let mut list = Vec::with_capacity(alloc.clone()?, seats.len())?;
    for mut seat in seats {
        let credits = seat.credits();
        count.deposit(&mut seat, credits);
        list.push_reserved(RowWaiter { seat });
    }
    Ok(list)
}

impl<A: Allocator> RowPoint<A> {
    ghost use Rattle.waking_rows.specs.Points.{count_at, waiters_at, rows_at};
    ghost use Rattle.waking_rows.specs.Points.{FindsNoJobs, FindsJobsFirst};
    ghost use Rattle.waking_rows.specs.Points.{NamesRow, RestsByRows, StopsAndWakes};

    /// Waits until there may be a job. Sleeps only if, since the call began, the thread has found
    /// that nobody has stopped the count, and then that each row is empty. After a stop it still
    /// looks at each row.
    pub fn rest<R: Wait>(&self, rt: &R, waiter: &mut RowWaiter) -> Rested
        requires ours { seat_id waiter.old.seat ≡ count_at self.now }
        requires waiter { (card_of waiter.old.seat).number < waiters_at self.now }
        requires running { (card_of waiter.old.seat).phase ≡ Running }
        requires owes_none { (card_of waiter.old.seat).owing ≡ [] }
        ensures ours { seat_id waiter.new.seat ≡ seat_id waiter.old.seat }
        ensures number { (card_of waiter.new.seat).number ≡ (card_of waiter.old.seat).number }
        ensures running { (card_of waiter.new.seat).phase ≡ Running }
        ensures owes_none { (card_of waiter.new.seat).owing ≡ [] }
        ensures inside { NamesRow (rows_at self.now) result }
        ensures rests { RestsByRows (rows_at self.now) (card_of waiter.old.seat) result
            (card_of waiter.new.seat) }
    {
        self.count.prewait(&mut waiter.seat);
        match self.count.pass_all(&mut waiter.seat) {
            PassAll::Passed => {
                self.count.commit(rt, &mut waiter.seat);
                Rested::Slept
            }
            PassAll::Jobs(row) => {
                self.count.cancel(rt, &mut waiter.seat);
                Rested::Jobs(row)
            }
            PassAll::Stopped => {
                let found = self.row_with_jobs(&mut waiter.seat);
                self.count.cancel(rt, &mut waiter.seat);
                match found {
                    Some(row) => Rested::Jobs(row),
                    None => Rested::Ended,
                }
            }
        }
    }

    /// Looks at the rows in order, up to the first that has jobs, and returns that row.
    fn row_with_jobs(&self, seat: &mut Seat) -> Option<u16>
        requires ours { seat_id seat.old ≡ count_at self.now }
        requires pre { (card_of seat.old).phase ≡ Pre }
        ensures ours { seat_id seat.new ≡ seat_id seat.old }
        ensures same { IsAfterPasses (card_of seat.old) (card_of seat.new) }
        ensures jobs { IfSome result (λ row.
            FindsJobsFirst (rows_at self.now) row (card_of seat.old) (card_of seat.new)) }
        ensures none { IfNone result
            (FindsNoJobs (rows_at self.now) (card_of seat.old) (card_of seat.new)) }
    {
        for row in 0..self.rows {
            if self.count.pass(seat, row) != 0 {
                return Some(row);
            }
        }
        None
    }

    /// Stops the count and wakes all threads that wait. From now on nobody falls asleep.
    pub fn stop<R: Wait>(&self, rt: &R, waiter: &mut RowWaiter)
        requires ours { seat_id waiter.old.seat ≡ count_at self.now }
        requires running { (card_of waiter.old.seat).phase ≡ Running }
        requires owes_none { (card_of waiter.old.seat).owing ≡ [] }
        ensures ours { seat_id waiter.new.seat ≡ seat_id waiter.old.seat }
        ensures number { (card_of waiter.new.seat).number ≡ (card_of waiter.old.seat).number }
        ensures running { (card_of waiter.new.seat).phase ≡ Running }
        ensures owes_none { (card_of waiter.new.seat).owing ≡ [] }
        ensures stop { StopsAndWakes (card_of waiter.old.seat) (card_of waiter.new.seat) }
    {
        self.count.stop(&mut waiter.seat);
        self.count.notify_all(rt, &mut waiter.seat);
    }
}
