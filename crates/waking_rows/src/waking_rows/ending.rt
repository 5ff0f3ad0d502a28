//! The end of `WakingRows`: what is left in their slots. The account that `close` promises comes
//! from `SlotRows::close`.
ghost use Rattle.std.specs.Prelude.{◌≡◌, ℕ, ◌≤◌, [], All, length, vec_len, vec_capacity};
ghost use Rattle.std.specs.List.{flat_map};
ghost use Rattle.run_queue.specs.Account.{AccountsFor};
ghost use Rattle.run_queue.specs.Bag.{total};
ghost use Rattle.run_queue.specs.SlotSeats.{table_of, puts_of, takes_of};
ghost use Rattle.waking_rows.specs.Seats.{seats_in, puts_by, takes_by, home_of, place_of};
ghost use Rattle.waking_rows.specs.Tickets.{jobs_in};

use crate::ticketed::Ticketed;
use crate::waking_rows::{WakingRows, WakingSeat};
use run_queue::SlotSeat;
use std::alloc::Allocator;

impl<J: Drop, A: Allocator + Clone> WakingRows<J, A> {
    /// Ends the rows, given all their seats, and returns the jobs that are left. Takes the seats
    /// out of the list.
    pub fn close(self, seats: &mut Vec<WakingSeat<J>, A>) -> Vec<J, A>
        requires ours { All (λ seat. home_of seat ≡ place_of self) seats.old.items }
        requires all { length seats.old.items ≡ seats_in self }
        ensures account { AccountsFor puts_by takes_by seats.old.items result.items }
    {
        let WakingRows {
            slots,
            left,
            homes,
            ..
        } = self;
        let list = slot_seats(seats, homes.into_list());
        let items = slots.close(list);
        jobs_of(items, left.into_list())
    }
}

/// Takes the seats out of the list, the last first, and moves their seats at the slots into an
/// empty list that has room for them.
fn slot_seats<J, A: Allocator>(
    seats: &mut Vec<WakingSeat<J>, A>,
    mut list: Vec<SlotSeat<Ticketed<J>>, A>,
) -> Vec<SlotSeat<Ticketed<J>>, A>
    requires none { list.items ≡ [] }
    requires room { length seats.old.items ≤ vec_capacity list }
    ensures many { length result.items ≡ length seats.old.items }
    ensures ours { (table : _) → All (λ seat. table_of seat.slot ≡ table) seats.old.items
        → All (λ slot. table_of slot ≡ table) result.items }
    ensures puts { (h : J → ℕ) → total (λ it. h it.job) (flat_map puts_of result.items)
        ≡ total h (flat_map puts_by seats.old.items) }
    ensures takes { (h : J → ℕ) → total (λ it. h it.job) (flat_map takes_of result.items)
        ≡ total h (flat_map takes_by seats.old.items) }
{
    while let Some(seat) = seats.pop() {
        let WakingSeat { slot, .. } = seat;
        list.push_reserved(slot);
    }
    list
}

/// Moves the jobs without their tickets into an empty list that has room for them.
fn jobs_of<J: Drop, A: Allocator>(items: Vec<Ticketed<J>, A>, mut jobs: Vec<J, A>) -> Vec<J, A>
    requires none { jobs.items ≡ [] }
    requires room { vec_len items ≤ vec_capacity jobs }
    ensures jobs { result.items ≡ jobs_in items.items }
{
    for it in items {
        let Ticketed { job, .. } = it;
        jobs.push_reserved(job);
    }
    jobs
}
