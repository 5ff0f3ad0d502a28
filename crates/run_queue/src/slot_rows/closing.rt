//! The end of rows of slots: one seat takes over the accounts of all others, and so knows the whole
//! account. The account that `close` promises comes from the rule in `specs/RowTable.antt`.
ghost use Rattle.std.specs.Prelude.{◌≡◌, ℕ, ◌+◌, ◌<◌, ◌≤◌, ◌++◌, [], None, All, length};
ghost use Rattle.std.specs.Prelude.{option_to_list, vec_len, vec_capacity};
ghost use Rattle.std.specs.List.{flat_map};
ghost use Rattle.std.specs.Mem.Slots.{slots_items, slots_len, IsFull};
ghost use Rattle.run_queue.specs.Account.{AccountsFor};
ghost use Rattle.run_queue.specs.Bag.{total};
ghost use Rattle.run_queue.specs.Elements.{weight};
ghost use Rattle.run_queue.specs.Views.{nothing};
ghost use Rattle.run_queue.specs.SlotSeats.{rows_id, seat_count_of, table_of, puts_of, takes_of};
ghost use Rattle.run_queue.specs.SlotSeats.{elements_of};

use crate::slot_rows::SlotRows;
use crate::slot_rows::contents::Contents;
use crate::slot_rows::plays::Enters;
use crate::slot_rows::rule::{Law, RowsKey, TakesIn};
use crate::slot_rows::seat::SlotSeat;
use crate::slot_rows::view::View;
use atomic_table::{Closed, Seat, Shared};
use std::alloc::Allocator;

impl<J: Drop, A: Allocator, F: Contents<J>> SlotRows<J, A, F> {
    /// Ends the rows, given all their seats, and returns the jobs that are left, in any order.
    pub fn close(self, mut seats: Vec<SlotSeat<J>, A>) -> Vec<J, A>
        requires ours { All (λ s. table_of s ≡ rows_id self) seats.items }
        requires all { length seats.items ≡ seat_count_of self }
        ensures few { vec_len result ≤ elements_of self }
        ensures account { AccountsFor puts_of takes_of seats.items result.items }
    {
        self.close_with(&mut seats)
    }

    /// Does what `close` does, and takes the seats out of the list.
    pub(crate) fn close_with(self, seats: &mut Vec<SlotSeat<J>, A>) -> Vec<J, A>
        requires ours { All (λ s. table_of s ≡ rows_id self) seats.old.items }
        requires all { length seats.old.items ≡ seat_count_of self }
        ensures few { vec_len result ≤ elements_of self }
        ensures account { AccountsFor puts_of takes_of seats.old.items result.items }
    {
        let SlotRows { table, left, .. } = self;
        let mut left = left.into_list();
        let (_, mut last) = table.shared.load_new_seat::<Enters>(0);
        gather(&table.shared, &mut last, seats);
        drain(table.close_with(last), &mut left);
        left
    }
}

/// Takes the seats out of the list, the last first, and joins their accounts to `last`, a seat that
/// has none yet.
fn gather<J, A: Allocator, F: Contents<J>>(
    shared: &Shared<Option<J>, View<J>, RowsKey<F::Key>, Law<J, F>>,
    last: &mut Seat<Option<J>, View<J>>,
    seats: &mut Vec<SlotSeat<J>, A>,
)
    requires of { last.old.table_id ≡ shared.now.table_id }
    requires ours { All (λ s. table_of s ≡ shared.now.table_id) seats.old.items }
    requires words { 0 < shared.now.table_id.words }
    requires nothing { last.old.me ≡ (nothing, []) }
    ensures of { last.new.table_id ≡ shared.now.table_id }
    ensures none_held { last.new.me.1 ≡ [] }
    ensures none_busy { last.new.me.0.busy ≡ None }
    ensures parts { last.new.me.0.parts ≡ length seats.old.items }
    ensures puts { (h : J → ℕ) →
        total h last.new.me.0.puts ≡ total h (flat_map puts_of seats.old.items) }
    ensures takes { (h : J → ℕ) →
        total h last.new.me.0.takes ≡ total h (flat_map takes_of seats.old.items) }
{
    while let Some(seat) = seats.pop() {
        let SlotSeat { held, .. } = seat;
        shared.join_seat::<TakesIn<J>>(last, held.seat);
    }
}

/// Appends the job of a slot, if it has one, to `left`.
fn keep<J, A: Allocator>(left: &mut Vec<J, A>, slot: Option<J>)
    requires { vec_len left.old < vec_capacity left.old }
    ensures items { left.new.items ≡ left.old.items ++ option_to_list slot }
    ensures grows { vec_len left.new ≤ vec_len left.old + 1 }
    ensures capacity { vec_capacity left.new ≡ vec_capacity left.old }
{
    if let Some(job) = slot {
        left.push_reserved(job);
    }
}

/// Moves the jobs of all slots to `left`, and frees the table.
fn drain<J, A: Allocator>(mut closed: Closed<Option<J>, A>, left: &mut Vec<J, A>)
    requires full { IsFull closed.slots }
    requires room { vec_len left.old + slots_len closed.slots ≤ vec_capacity left.old }
    ensures few { vec_len left.new ≤ vec_len left.old + slots_len closed.slots }
    ensures jobs { (h : J → ℕ) → total h left.new.items
        ≡ total h left.old.items + total (weight h) (slots_items closed.slots) }
{
    let mut i = 0;
    while i < closed.slot_count() {
        keep(left, closed.take(i));
        i += 1;
    }
    closed.free();
}
