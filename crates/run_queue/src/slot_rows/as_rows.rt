//! `SlotRows` as `Rows`. Each contract here says more than the trait's: which claim or look the
//! call made.
ghost use Rattle.std.specs.Prelude.{◌≡◌, ◌≢◌, ◌↔◌, ◌<◌, ◌≤◌, ◌+◌, ◌++◌, option_to_list};
ghost use Rattle.std.specs.Prelude.{IfErr, IsErr, IsNone};
ghost use Rattle.run_queue.specs.Account.{AddsIfOk};
ghost use Rattle.run_queue.specs.Elements.{empty_word, ready_word};
ghost use Rattle.run_queue.specs.Limits.{most_jobs};
ghost use Rattle.run_queue.specs.Positions.{position_before, element_at, row_with};
ghost use Rattle.run_queue.specs.SlotSeats.{rows_id, row_count_of, seat_count_of, table_of};
ghost use Rattle.run_queue.specs.SlotSeats.{number_in, puts_of, takes_of, front_of, claim_of};
ghost use Rattle.run_queue.specs.SlotSeats.{ClaimedOnce, LookedOnce};

use crate::rows::{Rows, RowsFault};
use crate::slot_rows::SlotRows;
use crate::slot_rows::seat::SlotSeat;
use std::alloc::Allocator;
use std::sync::Wait;

impl<J: Drop, A: Allocator + Clone> Rows<J, A> for SlotRows<J, A> {
    ghost use Rattle.atomic_table.specs.Seated.{TableId};
    ghost use Rattle.run_queue.specs.SlotSeats.{rows_id, row_count_of, seat_count_of, table_of};
    ghost use Rattle.run_queue.specs.SlotSeats.{number_in, puts_of, takes_of};

    type Seat = SlotSeat<J>;

    ghost row_count = { row_count_of };

    ghost seat_count = { seat_count_of };

    ghost Identity = { TableId };

    ghost identity_of = { rows_id };

    ghost rows_of = { table_of };

    ghost number_of = { number_in };

    ghost keeps_accounts = { Unit {0} };

    ghost puts_of = { puts_of };

    ghost takes_of = { takes_of };

    fn open(alloc: A, rows: u16, outsiders: u16) -> Result<(Self, Vec<SlotSeat<J>, A>), RowsFault> {
        SlotRows::<J, A>::open(alloc, rows, outsiders)
    }

    fn put_front<R: Wait>(&self, _rt: &R, seat: &mut SlotSeat<J>, job: J) -> Result<(), J>
        requires ours { table_of seat.old ≡ rows_id self.now }
        requires owner { number_in seat.old < row_count_of self.now }
        ensures returned { IfErr result (λ back. back ≡ job) }
        ensures rows { table_of seat.new ≡ table_of seat.old }
        ensures number { number_in seat.new ≡ number_in seat.old }
        ensures puts { AddsIfOk result job (puts_of seat.old) (puts_of seat.new) }
        ensures takes { takes_of seat.new ≡ takes_of seat.old }
        ensures claim { ClaimedOnce seat.old seat.new empty_word }
        ensures at_front { (claim_of seat.new).element
            ≡ element_at (number_in seat.old) (front_of seat.old) }
        ensures full { IsErr result ↔ ((claim_of seat.new).found ≢ empty_word) }
    {
        self.push_front(seat, job)
    }

    fn take_front<R: Wait>(&self, _rt: &R, seat: &mut SlotSeat<J>) -> Option<J>
        requires ours { table_of seat.old ≡ rows_id self.now }
        requires owner { number_in seat.old < row_count_of self.now }
        ensures rows { table_of seat.new ≡ table_of seat.old }
        ensures number { number_in seat.new ≡ number_in seat.old }
        ensures puts { puts_of seat.new ≡ puts_of seat.old }
        ensures takes { takes_of seat.new ≡ takes_of seat.old ++ option_to_list result }
        ensures claim { ClaimedOnce seat.old seat.new ready_word }
        ensures before_front { (claim_of seat.new).element
            ≡ element_at (number_in seat.old) (position_before (front_of seat.old)) }
        ensures none { IsNone result ↔ ((claim_of seat.new).found ≢ ready_word) }
    {
        self.pop_front(seat)
    }

    fn put_back<R: Wait>(&self, rt: &R, seat: &mut SlotSeat<J>, row: u16, job: J) -> Result<(), J>
        requires ours { table_of seat.old ≡ rows_id self.now }
        requires row { row < row_count_of self.now }
        ensures returned { IfErr result (λ back. back ≡ job) }
        ensures rows { table_of seat.new ≡ table_of seat.old }
        ensures number { number_in seat.new ≡ number_in seat.old }
        ensures puts { AddsIfOk result job (puts_of seat.old) (puts_of seat.new) }
        ensures takes { takes_of seat.new ≡ takes_of seat.old }
        ensures claim { ClaimedOnce seat.old seat.new empty_word }
        ensures in_row { row_with (claim_of seat.new).element ≡ row }
        ensures full { IsErr result ↔ ((claim_of seat.new).found ≢ empty_word) }
    {
        self.push_back(rt, seat, row, job)
    }

    fn take_back<R: Wait>(&self, rt: &R, seat: &mut SlotSeat<J>, row: u16) -> Option<J>
        requires ours { table_of seat.old ≡ rows_id self.now }
        requires row { row < row_count_of self.now }
        ensures rows { table_of seat.new ≡ table_of seat.old }
        ensures number { number_in seat.new ≡ number_in seat.old }
        ensures puts { puts_of seat.new ≡ puts_of seat.old }
        ensures takes { takes_of seat.new ≡ takes_of seat.old ++ option_to_list result }
        ensures claim { ClaimedOnce seat.old seat.new ready_word }
        ensures in_row { row_with (claim_of seat.new).element ≡ row }
        ensures none { IsNone result ↔ ((claim_of seat.new).found ≢ ready_word) }
    {
        self.pop_back(rt, seat, row)
    }

    fn row_length<R: Wait>(&self, _rt: &R, seat: &mut SlotSeat<J>, row: u16) -> u64
        requires ours { table_of seat.old ≡ rows_id self.now }
        requires row { row < row_count_of self.now }
        ensures rows { table_of seat.new ≡ table_of seat.old }
        ensures number { number_in seat.new ≡ number_in seat.old }
        ensures puts { puts_of seat.new ≡ puts_of seat.old }
        ensures takes { takes_of seat.new ≡ takes_of seat.old }
        ensures look { LookedOnce seat.old seat.new row result }
        ensures few { result ≤ most_jobs + seat_count_of self.now }
    {
        self.length(seat, row)
    }

    fn drain_with(self, seats: &mut Vec<SlotSeat<J>, A>) -> Vec<J, A> {
        self.close_with(seats)
    }
}
