//! The calls at the front and the back of a row of slots, and the load of its length. Each call at
//! an end makes one claim, and `as_rows.rt` repeats its contract.
ghost use Rattle.std.specs.Prelude.{◌≡◌, ◌≢◌, ◌↔◌, ◌<◌, ◌≤◌, ◌+◌, ◌++◌, option_to_list};
ghost use Rattle.std.specs.Prelude.{IfErr, IsErr, IsNone, OnOk, OnErr, OnSome, IfSome, IfNone};
ghost use Rattle.run_queue.specs.Account.{AddsIfOk};
ghost use Rattle.run_queue.specs.Elements.{empty_word, ready_word};
ghost use Rattle.run_queue.specs.Limits.{most_jobs};
ghost use Rattle.run_queue.specs.Positions.{position_after, position_before, element_at};
ghost use Rattle.run_queue.specs.Positions.{row_with};
ghost use Rattle.run_queue.specs.SlotSeats.{rows_id, row_count_of, seat_count_of, table_of};
ghost use Rattle.run_queue.specs.SlotSeats.{number_in, puts_of, takes_of, front_of, claims_of};
ghost use Rattle.run_queue.specs.SlotSeats.{claim_of, ClaimedOnce, looks_of, LookedOnce, of_key};

use crate::deque::ROW_JOBS;
use crate::slot_rows::SlotRows;
use crate::slot_rows::contents::{AnyJob, Contents};
use crate::slot_rows::plays::{MovesDown, MovesUp, Stays};
use crate::slot_rows::seat::SlotSeat;
use std::alloc::Allocator;
use std::marker::Brand;
use std::sync::Wait;

impl<J, A: Allocator, F: Contents<J>> SlotRows<J, A, F> {
    /// Puts a job in at the front of the seat's own row, or returns it if the element there is not
    /// empty.
    pub fn push_front(&self, seat: &mut SlotSeat<J>, job: J) -> Result<(), J>
        requires ours { table_of seat.old ≡ rows_id self.now }
        requires owner { number_in seat.old < row_count_of self.now }
        requires fits { F.fits (of_key self.now) (number_in seat.old) job }
        ensures ours { table_of seat.new ≡ table_of seat.old }
        ensures number { number_in seat.new ≡ number_in seat.old }
        ensures returned { IfErr result (λ back. back ≡ job) }
        ensures puts { AddsIfOk result job (puts_of seat.old) (puts_of seat.new) }
        ensures takes { takes_of seat.new ≡ takes_of seat.old }
        ensures claim { ClaimedOnce seat.old seat.new empty_word }
        ensures at_front { (claim_of seat.new).element
            ≡ element_at (number_in seat.old) (front_of seat.old) }
        ensures full { IsErr result ↔ ((claim_of seat.new).found ≢ empty_word) }
        ensures moves { OnOk result (front_of seat.new ≡ position_after (front_of seat.old)) }
        ensures stays { OnErr result (front_of seat.new ≡ front_of seat.old) }
        ensures looks { looks_of seat.new ≡ looks_of seat.old }
    {
        let element = self.element(seat.number as usize, seat.front);
        let pushed = self.push_at::<MovesUp>(&mut seat.held, element, job);
        if pushed.is_ok() {
            seat.front = (seat.front + 1) % ROW_JOBS;
        }
        pushed
    }

    /// Takes the job before the front of the seat's own row. None if the element there is not
    /// ready.
    pub fn pop_front(&self, seat: &mut SlotSeat<J>) -> Option<J>
        requires ours { table_of seat.old ≡ rows_id self.now }
        requires owner { number_in seat.old < row_count_of self.now }
        ensures ours { table_of seat.new ≡ table_of seat.old }
        ensures number { number_in seat.new ≡ number_in seat.old }
        ensures fits { IfSome result (F.fits (of_key self.now) (number_in seat.old)) }
        ensures puts { puts_of seat.new ≡ puts_of seat.old }
        ensures takes { takes_of seat.new ≡ takes_of seat.old ++ option_to_list result }
        ensures claim { ClaimedOnce seat.old seat.new ready_word }
        ensures before_front { (claim_of seat.new).element
            ≡ element_at (number_in seat.old) (position_before (front_of seat.old)) }
        ensures none { IsNone result ↔ ((claim_of seat.new).found ≢ ready_word) }
        ensures moves { OnSome result (front_of seat.new ≡ position_before (front_of seat.old)) }
        ensures stays { IfNone result (front_of seat.new ≡ front_of seat.old) }
        ensures looks { looks_of seat.new ≡ looks_of seat.old }
    {
        let before = (seat.front + ROW_JOBS - 1) % ROW_JOBS;
        let element = self.element(seat.number as usize, before);
        let popped = self.pop_at::<MovesDown, Brand>(&mut seat.held, element);
        if popped.is_some() {
            seat.front = before;
        }
        popped
    }

    /// Puts a job in before the back of a row, or returns it if the element there is not empty.
    pub fn push_back<R: Wait>(
        &self,
        rt: &R,
        seat: &mut SlotSeat<J>,
        row: u16,
        job: J,
    ) -> Result<(), J>
        requires ours { table_of seat.old ≡ rows_id self.now }
        requires row { row < row_count_of self.now }
        requires fits { F.fits (of_key self.now) row job }
        ensures ours { table_of seat.new ≡ table_of seat.old }
        ensures number { number_in seat.new ≡ number_in seat.old }
        ensures returned { IfErr result (λ back. back ≡ job) }
        ensures puts { AddsIfOk result job (puts_of seat.old) (puts_of seat.new) }
        ensures takes { takes_of seat.new ≡ takes_of seat.old }
        ensures claim { ClaimedOnce seat.old seat.new empty_word }
        ensures in_row { row_with (claim_of seat.new).element ≡ row }
        ensures full { IsErr result ↔ ((claim_of seat.new).found ≢ empty_word) }
        ensures front { front_of seat.new ≡ front_of seat.old }
        ensures looks { looks_of seat.new ≡ looks_of seat.old }
    {
        let mut back = self.backs[usize::from(row)].lock(rt);
        let before = (back.at + ROW_JOBS - 1) % ROW_JOBS;
        let element = self.element(usize::from(row), before);
        let pushed = self.push_at::<Stays>(&mut seat.held, element, job);
        if pushed.is_ok() {
            back.at = before;
        }
        pushed
    }

    /// Takes the job at the back of a row. None if the element there is not ready.
    pub fn pop_back<R: Wait>(&self, rt: &R, seat: &mut SlotSeat<J>, row: u16) -> Option<J>
        requires ours { table_of seat.old ≡ rows_id self.now }
        requires row { row < row_count_of self.now }
        ensures ours { table_of seat.new ≡ table_of seat.old }
        ensures number { number_in seat.new ≡ number_in seat.old }
        ensures fits { IfSome result (F.fits (of_key self.now) row) }
        ensures puts { puts_of seat.new ≡ puts_of seat.old }
        ensures takes { takes_of seat.new ≡ takes_of seat.old ++ option_to_list result }
        ensures claim { ClaimedOnce seat.old seat.new ready_word }
        ensures in_row { row_with (claim_of seat.new).element ≡ row }
        ensures none { IsNone result ↔ ((claim_of seat.new).found ≢ ready_word) }
        ensures front { front_of seat.new ≡ front_of seat.old }
        ensures looks { looks_of seat.new ≡ looks_of seat.old }
    {
        let mut back = self.backs[usize::from(row)].lock(rt);
        let at = back.at;
        let element = self.element(usize::from(row), at);
        let popped = self.pop_at::<Stays, Brand>(&mut seat.held, element);
        if popped.is_some() {
            back.at = (at + 1) % ROW_JOBS;
        }
        popped
    }
}

impl<J, A: Allocator> SlotRows<J, A, AnyJob> {
    /// Returns how many jobs a row has. Jobs on their way in or out may be counted too, at most one
    /// for each seat.
    pub fn length(&self, seat: &mut SlotSeat<J>, row: u16) -> u64
        requires ours { table_of seat.old ≡ rows_id self.now }
        requires row { row < row_count_of self.now }
        ensures ours { table_of seat.new ≡ table_of seat.old }
        ensures number { number_in seat.new ≡ number_in seat.old }
        ensures puts { puts_of seat.new ≡ puts_of seat.old }
        ensures takes { takes_of seat.new ≡ takes_of seat.old }
        ensures look { LookedOnce seat.old seat.new row result }
        ensures few { result ≤ most_jobs + seat_count_of self.now }
        ensures claims { claims_of seat.new ≡ claims_of seat.old }
        ensures front { front_of seat.new ≡ front_of seat.old }
    {
        self.look_at::<Brand>(&mut seat.held, usize::from(row))
    }
}
