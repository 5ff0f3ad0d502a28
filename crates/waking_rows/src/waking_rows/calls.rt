//! The puts and takes. A put publishes before it claims its slot, and notifies afterwards; the laws
//! of the crate rest on this order.
ghost use Rattle.std.specs.Prelude.{◌≡◌, ◌<◌, ◌+◌, ◌++◌, option_to_list};
ghost use Rattle.std.specs.Prelude.{IfErr, IsErr, IfSome, IsNone, IfNone, MatchResult, is_ok};
ghost use Rattle.event_count.specs.Kinds.{with_rows};
ghost use Rattle.event_count.specs.Seats.{card_of, seat_id, IsIdle};
ghost use Rattle.event_count.specs.Waits.{RestsOnNotify};
ghost use Rattle.event_count.specs.Rows.Gains.{redeeming};
ghost use Rattle.event_count.specs.Rows.Seats.{row_of, ticket_id, IsSilent};
ghost use Rattle.run_queue.specs.Account.{AddsIfOk};
ghost use Rattle.run_queue.specs.Elements.{ready_word};
ghost use Rattle.run_queue.specs.Positions.{position_before, element_at, row_with};
ghost use Rattle.waking_rows.specs.Credits.{saving};
ghost use Rattle.waking_rows.specs.Seats.{IsSeatOf, IsSameSeat, number_by, puts_by, takes_by};
ghost use Rattle.waking_rows.specs.Seats.{count_in, rows_in, credits_by, funds, front_by, claimed_by};
ghost use Rattle.waking_rows.specs.Seats.{Claims, IsPut, PaysIfOk, PutsAt};
ghost use Rattle.waking_rows.specs.Tickets.{job_back, giving_back};

use crate::ticketed::Ticketed;
use crate::waking_rows::{WakingRows, WakingSeat};
use event_count::Seat;
use std::alloc::Allocator;
use std::sync::Wait;

impl<J, A: Allocator> WakingRows<J, A> {
    /// Puts a job in at the front of the seat's own row, and notifies one waiter. Returns the job
    /// if the seat finds no credit, or if the element is not empty.
    pub fn push_front<R: Wait>(&self, rt: &R, seat: &mut WakingSeat<J>, job: J) -> Result<(), J>
        requires ours { IsSeatOf self.now seat.old }
        requires owner { number_by seat.old < rows_in self.now }
        ensures same { IsSameSeat seat.old seat.new }
        ensures returned { IfErr result (λ back. back ≡ job) }
        ensures puts { AddsIfOk result job (puts_by seat.old) (puts_by seat.new) }
        ensures takes { takes_by seat.new ≡ takes_by seat.old }
        ensures refused { IsPut (IsErr result) seat.old seat.new }
        ensures steps { PutsAt (number_by seat.old) (is_ok result) (card_of seat.old.seat)
            (card_of seat.new.seat) }
        ensures at_front { 0 < funds seat.old seat.new → claimed_by seat.new
            ≡ element_at (number_by seat.old) (front_by seat.old) }
        ensures credits { PaysIfOk result (funds seat.old seat.new) (credits_by seat.new) }
    {
        let row = seat.slot.number() as u16;
        self.fund(&mut seat.seat);
        let Some(ticket) = self.count.publish(&mut seat.seat, row) else {
            return Err(job);
        };
        let laid = self
            .slots
            .push_front(&mut seat.slot, Ticketed { job, ticket });
        self.announce(rt, &mut seat.seat, laid)
    }

    /// Puts a job in before the back of a row, and notifies one waiter. Returns the job if the seat
    /// finds no credit, or if the element is not empty.
    pub fn push_back<R: Wait>(
        &self,
        rt: &R,
        seat: &mut WakingSeat<J>,
        row: u16,
        job: J,
    ) -> Result<(), J>
        requires ours { IsSeatOf self.now seat.old }
        requires row { row < rows_in self.now }
        ensures same { IsSameSeat seat.old seat.new }
        ensures returned { IfErr result (λ back. back ≡ job) }
        ensures puts { AddsIfOk result job (puts_by seat.old) (puts_by seat.new) }
        ensures takes { takes_by seat.new ≡ takes_by seat.old }
        ensures refused { IsPut (IsErr result) seat.old seat.new }
        ensures steps { PutsAt row (is_ok result) (card_of seat.old.seat) (card_of seat.new.seat) }
        ensures in_row { 0 < funds seat.old seat.new → row_with (claimed_by seat.new) ≡ row }
        ensures credits { PaysIfOk result (funds seat.old seat.new) (credits_by seat.new) }
    {
        self.fund(&mut seat.seat);
        let Some(ticket) = self.count.publish(&mut seat.seat, row) else {
            return Err(job);
        };
        let laid = self
            .slots
            .push_back(rt, &mut seat.slot, row, Ticketed { job, ticket });
        self.announce(rt, &mut seat.seat, laid)
    }

    /// Takes the job before the front of the seat's own row. None if the element there is not
    /// ready.
    pub fn pop_front(&self, seat: &mut WakingSeat<J>) -> Option<J>
        requires ours { IsSeatOf self.now seat.old }
        requires owner { number_by seat.old < rows_in self.now }
        ensures same { IsSameSeat seat.old seat.new }
        ensures puts { puts_by seat.new ≡ puts_by seat.old }
        ensures takes { takes_by seat.new ≡ takes_by seat.old ++ option_to_list result }
        ensures claim { Claims ready_word (IsNone result) seat.old seat.new }
        ensures before_front { claimed_by seat.new
            ≡ element_at (number_by seat.old) (position_before (front_by seat.old)) }
        ensures redeemed { IfSome result (λ _.
            card_of seat.new.seat
            ≡ saving (redeeming (card_of seat.old.seat) (number_by seat.old))) }
        ensures unpaid { IfNone result (card_of seat.new.seat ≡ card_of seat.old.seat) }
    {
        let it = self.slots.pop_front(&mut seat.slot)?;
        Some(self.collect(&mut seat.seat, it))
    }

    /// Takes the job at the back of a row. None if the element there is not ready.
    pub fn pop_back<R: Wait>(&self, rt: &R, seat: &mut WakingSeat<J>, row: u16) -> Option<J>
        requires ours { IsSeatOf self.now seat.old }
        requires row { row < rows_in self.now }
        ensures same { IsSameSeat seat.old seat.new }
        ensures puts { puts_by seat.new ≡ puts_by seat.old }
        ensures takes { takes_by seat.new ≡ takes_by seat.old ++ option_to_list result }
        ensures claim { Claims ready_word (IsNone result) seat.old seat.new }
        ensures in_row { row_with (claimed_by seat.new) ≡ row }
        ensures redeemed { IfSome result (λ _.
            card_of seat.new.seat ≡ saving (redeeming (card_of seat.old.seat) row)) }
        ensures unpaid { IfNone result (card_of seat.new.seat ≡ card_of seat.old.seat) }
    {
        let it = self.slots.pop_back(rt, &mut seat.slot, row)?;
        Some(self.collect(&mut seat.seat, it))
    }

    /// Notifies one waiter, after a job was published. If the job could not be laid into its slot,
    /// gives its ticket back first, and returns the job.
    fn announce<R: Wait>(
        &self,
        rt: &R,
        seat: &mut Seat,
        laid: Result<(), Ticketed<J>>,
    ) -> Result<(), J>
        requires ours { seat_id seat.old ≡ count_in self.now }
        requires idle { IsIdle seat.old }
        requires counted { IfErr laid (λ it. ticket_id it.ticket ≡ count_in self.now) }
        ensures ours { seat_id seat.new ≡ seat_id seat.old }
        ensures idle { IsIdle seat.new }
        ensures silent { IsSilent seat.new }
        ensures answer { result ≡ job_back laid }
        ensures steps { RestsOnNotify with_rows (giving_back laid (card_of seat.old))
            (card_of seat.new) }
        ensures book { (card_of seat.new).book ≡ (card_of seat.old).book }
        ensures credits { MatchResult laid
            (λ _. (card_of seat.new).credits ≡ (card_of seat.old).credits)
            (λ _. (card_of seat.new).credits ≡ (card_of seat.old).credits + 1) }
    {
        let answer = match laid {
            Ok(()) => Ok(()),
            Err(it) => Err(self.redeem(seat, it)),
        };
        self.count.notify(rt, seat);
        answer
    }

    /// Gives the ticket of a taken job back, puts the seat's surplus of credits into the bank, and
    /// returns the job.
    fn collect(&self, seat: &mut Seat, it: Ticketed<J>) -> J
        requires ours { seat_id seat.old ≡ count_in self.now }
        requires idle { IsIdle seat.old }
        requires counted { ticket_id it.ticket ≡ count_in self.now }
        ensures ours { seat_id seat.new ≡ seat_id seat.old }
        ensures job { result ≡ it.job }
        ensures card { card_of seat.new
            ≡ saving (redeeming (card_of seat.old) (row_of it.ticket)) }
    {
        let job = self.redeem(seat, it);
        self.save(seat);
        job
    }

    /// Gives the ticket of a job back, and returns the job.
    fn redeem(&self, seat: &mut Seat, it: Ticketed<J>) -> J
        requires ours { seat_id seat.old ≡ count_in self.now }
        requires idle { IsIdle seat.old }
        requires counted { ticket_id it.ticket ≡ count_in self.now }
        ensures ours { seat_id seat.new ≡ seat_id seat.old }
        ensures job { result ≡ it.job }
        ensures card { card_of seat.new ≡ redeeming (card_of seat.old) (row_of it.ticket) }
    {
        let Ticketed { job, ticket } = it;
        self.count.take(seat, ticket);
        job
    }
}
