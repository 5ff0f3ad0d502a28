//! Jobs come and go: a publish turns a credit into a ticket, and a take turns a ticket into a
//! credit. `specs/Tickets.antt` counts both, and waking_rows lays a ticket beside each of its jobs.
ghost use Rattle.std.specs.Prelude.{◌≡◌, ◌↔◌, ◌<◌, [], false, None, IfSome, IfNone};
ghost use Rattle.event_word.specs.declared.phase.Phase.TheVariants.{Running};

use crate::count::Count;
use crate::kind::Rowed;
use crate::rows::plays::{
    CutsCredit, CutsTicket, Publishes, Redeems, TakesCredit, TakesTicket, Weighs,
};
use crate::rule::{STOP, row_word_of};
use crate::seat::Seat;
use crate::tokens::{Credit, Ticket};
use std::alloc::Allocator;

impl<A: Allocator> Count<Rowed, A> {
    ghost use Rattle.event_count.specs.Seats.{card_of, looked_of, row_sizes_of, IsSeatOf};
    ghost use Rattle.event_count.specs.Rows.Gains.{publishing, redeeming, lending, accepting};
    ghost use Rattle.event_count.specs.Rows.Seats.{row_of, IsTicketAt};
    ghost use Rattle.event_count.specs.Rows.Seats.{IsCreditAt};

    /// Publishes a job: the row has one job more, and the returned ticket is that job's. Afterwards
    /// the seat lays the job where others may take it, and then has to notify. Returns none, and
    /// changes nothing, if the seat has no credit.
    pub fn publish(&self, seat: &mut Seat, row: u16) -> Option<Ticket>
        requires of { IsSeatOf self.now seat.old }
        requires row { row < (row_sizes_of self.now).rows }
        requires running { (card_of seat.old).phase ≡ Running }
        requires owes_none { (card_of seat.old).owing ≡ [] }
        requires silent { (card_of seat.old).announcing ≡ false }
        ensures of { IsSeatOf self.now seat.new }
        ensures used { looked_of seat.new ≡ None }
        ensures none { result ≡ None ↔ (card_of seat.old).credits ≡ 0 }
        ensures same { IfNone result (card_of seat.new ≡ card_of seat.old) }
        ensures ours { IfSome result (IsTicketAt self.now) }
        ensures row { IfSome result (λ ticket. row_of ticket ≡ row) }
        ensures card { IfSome result (λ _. card_of seat.new ≡ publishing (card_of seat.old) row) }
    {
        seat.looked = None;
        if seat.credits == 0 {
            return None;
        }
        Some(self.publish_one(seat, row))
    }

    /// Publishes a job by a seat that has a credit, and returns its ticket.
    fn publish_one(&self, seat: &mut Seat, row: u16) -> Ticket
        requires of { IsSeatOf self.now seat.old }
        requires row { row < (row_sizes_of self.now).rows }
        requires running { (card_of seat.old).phase ≡ Running }
        requires owes_none { (card_of seat.old).owing ≡ [] }
        requires silent { (card_of seat.old).announcing ≡ false }
        requires used { looked_of seat.old ≡ None }
        requires credit { 0 < (card_of seat.old).credits }
        ensures of { IsSeatOf self.now seat.new }
        ensures used { looked_of seat.new ≡ None }
        ensures ours { IsTicketAt self.now result }
        ensures row { row_of result ≡ row }
        ensures card { card_of seat.new ≡ publishing (card_of seat.old) row }
    {
        let place = row_word_of(self.lines(), row);
        let shared = &self.table.shared;
        shared.fetch_add::<Publishes>(&mut seat.seat, place, 1);
        let ticket = shared.split_seat::<CutsTicket>(&mut seat.seat);
        seat.credits -= 1;
        Ticket {
            badge: ticket.into_badge(),
            row,
        }
    }

    /// Takes a job off the ticket's row: the row has one job less, and the seat one credit more.
    /// Uses the ticket up.
    pub fn take(&self, seat: &mut Seat, ticket: Ticket)
        requires of { IsSeatOf self.now seat.old }
        requires ours { IsTicketAt self.now ticket }
        requires running { (card_of seat.old).phase ≡ Running }
        requires owes_none { (card_of seat.old).owing ≡ [] }
        ensures of { IsSeatOf self.now seat.new }
        ensures used { looked_of seat.new ≡ None }
        ensures card { card_of seat.new ≡ redeeming (card_of seat.old) (row_of ticket) }
    {
        let Ticket { badge, row } = ticket;
        let place = row_word_of(self.lines(), row);
        let shared = &self.table.shared;
        shared.join_seat::<TakesTicket>(&mut seat.seat, badge.into_seat());
        shared.fetch_sub::<Redeems>(&mut seat.seat, place, 1);
        seat.looked = None;
        seat.credits += 1;
    }

    /// Takes a credit off the seat, for another seat to accept. None if the seat has no credit.
    pub fn lend(&self, seat: &mut Seat) -> Option<Credit>
        requires of { IsSeatOf self.now seat.old }
        ensures of { IsSeatOf self.now seat.new }
        ensures used { looked_of seat.new ≡ None }
        ensures none { result ≡ None ↔ (card_of seat.old).credits ≡ 0 }
        ensures same { IfNone result (card_of seat.new ≡ card_of seat.old) }
        ensures ours { IfSome result (IsCreditAt self.now) }
        ensures card { IfSome result (λ _. card_of seat.new ≡ lending (card_of seat.old)) }
    {
        seat.looked = None;
        if seat.credits == 0 {
            return None;
        }
        let credit = self.table.shared.split_seat::<CutsCredit>(&mut seat.seat);
        seat.credits -= 1;
        Some(Credit {
            badge: credit.into_badge(),
        })
    }

    /// Gives the seat a credit that another seat lent.
    pub fn accept(&self, seat: &mut Seat, credit: Credit)
        requires of { IsSeatOf self.now seat.old }
        requires ours { IsCreditAt self.now credit }
        ensures of { IsSeatOf self.now seat.new }
        ensures used { looked_of seat.new ≡ None }
        ensures card { card_of seat.new ≡ accepting (card_of seat.old) }
    {
        let Credit { badge } = credit;
        let shared = &self.table.shared;
        shared.join_seat::<TakesCredit>(&mut seat.seat, badge.into_seat());
        // The play of this load says that the seat's credits stay within their limit.
        shared.load::<Weighs>(&mut seat.seat, STOP);
        seat.looked = None;
        seat.credits += 1;
    }
}
