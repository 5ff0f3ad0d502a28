//! Rows that hand out no job before their end, so that the closing pool finds all of them.
ghost use Rattle.std.specs.Prelude.{◌≡◌};

use run_queue::{Rows, RowsFault};
use std::alloc::Allocator;
use std::sync::Wait;

/// Rows in which no worker finds a job. The jobs come out when the rows are drained.
#[derive(Drop)]
pub(crate) struct KeptRows<Q> {
    rows: Q,
}

impl<J: Drop, A: Allocator, Q: Rows<J, A>> Rows<J, A> for KeptRows<Q> {
    type Seat = Q::Seat;

    ghost row_count = { λ kept. Q.row_count kept.rows };

    ghost seat_count = { λ kept. Q.seat_count kept.rows };

    ghost Identity = { Q.Identity };

    ghost identity_of = { λ kept. Q.identity_of kept.rows };

    ghost rows_of = { Q.rows_of };

    ghost number_of = { Q.number_of };

    ghost keeps_accounts = { Q.keeps_accounts };

    ghost puts_of = { Q.puts_of };

    ghost takes_of = { Q.takes_of };

    fn open(alloc: A, rows: u16, outsiders: u16) -> Result<(Self, Vec<Q::Seat, A>), RowsFault> {
        let (rows, seats) = Q::open(alloc, rows, outsiders)?;
        Ok((KeptRows { rows }, seats))
    }

    fn put_front<R: Wait>(&self, rt: &R, seat: &mut Q::Seat, job: J) -> Result<(), J> {
        self.rows.put_front(rt, seat, job)
    }

    fn take_front<R: Wait>(&self, _rt: &R, _seat: &mut Q::Seat) -> Option<J> {
        None
    }

    fn put_back<R: Wait>(&self, rt: &R, seat: &mut Q::Seat, row: u16, job: J) -> Result<(), J> {
        self.rows.put_back(rt, seat, row, job)
    }

    fn take_back<R: Wait>(&self, _rt: &R, _seat: &mut Q::Seat, _row: u16) -> Option<J> {
        None
    }

    fn row_length<R: Wait>(&self, _rt: &R, _seat: &mut Q::Seat, _row: u16) -> u64 {
        0
    }

    fn drain_with(self, seats: &mut Vec<Q::Seat, A>) -> Vec<J, A> {
        self.rows.drain_with(seats)
    }
}
