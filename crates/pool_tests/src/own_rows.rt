//! Rows that return every job, for pools that must then run the jobs on the calling thread.
ghost use Rattle.std.specs.Prelude.{◌≡◌};

use run_queue::{Rows, RowsFault};
use std::alloc::Allocator;
use std::sync::Wait;

/// Rows that take no job. Their seats are those of the rows that they hide.
#[derive(Drop)]
pub(crate) struct OwnRows<Q> {
    rows: Q,
}

impl<J: Drop, A: Allocator, Q: Rows<J, A>> Rows<J, A> for OwnRows<Q> {
    type Seat = Q::Seat;

    ghost row_count = { λ own. Q.row_count own.rows };

    ghost seat_count = { λ own. Q.seat_count own.rows };

    ghost Identity = { Q.Identity };

    ghost identity_of = { λ own. Q.identity_of own.rows };

    ghost rows_of = { Q.rows_of };

    ghost number_of = { Q.number_of };

    ghost keeps_accounts = { Q.keeps_accounts };

    ghost puts_of = { Q.puts_of };

    ghost takes_of = { Q.takes_of };

    fn open(alloc: A, rows: u16, outsiders: u16) -> Result<(Self, Vec<Q::Seat, A>), RowsFault> {
        let (rows, seats) = Q::open(alloc, rows, outsiders)?;
        Ok((OwnRows { rows }, seats))
    }

    fn put_front<R: Wait>(&self, _rt: &R, _seat: &mut Q::Seat, job: J) -> Result<(), J> {
        Err(job)
    }

    fn take_front<R: Wait>(&self, _rt: &R, _seat: &mut Q::Seat) -> Option<J> {
        None
    }

    fn put_back<R: Wait>(&self, _rt: &R, _seat: &mut Q::Seat, _row: u16, job: J) -> Result<(), J> {
        Err(job)
    }

    fn take_back<R: Wait>(&self, _rt: &R, _seat: &mut Q::Seat, _row: u16) -> Option<J> {
        None
    }

    fn row_length<R: Wait>(&self, _rt: &R, _seat: &mut Q::Seat, _row: u16) -> u64 {
        0
    }

    fn drain_with(self, seats: &mut Vec<Q::Seat, A>) -> Vec<J, A> {
        self.rows.drain_with(seats)
    }
}
