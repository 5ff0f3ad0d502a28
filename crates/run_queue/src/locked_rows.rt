//! `LockedRows`: rows of jobs behind one lock. Tests and benchmarks compare `SlotRows` with it.

ghost use Rattle.std.specs.Prelude.{◌≡◌, ℕ, ◌+◌, ◌≤◌, List, [], map, IfOk, All};
ghost use Rattle.std.specs.List.{range_with_len};
ghost use Rattle.run_queue.specs.Limits.{most_jobs};

use crate::deque_rows::DequeRows;
use crate::rows::{MOST_ROWS, Rows, RowsFault};
use std::alloc::{AllocError, Allocator, Global};
use std::marker::Model;
use std::sync::{Mutex, Wait};

/// Rows of jobs behind one lock. They keep no accounts.
#[derive(Drop)]
pub struct LockedRows<J, A: Allocator = Global> {
    rows: u16,
    // How many seats own no row. Only contracts read this field.
    outsiders: u16,
    deques: Mutex<DequeRows<J, A>>,
}

/// A seat at `LockedRows`: its number.
#[derive(Debug, Drop)]
pub struct LockedSeat {
    number: u32,
}

// Clauses see the number.
impl Model for LockedSeat {
    ghost Value = { ℕ };

    ghost view = { λ s. s.number };

    ghost inverse = { λ n. record { number = n } };
}

impl LockedSeat {
    /// Returns the number of the seat's own row. An outsider's is past the last row.
    fn row(&self) -> usize
        ensures { result ≡ self.now }
    {
        self.number as usize
    }
}

impl<J: Drop, A: Allocator + Clone> Rows<J, A> for LockedRows<J, A> {
    type Seat = LockedSeat;

    ghost row_count = { λ r. r.rows };

    ghost seat_count = { λ r. r.rows + r.outsiders };

    // A seat is only a number, so the seats of any rows will do.
    ghost Identity = { Unit {0} };

    ghost identity_of = { λ _. tt };

    ghost rows_of = { λ _. tt };

    ghost number_of = { λ s. s };

    ghost keeps_accounts = { ⊥ };

    ghost puts_of = { λ _. [] };

    ghost takes_of = { λ _. [] };

    fn open(alloc: A, rows: u16, outsiders: u16) -> Result<(Self, Vec<LockedSeat, A>), RowsFault> {
        if rows > MOST_ROWS {
            return Err(RowsFault::TooManyRows);
        }
        let deques = Mutex::new(DequeRows::new(&alloc, rows)?);
        let seats = seats(alloc, u32::from(rows) + u32::from(outsiders))?;
        Ok((
            LockedRows {
                rows,
                outsiders,
                deques,
            },
            seats,
        ))
    }

    fn put_front<R: Wait>(&self, rt: &R, seat: &mut LockedSeat, job: J) -> Result<(), J> {
        self.deques.lock(rt).push_front(seat.row(), job)
    }

    fn take_front<R: Wait>(&self, rt: &R, seat: &mut LockedSeat) -> Option<J> {
        self.deques.lock(rt).pop_front(seat.row())
    }

    fn put_back<R: Wait>(&self, rt: &R, _seat: &mut LockedSeat, row: u16, job: J) -> Result<(), J> {
        self.deques.lock(rt).push_back(usize::from(row), job)
    }

    fn take_back<R: Wait>(&self, rt: &R, _seat: &mut LockedSeat, row: u16) -> Option<J> {
        self.deques.lock(rt).pop_back(usize::from(row))
    }

    fn row_length<R: Wait>(&self, rt: &R, _seat: &mut LockedSeat, row: u16) -> u64
        ensures within { result ≤ most_jobs }
        ensures number { _seat.new ≡ _seat.old }
    {
        self.deques.lock(rt).row_len(usize::from(row)) as u64
    }

    fn drain_with(self, seats: &mut Vec<LockedSeat, A>) -> Vec<J, A> {
        seats.clear();
        self.deques.into_inner().into_jobs()
    }
}

/// Returns `count` seats, numbered from 0 on.
fn seats<A: Allocator>(alloc: A, count: u32) -> Result<Vec<LockedSeat, A>, AllocError>
    ensures { IfOk result (λ seats. seats.items ≡ range_with_len 0 count) }
{
    let mut seats = Vec::with_capacity(alloc, count as usize)?;
    for number in 0..count {
        seats.push_reserved(LockedSeat { number });
    }
    Ok(seats)
}
