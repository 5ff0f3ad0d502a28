//! `Rows`: the trait of rows of jobs that threads share, with their seats and their account.
//! `SlotRows` and `LockedRows` implement it. worker_pool calls it.

ghost use Rattle.std.specs.Prelude.{◌≡◌, ℕ, ◌+◌, ◌<◌, ◌≤◌, ◌↔◌, List, [], ◌++◌, length, map, All};
ghost use Rattle.std.specs.Prelude.{IfOk, IfErr, IsErrOf, option_to_list};
ghost use Rattle.std.specs.List.{range_with_len};
ghost use Rattle.run_queue.specs.declared.rows.RowsFault.TheVariants.{NoMemory};
ghost use Rattle.run_queue.specs.Account.{AddsIfOk, AccountsFor};
ghost use Rattle.run_queue.specs.Limits.{most_rows, most_jobs};

use std::alloc::{AllocError, Allocator};
use std::sync::Wait;
use thiserror::Error;

/// The greatest number of rows.
pub const MOST_ROWS: u16 = 256;

/// Why rows could not be opened.
#[derive(Clone, Copy, Debug, PartialEq, Eq, Hash, Error)]
pub enum RowsFault {
    /// More than `MOST_ROWS` rows were asked for. No memory was asked for.
    #[error("more than {MOST_ROWS} rows")]
    TooManyRows = 1,
    /// An allocation failed.
    #[error("out of memory")]
    NoMemory = 2,
}

impl From<AllocError> for RowsFault {
    ghost from_gives = { λ _ fault. fault ≡ NoMemory };

    fn from(_error: AllocError) -> Self {
        RowsFault::NoMemory
    }
}

/// Rows of jobs that threads share. Each thread has a seat of its own.
///
/// The seat of number k owns row k, if there is such a row. Only its owner puts jobs in and takes
/// them out at the front of a row. Each seat may put and take at the back of every row. The seats
/// whose numbers are past the rows are the outsiders.
///
/// If rows keep accounts, each seat knows which jobs went in and came out through it. At the end
/// every job that was put in was taken out once, or is left. If rows keep no accounts, a refused
/// put still returns its job, and no clause says more of jobs.
pub trait Rows<J, A: Allocator>: Sized + Drop {
    /// A thread's right to use the rows.
    type Seat: Drop;

    // How many rows there are, and how many seats were made with them.
    ghost row_count: { Self → ℕ };

    ghost seat_count: { Self → ℕ };

    // What distinguishes these rows from others, and the rows with which a seat was made.
    ghost Identity: { Type 0 };

    ghost identity_of: { Self → Identity };

    ghost rows_of: { Self.Seat → Identity };

    // A seat's number, from 0 on.
    ghost number_of: { Self.Seat → ℕ };

    // Whether accounts are kept; if so, which jobs were put in and taken out through a seat.
    ghost keeps_accounts: { Type 0 };

    ghost puts_of: { Self.Seat → List J };

    ghost takes_of: { Self.Seat → List J };

    /// Returns `rows` empty rows and `rows + outsiders` seats, by number. Allocates the memory that
    /// `drain_all` needs, too.
    fn open(alloc: A, rows: u16, outsiders: u16) -> Result<(Self, Vec<Self::Seat, A>), RowsFault>
        ensures too_many { IsErrOf result RowsFault.TooManyRows ↔ (most_rows < rows) }
        ensures rows { IfOk result (λ r. row_count r.0 ≡ rows) }
        ensures seats { IfOk result (λ r. seat_count r.0 ≡ rows + outsiders) }
        ensures numbers { IfOk result (λ r.
            map number_of r.1.items ≡ range_with_len 0 (rows + outsiders)) }
        ensures ours { IfOk result (λ r. All (λ s. rows_of s ≡ identity_of r.0) r.1.items) }
        ensures accounts { keeps_accounts → IfOk result (λ r.
            All (λ s. (puts_of s ≡ []) × (takes_of s ≡ [])) r.1.items) };

    /// Puts a job in at the front of the seat's own row, or returns the job.
    fn put_front<R: Wait>(&self, rt: &R, seat: &mut Self::Seat, job: J) -> Result<(), J>
        requires ours { rows_of seat.old ≡ identity_of self.now }
        requires owner { number_of seat.old < row_count self.now }
        ensures returned { IfErr result (λ back. back ≡ job) }
        ensures rows { rows_of seat.new ≡ rows_of seat.old }
        ensures number { number_of seat.new ≡ number_of seat.old }
        ensures puts { keeps_accounts → AddsIfOk result job (puts_of seat.old) (puts_of seat.new) }
        ensures takes { keeps_accounts → takes_of seat.new ≡ takes_of seat.old };

    /// Takes a job out at the front of the seat's own row. None if it finds none there.
    fn take_front<R: Wait>(&self, rt: &R, seat: &mut Self::Seat) -> Option<J>
        requires ours { rows_of seat.old ≡ identity_of self.now }
        requires owner { number_of seat.old < row_count self.now }
        ensures rows { rows_of seat.new ≡ rows_of seat.old }
        ensures number { number_of seat.new ≡ number_of seat.old }
        ensures puts { keeps_accounts → puts_of seat.new ≡ puts_of seat.old }
        ensures takes { keeps_accounts →
            takes_of seat.new ≡ takes_of seat.old ++ option_to_list result };

    /// Puts a job in at the back of a row, or returns the job.
    fn put_back<R: Wait>(&self, rt: &R, seat: &mut Self::Seat, row: u16, job: J) -> Result<(), J>
        requires ours { rows_of seat.old ≡ identity_of self.now }
        requires row { row < row_count self.now }
        ensures returned { IfErr result (λ back. back ≡ job) }
        ensures rows { rows_of seat.new ≡ rows_of seat.old }
        ensures number { number_of seat.new ≡ number_of seat.old }
        ensures puts { keeps_accounts → AddsIfOk result job (puts_of seat.old) (puts_of seat.new) }
        ensures takes { keeps_accounts → takes_of seat.new ≡ takes_of seat.old };

    /// Takes a job out at the back of a row. None if it finds none there.
    fn take_back<R: Wait>(&self, rt: &R, seat: &mut Self::Seat, row: u16) -> Option<J>
        requires ours { rows_of seat.old ≡ identity_of self.now }
        requires row { row < row_count self.now }
        ensures rows { rows_of seat.new ≡ rows_of seat.old }
        ensures number { number_of seat.new ≡ number_of seat.old }
        ensures puts { keeps_accounts → puts_of seat.new ≡ puts_of seat.old }
        ensures takes { keeps_accounts →
            takes_of seat.new ≡ takes_of seat.old ++ option_to_list result };

    /// Returns how many jobs a row has. Other threads may change this at once. A job that a seat is
    /// about to put or take may be counted too.
    fn row_length<R: Wait>(&self, rt: &R, seat: &mut Self::Seat, row: u16) -> u64
        requires ours { rows_of seat.old ≡ identity_of self.now }
        requires row { row < row_count self.now }
        ensures few { result ≤ most_jobs + seat_count self.now }
        ensures rows { rows_of seat.new ≡ rows_of seat.old }
        ensures number { number_of seat.new ≡ number_of seat.old }
        ensures puts { keeps_accounts → puts_of seat.new ≡ puts_of seat.old }
        ensures takes { keeps_accounts → takes_of seat.new ≡ takes_of seat.old };

    /// Does what `drain_all` does. Each implementation writes this method; callers call
    /// `drain_all`. It may take the seats out of the list.
    fn drain_with(self, seats: &mut Vec<Self::Seat, A>) -> Vec<J, A>
        requires ours { All (λ s. rows_of s ≡ identity_of self) seats.old.items }
        requires all { length seats.old.items ≡ seat_count self }
        ensures account { keeps_accounts →
            AccountsFor puts_of takes_of seats.old.items result.items };

    /// Ends the rows, given all their seats, and returns the jobs that are left, in any order.
    final fn drain_all(self, mut seats: Vec<Self::Seat, A>) -> Vec<J, A>
        requires ours { All (λ s. rows_of s ≡ identity_of self) seats.items }
        requires all { length seats.items ≡ seat_count self }
        ensures account { keeps_accounts → AccountsFor puts_of takes_of seats.items result.items }
    {
        self.drain_with(&mut seats)
    }
}
