//! `Queue`: the calls that the threads of a pool make at their rows and their wait point. A pool
//! takes no other step there, so an implementor decides which steps a turn takes, and in which
//! order.
ghost use Rattle.std.specs.Prelude.{◌≡◌, ℕ, ◌+◌, ◌<◌, List, [], ◌++◌, length, map, All};
ghost use Rattle.std.specs.Prelude.{IfOk, IfErr, IsTrue, option_to_list, Result, Option};
ghost use Rattle.std.specs.List.{range_with_len};
ghost use Rattle.run_queue.specs.Account.{AddsIfOk, AccountsFor};
ghost use Rattle.steal_walk.specs.Walk.{VisitsEachOnce};
ghost use Rattle.waking_rows.specs.declared.row_point.Rested.{Rested};
ghost use Rattle.waking_rows.specs.Points.{NamesRow};
ghost use Rattle.worker_pool.specs.Turns.{IfEnded};
ghost use Rattle.worker_pool.specs.Setup.{IsPoolSize};
ghost use Rattle.worker_pool.specs.Stops.{open_word, closing_word};

use std::alloc::{AllocError, Allocator};
use std::sync::Wait;
use steal_walk::Walk;
use waking_rows::Rested;

/// The stop word of a pool that is open.
pub(crate) const OPEN: u64 = 0;

/// The stop word of a pool that is closing.
const CLOSING: u64 = 1;

/// The stop word of a pool that was cancelled, and stays so while it closes.
pub(crate) const CANCELLED: u64 = 2;

/// Returns the stop word of a pool that closes.
pub(crate) fn closing(cancelled: bool) -> u64
    ensures { result ≡ closing_word cancelled }
{
    if cancelled { CANCELLED } else { CLOSING }
}

/// A new queue, what its threads share beside it, and the parts of their seats, by number.
#[derive(Drop)]
pub struct NewQueue<Q, P, S: Drop, T: Drop, A: Allocator> {
    /// The queue.
    pub queue: Q,
    /// What says that the pool is closing or cancelled.
    pub stop: P,
    /// The seats at the rows. The last is the opener's.
    pub rows: Vec<S, A>,
    /// The seats at the wait point. The last is the opener's.
    pub wakers: Vec<T, A>,
}

/// The rows of a pool and its wait point. Each worker has a row, and the thread that opened the
/// pool has none. A put wakes a waiting worker, and a worker that finds no job rests until there
/// may be one.
pub trait Queue<J, A: Allocator>: Sized + Drop {
    /// A thread's seat at the rows.
    type Row: Drop;

    /// A thread's seat at the wait point.
    type Waker: Drop;

    /// A thread's seats, and what it has found and done there.
    type Seat: Drop;

    /// What says that the pool is closing or cancelled.
    type Stop: Drop;

    // How many workers there are, each with a row.
    ghost worker_count: { Self → ℕ };

    // The stop belongs to the queue, and so do seats between two calls.
    ghost has_stop: { Self → Self.Stop → Type 0 };

    ghost is_row: { Self → Self.Row → Type 0 };

    ghost is_waker: { Self → Self.Waker → Type 0 };

    ghost is_ready: { Self → Self.Seat → Type 0 };

    // The numbers of seats, from 0 on.
    ghost row_number: { Self.Row → ℕ };

    ghost waker_number: { Self.Waker → ℕ };

    // A seat's seat at the rows, and what was last stored in the stop word through the seat.
    ghost row_of: { Self.Seat → Self.Row };

    ghost stored_of: { Self.Seat → ℕ };

    // The worker of this seat may end: it found the pool cancelled, or it found the pool closing
    // and since then each row empty.
    ghost may_end: { Self → Self.Seat → Type 0 };

    // What a put, a take, a rest and a stop did to the seat.
    ghost has_put: { Result (Unit {0}) J → Self.Seat → Self.Seat → Type 0 };

    ghost has_taken: { Option J → Self.Seat → Self.Seat → Type 0 };

    ghost has_rested: { Self → Rested → Self.Seat → Self.Seat → Type 0 };

    ghost has_stopped: { Self.Seat → Self.Seat → Type 0 };

    // Whether accounts are kept; if so, which jobs were put in and taken out through a seat.
    ghost keeps_accounts: { Type 0 };

    ghost puts_of: { Self.Row → List J };

    ghost takes_of: { Self.Row → List J };

    /// Opens a queue for the given number of workers. The rows and the point have a seat for each
    /// worker, and one more for the thread that opens the pool.
    fn open(
        alloc: &A,
        workers: u16,
    ) -> Result<NewQueue<Self, Self::Stop, Self::Row, Self::Waker, A>, AllocError>
        requires { IsPoolSize workers }
        ensures workers { IfOk result (λ made. worker_count made.queue ≡ workers) }
        ensures stop { IfOk result (λ made. has_stop made.queue made.stop) }
        ensures rows { IfOk result (λ made. All (is_row made.queue) made.rows.items) }
        ensures wakers { IfOk result (λ made. All (is_waker made.queue) made.wakers.items) }
        ensures row_numbers { IfOk result (λ made.
            map row_number made.rows.items ≡ range_with_len 0 (workers + 1)) }
        ensures waker_numbers { IfOk result (λ made.
            map waker_number made.wakers.items ≡ range_with_len 0 (workers + 1)) }
        ensures unused { keeps_accounts → IfOk result (λ made.
            All (λ row. (puts_of row ≡ []) × (takes_of row ≡ [])) made.rows.items) };

    /// Returns how many workers there are.
    fn workers(&self) -> u16
        ensures { result ≡ worker_count self.now };

    /// Returns the seat of the thread that has these parts.
    fn seat(&self, stop: &Self::Stop, row: Self::Row, waker: Self::Waker) -> Self::Seat
        requires stop { has_stop self.now stop.now }
        requires row { is_row self.now row }
        requires waker { is_waker self.now waker }
        requires one_number { waker_number waker ≡ row_number row }
        ensures ready { is_ready self.now result }
        ensures row { row_of result ≡ row }
        ensures stored_none { stored_of result ≡ open_word };

    /// Puts a job in at the front of the seat's own row, and wakes a waiting worker. Returns the
    /// job if the row is full.
    fn put_front<RT: Wait>(&self, rt: &RT, seat: &mut Self::Seat, job: J) -> Result<(), J>
        requires ready { is_ready self.now seat.old }
        requires owner { row_number (row_of seat.old) < worker_count self.now }
        ensures ready { is_ready self.now seat.new }
        ensures returned { IfErr result (λ back. back ≡ job) }
        ensures number { row_number (row_of seat.new) ≡ row_number (row_of seat.old) }
        ensures stored { stored_of seat.new ≡ stored_of seat.old }
        ensures puts { keeps_accounts
            → AddsIfOk result job (puts_of (row_of seat.old)) (puts_of (row_of seat.new)) }
        ensures takes { keeps_accounts → takes_of (row_of seat.new) ≡ takes_of (row_of seat.old) }
        ensures put { has_put result seat.old seat.new };

    /// Puts a job in at the back of a row, and wakes a waiting worker. Returns the job if the row
    /// is full.
    fn put_back<RT: Wait>(&self, rt: &RT, seat: &mut Self::Seat, row: u16, job: J) -> Result<(), J>
        requires ready { is_ready self.now seat.old }
        requires row { row < worker_count self.now }
        ensures ready { is_ready self.now seat.new }
        ensures returned { IfErr result (λ back. back ≡ job) }
        ensures number { row_number (row_of seat.new) ≡ row_number (row_of seat.old) }
        ensures stored { stored_of seat.new ≡ stored_of seat.old }
        ensures puts { keeps_accounts
            → AddsIfOk result job (puts_of (row_of seat.old)) (puts_of (row_of seat.new)) }
        ensures takes { keeps_accounts → takes_of (row_of seat.new) ≡ takes_of (row_of seat.old) }
        ensures put { has_put result seat.old seat.new };

    /// Takes the job at the front of the seat's own row, if there is one.
    fn take_front<RT: Wait>(&self, rt: &RT, seat: &mut Self::Seat) -> Option<J>
        requires ready { is_ready self.now seat.old }
        requires owner { row_number (row_of seat.old) < worker_count self.now }
        ensures ready { is_ready self.now seat.new }
        ensures number { row_number (row_of seat.new) ≡ row_number (row_of seat.old) }
        ensures stored { stored_of seat.new ≡ stored_of seat.old }
        ensures puts { keeps_accounts → puts_of (row_of seat.new) ≡ puts_of (row_of seat.old) }
        ensures takes { keeps_accounts → takes_of (row_of seat.new)
            ≡ takes_of (row_of seat.old) ++ option_to_list result }
        ensures taken { has_taken result seat.old seat.new };

    /// Takes the job at the back of a row, if there is one.
    fn take_back<RT: Wait>(&self, rt: &RT, seat: &mut Self::Seat, row: u16) -> Option<J>
        requires ready { is_ready self.now seat.old }
        requires row { row < worker_count self.now }
        ensures ready { is_ready self.now seat.new }
        ensures number { row_number (row_of seat.new) ≡ row_number (row_of seat.old) }
        ensures stored { stored_of seat.new ≡ stored_of seat.old }
        ensures puts { keeps_accounts → puts_of (row_of seat.new) ≡ puts_of (row_of seat.old) }
        ensures takes { keeps_accounts → takes_of (row_of seat.new)
            ≡ takes_of (row_of seat.old) ++ option_to_list result }
        ensures taken { has_taken result seat.old seat.new };

    /// Returns whether the pool was cancelled.
    fn is_cancelled(&self, stop: &Self::Stop, seat: &mut Self::Seat) -> bool
        requires ready { is_ready self.now seat.old }
        requires stop { has_stop self.now stop.now }
        ensures ready { is_ready self.now seat.new }
        ensures row { row_of seat.new ≡ row_of seat.old }
        ensures stored { stored_of seat.new ≡ stored_of seat.old }
        ensures may_end { IsTrue result → may_end self.now seat.new };

    /// Rests until there may be a job: looks at the stop word and at all rows, and sleeps if the
    /// pool is open and all rows are empty. An implementor may look at the rows in the order of the
    /// walk.
    fn rest<RT: Wait>(
        &self,
        rt: &RT,
        stop: &Self::Stop,
        seat: &mut Self::Seat,
        walk: Walk,
    ) -> Rested
        requires ready { is_ready self.now seat.old }
        requires owner { row_number (row_of seat.old) < worker_count self.now }
        requires stop { has_stop self.now stop.now }
        requires stored_none { stored_of seat.old ≡ open_word }
        requires walk { VisitsEachOnce 0 (worker_count self.now) walk }
        ensures ready { is_ready self.now seat.new }
        ensures number { row_number (row_of seat.new) ≡ row_number (row_of seat.old) }
        ensures stored { stored_of seat.new ≡ stored_of seat.old }
        ensures puts { keeps_accounts → puts_of (row_of seat.new) ≡ puts_of (row_of seat.old) }
        ensures takes { keeps_accounts → takes_of (row_of seat.new) ≡ takes_of (row_of seat.old) }
        ensures rested { has_rested self.now result seat.old seat.new }
        ensures inside { NamesRow (worker_count self.now) result }
        ensures may_end { IfEnded result (may_end self.now seat.new) };

    /// Stores that the pool is closing, or that it was cancelled, and then wakes all workers.
    fn stop_all<RT: Wait>(&self, rt: &RT, stop: &Self::Stop, seat: &mut Self::Seat, cancelled: bool)
        requires ready { is_ready self.now seat.old }
        requires stop { has_stop self.now stop.now }
        ensures ready { is_ready self.now seat.new }
        ensures row { row_of seat.new ≡ row_of seat.old }
        ensures stored { stored_of seat.new ≡ closing_word cancelled }
        ensures stopped { has_stopped seat.old seat.new };

    /// Takes a seat apart.
    fn parts(&self, seat: Self::Seat) -> (Self::Row, Self::Waker)
        requires { is_ready self.now seat }
        ensures row { is_row self.now result.0 }
        ensures waker { is_waker self.now result.1 }
        ensures same { result.0 ≡ row_of seat };

    /// Ends the rows and the point, given all seats there, and returns the jobs that are left.
    fn end(
        self,
        stop: Self::Stop,
        rows: &mut Vec<Self::Row, A>,
        wakers: &mut Vec<Self::Waker, A>,
    ) -> Vec<J, A>
        requires stop { has_stop self stop }
        requires rows { All (is_row self) rows.old.items }
        requires wakers { All (is_waker self) wakers.old.items }
        requires all_rows { length rows.old.items ≡ worker_count self + 1 }
        requires all_wakers { length wakers.old.items ≡ worker_count self + 1 }
        ensures account { keeps_accounts
            → AccountsFor puts_of takes_of rows.old.items result.items };
}
