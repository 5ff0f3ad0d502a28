//! The stop word of a pool, which says whether the pool is open, closing or cancelled, and the
//! seats at its table.
ghost use Rattle.std.specs.Prelude.{◌≡◌, ◌≢◌, ◌↔◌, IfOk, IsTrue};
ghost use Rattle.worker_pool.specs.Stops.{IsStopSeatOf, IsStopTable, stored_of, found_of};
ghost use Rattle.worker_pool.specs.Stops.{open_word, cancelled_word, closing_word};

use crate::queues::job_queue::stop_view::StopView;
use crate::queues::queue::{CANCELLED, OPEN, closing};
use atomic_table::{Play, Seat, Shared, Table, TableRule};
use std::alloc::{AllocError, Allocator};

/// The number of words in the table: two cache lines.
const WORDS: usize = 16;

/// The place of the stop word in the table. Its cache line lies inside the table's block, wherever
/// the block begins, so no other memory shares the line.
const STOP: usize = 8;

/// The rule of the table, which allows every value of the stop word.
pub struct StopRule;

impl TableRule<(), StopView, ()> for StopRule {
    ghost use Rattle.worker_pool.specs.StopPlays.{unused};

    ghost holds = { λ _ _. Unit {0} };

    ghost first = { λ _. unused };
}

/// The step that loads the stop word.
struct Looks;

impl Play<(), StopView> for Looks {
    ghost use Rattle.worker_pool.specs.StopPlays.{looks};

    ghost then = { looks };
}

/// The step that stores the stop word.
struct Stores;

impl Play<(), StopView> for Stores {
    ghost use Rattle.worker_pool.specs.StopPlays.{stores};

    ghost then = { stores };
}

/// The table of a pool's stop word.
pub type StopTable<A> = Table<(), StopView, (), StopRule, A>;

/// A stop word, which says whether a pool is open, closing or cancelled.
pub type StopWord = Shared<(), StopView, (), StopRule>;

/// A seat at a stop word.
pub type StopSeat = Seat<(), StopView>;

/// Returns the table of the stop word of a pool that is open.
pub fn open<A: Allocator + Clone>(alloc: &A) -> Result<StopTable<A>, AllocError>
    ensures { IfOk result (λ table. IsStopTable table.shared) }
{
    let (table, _first) = Table::of_words(alloc.clone()?, &[OPEN; WORDS], &())?;
    Ok(table)
}

/// Makes a seat at the stop word.
pub fn new_seat(stop: &StopWord) -> StopSeat
    requires { IsStopTable stop.now }
    ensures of { IsStopSeatOf stop.now result }
    ensures stored_none { stored_of result ≡ open_word }
{
    let (_found, seat) = stop.load_new_seat::<Looks>(STOP);
    seat
}

/// Loads the word, and returns whether the pool is closing or cancelled.
pub fn is_set(stop: &StopWord, seat: &mut StopSeat) -> bool
    requires { IsStopSeatOf stop.now seat.old }
    ensures of { IsStopSeatOf stop.now seat.new }
    ensures stored { stored_of seat.new ≡ stored_of seat.old }
    ensures set { IsTrue result ↔ (found_of seat.new ≢ open_word) }
{
    stop.load::<Looks>(seat, STOP) != OPEN
}

/// Loads the word, and returns whether the pool was cancelled.
pub fn is_cancelled(stop: &StopWord, seat: &mut StopSeat) -> bool
    requires { IsStopSeatOf stop.now seat.old }
    ensures of { IsStopSeatOf stop.now seat.new }
    ensures stored { stored_of seat.new ≡ stored_of seat.old }
    ensures cancelled { IsTrue result ↔ (found_of seat.new ≡ cancelled_word) }
{
    stop.load::<Looks>(seat, STOP) == CANCELLED
}

/// Stores that the pool is closing, or that it was cancelled if `cancelled` is true.
pub fn set(stop: &StopWord, seat: &mut StopSeat, cancelled: bool)
    requires { IsStopSeatOf stop.now seat.old }
    ensures of { IsStopSeatOf stop.now seat.new }
    ensures stored { stored_of seat.new ≡ closing_word cancelled }
{
    stop.store::<Stores>(seat, STOP, closing(cancelled));
}
