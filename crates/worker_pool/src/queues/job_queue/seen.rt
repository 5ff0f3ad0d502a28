//! What a worker has found since it entered the wait point. `specs/Seen` has the same states, and
//! the clauses on sleeping and ending rest on them.
ghost use Rattle.std.specs.Prelude.{◌≡◌, ◌<◌, ◌==◌};
ghost use Rattle.worker_pool.specs.Seen.{none_seen, has_passed, after_look};

use run_queue::{MOST_ROWS, Rows};
use std::alloc::Allocator;
use std::sync::Wait;

/// The most rows that a pool can have.
pub(super) const ROWS: usize = MOST_ROWS as usize;

/// Which rows a worker has found empty since it entered and last loaded the stop word, and what it
/// found in the stop word.
#[derive(Drop)]
pub(crate) struct Seen {
    /// Whether the last look at each row found no job, by row.
    pub(super) rows: [bool; ROWS],
    /// Whether the last look at the stop word found the pool open.
    pub(super) flag: bool,
    /// Whether the last look at the stop word found the pool closing or cancelled.
    pub(super) stopped: bool,
}

impl Seen {
    /// Returns the state of a worker that has looked at nothing.
    pub(crate) fn nothing() -> Self
        ensures { result ≡ none_seen }
    {
        Seen {
            rows: [false; ROWS],
            flag: false,
            stopped: false,
        }
    }

    /// Loads the length of a row, records whether it is 0, and returns it.
    pub(crate) fn look<RT: Wait, J, A: Allocator, R: Rows<J, A>>(
        &mut self,
        rt: &RT,
        rows: &R,
        seat: &mut R::Seat,
        row: u16,
    ) -> u64
        requires ours { R.rows_of seat.old ≡ R.identity_of rows.now }
        requires row { row < R.row_count rows.now }
        requires few { row < ROWS }
        ensures seen { self.new ≡ after_look self.old row result }
        ensures passed { has_passed self.new row ≡ (result == 0) }
        ensures rows { R.rows_of seat.new ≡ R.rows_of seat.old }
        ensures number { R.number_of seat.new ≡ R.number_of seat.old }
        ensures puts { R.keeps_accounts → R.puts_of seat.new ≡ R.puts_of seat.old }
        ensures takes { R.keeps_accounts → R.takes_of seat.new ≡ R.takes_of seat.old }
    {
        let length = rows.row_length(rt, seat, row);
        self.rows[row as usize] = length == 0;
        length
    }
}
