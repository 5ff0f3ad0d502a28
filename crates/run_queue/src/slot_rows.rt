//! `SlotRows`: rows of slots in one table, whose owners need no lock at the fronts. The specs
//! `Lengths` and `Positions` say which word is which, and `RowTable` has the table's rule. The
//! modules here and waking_rows rely on these.
ghost use Rattle.std.specs.Prelude.{◌≡◌, ◌*◌, ◌<◌, vec_len};
ghost use Rattle.run_queue.specs.Lengths.{length_word};
ghost use Rattle.run_queue.specs.Limits.{most_jobs};

use crate::slot_rows::contents::{AnyJob, Contents};
use crate::slot_rows::reserve::Reserve;
use crate::slot_rows::rule::{Law, RowsKey};
use crate::slot_rows::view::View;
use atomic_table::Table;
use std::alloc::{Allocator, Global};
use std::sync::Mutex;

mod as_rows;
mod closing;
pub(crate) mod contents;
mod ends;
pub(crate) mod laws;
mod opening;
mod plays;
pub(crate) mod reserve;
pub(crate) mod rule;
pub(crate) mod seat;
mod steps;
pub(crate) mod view;

/// The back position of a row.
#[derive(Drop)]
pub struct Back {
    /// The position of the next pop at the back.
    pub(crate) at: usize,
    ghost within: { at < most_jobs },
}

/// Rows of slots, which keep accounts.
///
/// Word i of the table is the phase of element i, and slot i has its job. A row is a ring of
/// `ROW_JOBS` elements. The words of the lengths lie behind the words of the elements, each on a
/// cache line of its own.
#[derive(Drop)]
pub struct SlotRows<J, A: Allocator = Global, F: Contents<J> = AnyJob> {
    pub(crate) rows: u16,
    pub(crate) table: Table<Option<J>, View<J>, RowsKey<F::Key>, Law<J, F>, A>,
    pub(crate) backs: Vec<Mutex<Back>, A>,
    // Room for the jobs that are left at the end.
    pub(crate) left: Reserve<J, A>,
    ghost words: { length_word table.shared.table_id.slots rows < table.shared.table_id.words },
    ghost slots: { table.shared.table_id.slots ≡ rows * most_jobs },
    ghost each_back: { vec_len backs ≡ rows },
    ghost room: { left ≡ rows * most_jobs },
}
