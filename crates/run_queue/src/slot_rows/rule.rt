//! The rule of a table of rows, and how its views are split and joined. The definitions are in
//! `specs/RowTable.antt` and `specs/Views.antt`. Every step and every law of the crate rests on
//! this rule.
ghost use Rattle.std.specs.Prelude.{Option};

use crate::slot_rows::contents::{AnyJob, Contents};
use crate::slot_rows::view::View;
use atomic_table::{Join, Split, TableRule};
use std::marker::PhantomData;

/// The word of an element that has no job.
pub const EMPTY: u64 = 0;

/// The word of an element on which one seat works. That seat has the slot.
pub const BUSY: u64 = 1;

/// The word of an element that has a job.
pub const READY: u64 = 2;

/// How many words a cache line has. Each length has a line of its own.
pub const LINE_WORDS: usize = 8;

/// The key of a table of rows. Its rule names it.
#[derive(Drop)]
pub struct RowsKey<K> {
    /// How many seats were made with the rows.
    pub seats: u32,
    /// The key of the rows' contents.
    pub of: K,
}

/// The rule of a table of rows: every state keeps the account of the rows, and each job in a row
/// fits that row.
pub struct Law<J, F = AnyJob> {
    of: PhantomData<(J, F)>,
}

impl<J, F: Contents<J>> TableRule<Option<J>, View<J>, RowsKey<F::Key>> for Law<J, F> {
    ghost use Rattle.run_queue.specs.RowTable.{KeepsAccount};
    ghost use Rattle.run_queue.specs.Views.{fresh};

    ghost holds = { λ key s. KeepsAccount (F.fits key.of) F.counted key.seats s };

    ghost first = { λ key. fresh key.seats };
}

/// Splits one seat's account off a view.
pub struct Deals<J> {
    of: PhantomData<J>,
}

impl<J> Split<View<J>> for Deals<J> {
    ghost use Rattle.run_queue.specs.Views.{after_deal, fresh};

    ghost left = { after_deal };

    ghost right = { λ _. fresh 1 };
}

/// Joins the accounts of two views.
pub struct TakesIn<J> {
    of: PhantomData<J>,
}

impl<J> Join<View<J>> for TakesIn<J> {
    ghost use Rattle.run_queue.specs.Views.{together, nothing};

    ghost both = { together };

    ghost spent = { nothing };
}
