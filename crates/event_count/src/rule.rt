//! The rule of a count's table, the places of its words, and how its views are split and joined.
//! `specs/Shown.antt` has the rule, and `specs/Places.antt` the places. Every step and law of the
//! crate rests on them, and so do the tables of waking_rows.
ghost use Rattle.std.specs.Prelude.{◌≡◌, ◌+◌, ◌≤◌};
ghost use Rattle.event_count.specs.Places.{next_place, parker_place, row_place};

use crate::view::View;
use atomic_table::{Join, Split, TableRule};

/// The most waiters of one count: 2^14 less two. The number 16,383 stands for the top of an empty
/// stack.
pub const MOST_WAITERS: u16 = 16_382;

/// The most credits of all seats together. So no row has more jobs.
pub const MOST_CREDITS: u64 = 1_048_576;

/// The limit of a seat's epochs. The pushes of a seat use its epochs from its first one on, each
/// once.
pub const EPOCHS: u32 = 4_194_304;

/// How many words a line has. If the block begins at an even word, no cache line of 64 bytes has
/// used words of two lines.
pub const LINE: usize = 8;

/// The place of the stop word. It shares its line only with the bank.
pub const STOP: usize = 0;

/// The place of the bank: the number of credits in it. It lies beside the stop word.
pub const BANK: usize = 1;

/// The place of the state word, which has a line of its own.
pub const STATE: usize = LINE;

/// Returns the place of a waiter's next word, the first word of its line.
pub(crate) fn next_word_of(seat: u32) -> usize
    ensures { result ≡ next_place seat }
{
    LINE * (2 + seat as usize)
}

/// Returns the place of a waiter's parker word, beside its next word.
pub(crate) fn parker_word_of(seat: u32) -> usize
    ensures { result ≡ parker_place seat }
{
    next_word_of(seat) + 1
}

/// Returns the place of a row's length word. The lines of rows lie behind the lines of waiters, and
/// row 0 has the last line. In its line the length has a place that no waiter's line uses, so its
/// place alone tells it from a waiter's word.
pub(crate) fn row_word_of(lines: usize, row: u16) -> usize
    requires few { lines ≤ 131070 }
    requires row { row ≤ lines }
    ensures { result ≡ row_place lines row }
{
    LINE * (1 + lines - usize::from(row)) + 2
}

/// How many seats a count has, and the first epoch of each.
#[derive(Clone, Copy, Debug, PartialEq, Eq)]
pub struct Sizes {
    /// How many seats may wait.
    pub waiters: u16,
    /// How many more seats may only notify.
    pub notifiers: u16,
    /// The epoch of each seat's first push.
    pub first: u32,
}

/// The sizes of a count with rows.
#[derive(Clone, Copy, Debug, PartialEq, Eq)]
pub struct RowSizes {
    /// How many seats may wait.
    pub waiters: u16,
    /// How many more seats may only notify.
    pub notifiers: u16,
    /// The epoch of each seat's first push.
    pub first: u32,
    /// How many rows there are.
    pub rows: u16,
    /// The credits with which each seat begins.
    pub credits: u32,
}

/// The rule of a count's table: every state shows a World to which one history leads.
pub struct Law;

impl TableRule<(), View, RowSizes> for Law {
    ghost use Rattle.event_count.specs.Shown.{ShowsWorld};
    ghost use Rattle.event_count.specs.Cards.{undealt};

    ghost holds = { ShowsWorld };

    ghost first = { undealt };
}

/// Splits the first card off a view, for a seat of its own.
pub struct Deals;

impl Split<View> for Deals {
    ghost use Rattle.event_count.specs.Cards.{after_deal, dealt};

    ghost left = { after_deal };

    ghost right = { dealt };
}

/// Joins the cards of two views.
pub struct TakesIn;

impl Join<View> for TakesIn {
    ghost use Rattle.event_count.specs.Cards.{together, spent};

    ghost both = { together };

    ghost spent = { spent };
}
