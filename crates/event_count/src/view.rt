//! The views of the seats at a count's table. No value of these types is ever made: contracts alone
//! name them, by `specs/Cards.antt` and `specs/Gains.antt`. The clause `Agrees` says which parts of
//! a card are the World's.

use event_word::{Event, Phase};
use std::collections::LinkedList;

/// An exchange of the state word.
pub struct Exchange {
    /// The word that it expected.
    pub expected: u64,
    /// The word that it offered in place of the expected word.
    pub offered: u64,
    /// The word that it found.
    pub found: u64,
}

/// What a load of a row's length, or of the stop word, found.
pub struct Finding {
    /// The row, or none for the stop word.
    pub row: Option<u64>,
    /// The word that was found.
    pub word: u64,
}

/// A seat's account with the bank.
pub struct BankBook {
    /// How many credits the seat has put into the bank.
    pub put_in: u64,
    /// How many credits the seat has taken out of the bank.
    pub taken_out: u64,
    /// How often the seat has taken out what was there.
    pub withdrawals: u64,
}

/// What one seat has done, and what it knows of itself.
pub struct Card {
    /// How many seats of the count may wait.
    pub waiters: u64,
    /// How many rows the count has.
    pub rows: u64,
    /// The seat's number.
    pub number: u64,
    /// The seat's phase.
    pub phase: Phase,
    /// The seats that this seat has popped or taken and not unparked, the next one first.
    pub owing: LinkedList<u64>,
    /// Whether the owed seats are linked by their next words, of which the last names nobody. If
    /// not, at most one seat is owed.
    pub linked: bool,
    /// The seat's events, in order.
    pub events: LinkedList<Event>,
    /// The epoch of the seat's next push.
    pub epoch: u64,
    /// How often the seat loaded the state word.
    pub loads: u64,
    /// The state word that the seat last loaded.
    pub looked: u64,
    /// The next word of the looked word's top, if it was loaded.
    pub next: Option<u64>,
    /// The word that the seat last stored in its own next word.
    pub stored: u64,
    /// How many exchanges the seat made.
    pub exchanges: u64,
    /// The seat's last exchange.
    pub exchange: Exchange,
    /// How often the seat swapped its parker word.
    pub polls: u64,
    /// Whether the seat has found no stop since its prewait.
    pub passed_flag: bool,
    /// For each row, whether the seat has found it empty since its prewait.
    pub passed: LinkedList<bool>,
    /// Whether the seat has published or stopped, and not notified since.
    pub announcing: bool,
    /// How many more jobs the seat may publish.
    pub credits: u64,
    /// The seat's account with the bank.
    pub book: BankBook,
    /// What the seat found when it last looked at a row's length or at the stop word.
    pub found: Finding,
}

/// What a view has. A seat in use has its own card alone.
pub struct View {
    /// The cards of the seats for which the view stands.
    pub cards: LinkedList<Card>,
    /// The rows of the view's tickets.
    pub tickets: LinkedList<u64>,
    /// The credits that are on no card.
    pub credits: u64,
}
