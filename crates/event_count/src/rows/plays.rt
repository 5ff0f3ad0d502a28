//! The plays of the steps on rows, the stop word and the bank, and how tickets and credits are
//! split off and joined. `specs/Rows/Plays.antt` defines them.
use crate::view::View;
use atomic_table::{Join, Play, Split};

/// The play of a publish: the row has one job more, and the seat has its ticket.
pub struct Publishes;

impl Play<(), View> for Publishes {
    ghost use Rattle.event_count.specs.Rows.Plays.{publishes};

    ghost then = { publishes };
}

/// The play of a take: the row has one job less, and the seat has no ticket.
pub struct Redeems;

impl Play<(), View> for Redeems {
    ghost use Rattle.event_count.specs.Rows.Plays.{redeems};

    ghost then = { redeems };
}

/// The play of a load of a row's length, which passes the row if it has no jobs.
pub struct Passes;

impl Play<(), View> for Passes {
    ghost use Rattle.event_count.specs.Rows.Plays.{passes};

    ghost then = { passes };
}

/// The play of a load of the stop word, which passes the flag if nobody has stopped.
pub struct PassesFlag;

impl Play<(), View> for PassesFlag {
    ghost use Rattle.event_count.specs.Rows.Plays.{passes_flag};

    ghost then = { passes_flag };
}

/// The play of a stop, which stops the count if nobody had.
pub struct Stops;

impl Play<(), View> for Stops {
    ghost use Rattle.event_count.specs.Rows.Plays.{stops};

    ghost then = { stops };
}

/// The play of a load of a row's length that passes nothing.
pub struct Measures;

impl Play<(), View> for Measures {
    ghost use Rattle.event_count.specs.Rows.Plays.{measures};

    ghost then = { measures };
}

/// The play of a load that changes nothing, but says that the seat's credits are within their
/// limit.
pub struct Weighs;

impl Play<(), View> for Weighs {
    ghost use Rattle.event_count.specs.Rows.Plays.{weighs};

    ghost then = { weighs };
}

/// The play of putting credits of the seat into the bank.
pub struct Deposits;

impl Play<(), View> for Deposits {
    ghost use Rattle.event_count.specs.Rows.Plays.{deposits};

    ghost then = { deposits };
}

/// The play of taking all credits out of the bank.
pub struct Withdraws;

impl Play<(), View> for Withdraws {
    ghost use Rattle.event_count.specs.Rows.Plays.{withdraws};

    ghost then = { withdraws };
}

/// Splits a ticket off a seat.
pub struct CutsTicket;

impl Split<View> for CutsTicket {
    ghost use Rattle.event_count.specs.Rows.Plays.{after_cut, cut};

    ghost left = { after_cut };

    ghost right = { cut };
}

/// Splits a credit off a seat.
pub struct CutsCredit;

impl Split<View> for CutsCredit {
    ghost use Rattle.event_count.specs.Tickets.{credit};
    ghost use Rattle.event_count.specs.Rows.Plays.{after_lend};

    ghost left = { after_lend };

    ghost right = { λ _. credit };
}

/// Joins a ticket to a seat.
pub struct TakesTicket;

impl Join<View> for TakesTicket {
    ghost use Rattle.event_count.specs.Cards.{spent};
    ghost use Rattle.event_count.specs.Rows.Plays.{with_tickets};

    ghost both = { with_tickets };

    ghost spent = { spent };
}

/// Joins a credit to a seat.
pub struct TakesCredit;

impl Join<View> for TakesCredit {
    ghost use Rattle.event_count.specs.Cards.{spent};
    ghost use Rattle.event_count.specs.Rows.Plays.{with_credit};

    ghost both = { with_credit };

    ghost spent = { spent };
}
