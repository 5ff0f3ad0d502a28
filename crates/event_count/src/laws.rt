//! Laws of a count's table: what holds between any two steps, whatever threads take them. Each
//! function does nothing, and its contract is the law. The specs `Laws`, `Steps` and `Rows.Laws`
//! state them, and waking_rows uses them.
ghost use Rattle.event_count.specs.Laws.{ShowsLawfulWorld, SignalsAreAnswered, PreSeatsWait};
ghost use Rattle.event_count.specs.Laws.{SeatsStandOnce, ExchangesFoundNoSignal};
ghost use Rattle.event_count.specs.Laws.{CommitsFoundNoSignal, TakenStacksAreOwed, CountsFollow};
ghost use Rattle.event_count.specs.Steps.{StepsAddTheirEvents};
ghost use Rattle.event_count.specs.Rows.Steps.{RowStepsAddTheirEvents};
ghost use Rattle.event_count.specs.Rows.Laws.{RowsStayAwake, StopWakesAll, LengthsAreTickets};
ghost use Rattle.event_count.specs.Rows.Laws.{NotifiedStopsShow, TicketsShowJobs};

use crate::rule::{Law, RowSizes};
use crate::view::View;
use atomic_table::TableRule;

/// The table shows a lawful World to which one history leads, and each seat's list of events is its
/// part of that history. The other laws of this file hold for this World and this history, too.
pub fn table_shows_a_lawful_world()
    ensures { ShowsLawfulWorld ⟦<Law as TableRule<(), View, RowSizes>>⟧.holds }
{}

/// Each step of a seat appends its events, or none, to the history that the table showed before the
/// step, and to the seat's own list.
pub fn steps_add_their_events()
    ensures { StepsAddTheirEvents }
{}

/// The state word has no more signals than pre-waiters.
pub fn signals_are_answered()
    ensures { SignalsAreAnswered ⟦<Law as TableRule<(), View, RowSizes>>⟧.holds }
{}

/// The pre-waiters are the seats whose phase says so, each once.
pub fn pre_seats_wait()
    ensures { PreSeatsWait }
{}

/// Each seat stands on the stack at most once.
pub fn seats_stand_once()
    ensures { SeatsStandOnce }
{}

/// An exchange that pushed a seat found no signal, and neither did its commit in the history.
pub fn pushes_found_no_signal()
    ensures exchange { ExchangesFoundNoSignal }
    ensures history { CommitsFoundNoSignal }
{}

/// A seat that took the stack owes all of it, top first, until its next event.
pub fn taken_stacks_are_owed()
    ensures { TakenStacksAreOwed }
{}

/// In the history, each waiter's pushes, pops, unparks and wakes follow one another.
pub fn counts_follow()
    ensures { CountsFollow }
{}

/// Each step of a seat on a row or on the stop word appends its events, or none, to the history and
/// to the seat's own list. A step on the bank appends none.
pub fn row_steps_add_their_events()
    ensures { RowStepsAddTheirEvents }
{}

/// While nobody has stopped the count, each row with jobs has support by a present seat: it is to
/// notify, runs, is about to look at the row, or is being woken. The set of present seats may be
/// any set that has a waiter, if the seats outside it have done nothing.
pub fn rows_stay_awake()
    ensures { RowsStayAwake }
{}

/// Once all were notified of a stop, the stack is empty. A sleeper is owed its token or has it, and
/// has it once no seat owes a token. All were notified of a stop if the history has a notification
/// of all after it.
pub fn stop_wakes_all()
    ensures wakes { StopWakesAll }
    ensures notified { NotifiedStopsShow }
{}

/// The length word of a row is the number of its tickets. So a caller that has a ticket knows that
/// its row's length is above 0.
pub fn lengths_are_tickets()
    ensures words { LengthsAreTickets ⟦<Law as TableRule<(), View, RowSizes>>⟧.holds }
    ensures tickets { TicketsShowJobs ⟦<Law as TableRule<(), View, RowSizes>>⟧.holds }
{}
