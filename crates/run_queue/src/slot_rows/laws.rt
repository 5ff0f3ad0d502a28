//! Laws of a table of rows: what holds between any two steps, whatever threads take them. Each
//! function does nothing, and its contract is the law. `specs/Laws.antt` states them, and callers
//! in waking_rows use them.
ghost use Rattle.std.specs.Prelude.{◌≡◌, Option, true};
ghost use Rattle.run_queue.specs.Laws.{PutsAreTakesAndReady, BusyElementsAreNamed};
ghost use Rattle.run_queue.specs.Laws.{NamedElementsAreBusy, LengthsCoverReady, LengthsAreBounded};
ghost use Rattle.run_queue.specs.Laws.{ReadyJobsFit};

use crate::slot_rows::contents::Contents;
use crate::slot_rows::rule::{Law, RowsKey};
use crate::slot_rows::view::View;
use atomic_table::TableRule;

/// What was put is, as a bag, what was taken and what is ready.
pub fn puts_are_takes_and_ready<J, F: Contents<J>>()
    ensures { PutsAreTakesAndReady
        ⟦<Law<J, F> as TableRule<Option<J>, View<J>, RowsKey<F::Key>>>⟧.holds }
{}

/// Each busy element is named in the view of exactly one seat: the seat that works on it.
pub fn busy_elements_are_named<J, F: Contents<J>>()
    ensures { BusyElementsAreNamed
        ⟦<Law<J, F> as TableRule<Option<J>, View<J>, RowsKey<F::Key>>>⟧.holds }
{}

/// No view names an element that is empty or ready.
pub fn named_elements_are_busy<J, F: Contents<J>>()
    ensures { NamedElementsAreBusy
        ⟦<Law<J, F> as TableRule<Option<J>, View<J>, RowsKey<F::Key>>>⟧.holds }
{}

/// If the rows have length words, the length of a row is at least the number of its ready elements.
pub fn lengths_cover_ready<J, F: Contents<J>>()
    requires { F.counted ≡ true }
    ensures { LengthsCoverReady
        ⟦<Law<J, F> as TableRule<Option<J>, View<J>, RowsKey<F::Key>>>⟧.holds }
{}

/// If the rows have length words, the length of a row is at most 1,024 plus the number of seats.
pub fn lengths_are_bounded<J, F: Contents<J>>()
    requires { F.counted ≡ true }
    ensures { LengthsAreBounded
        ⟦<Law<J, F> as TableRule<Option<J>, View<J>, RowsKey<F::Key>>>⟧.holds }
{}

/// Each job in a row fits that row.
pub fn ready_jobs_fit<J, F: Contents<J>>()
    ensures { ReadyJobsFit (λ key. F.fits key.of)
        ⟦<Law<J, F> as TableRule<Option<J>, View<J>, RowsKey<F::Key>>>⟧.holds }
{}
