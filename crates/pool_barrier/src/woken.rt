//! A token of a wake. Only this file makes a `Woken`, and it wakes the waiter first.
ghost use Rattle.std.specs.Prelude.{◌≡◌};
ghost use Rattle.pool_barrier.specs.declared.rule.TheConstants.{WORDS};

use crate::rule::{Law, STATE};
use crate::view::View;
use atomic_table::{Seat, Shared};
use std::snapshot::Snapshot;

/// Shows that the waiter was woken: the seat that woke it, as it was then. It takes no memory:
/// contracts alone see it.
#[derive(Drop)]
pub struct Woken {
    seat: Snapshot<Seat<(), View>>,
}

impl Woken {
    /// Wakes the waiter if it sleeps.
    pub(crate) fn waiter(word: &Shared<(), View, u64, Law>, seat: &Seat<(), View>) -> Woken
        requires { word.now.table_id.words ≡ WORDS }
        ensures { result.seat.value ≡ seat.now }
    {
        word.wake_one(STATE);
        Woken {
            seat: Snapshot::of(seat),
        }
    }
}
