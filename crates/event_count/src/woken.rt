//! What a seat had done when it woke a thread. Only this file makes a `Woken`, and it wakes the
//! thread first.
ghost use Rattle.std.specs.Prelude.{◌≡◌, ◌<◌};

use crate::rule::{Law, RowSizes};
use crate::view::View;
use atomic_table::{Seat, Shared};
use std::snapshot::Snapshot;

/// The word on which a thread was woken, and the seat that woke it, as it was then. It takes no
/// memory: contracts alone see it.
#[derive(Drop)]
pub(crate) struct Woken {
    place: Snapshot<usize>,
    seat: Snapshot<Seat<(), View>>,
}

impl Woken {
    /// Wakes the thread that sleeps on this word, if there is one.
    pub(crate) fn at(
        shared: &Shared<(), View, RowSizes, Law>,
        place: usize,
        seat: &Seat<(), View>,
    ) -> Woken
        requires { place < shared.now.table_id.words }
        ensures place { result.place.value ≡ place }
        ensures seat { result.seat.value ≡ seat.now }
    {
        shared.wake_one(place);
        Woken {
            place: Snapshot::of(&place),
            seat: Snapshot::of(seat),
        }
    }
}
