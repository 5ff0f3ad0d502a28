//! What an opener has told its workers. `specs/Seats` (`IsReady`) relates it to the stop word.
ghost use Rattle.std.specs.Prelude.{◌≡◌};
ghost use Rattle.worker_pool.specs.Stops.{stored_of, open_word};
ghost use Rattle.worker_pool.specs.Told.{told_of};

use crate::queues::job_queue::stop::StopSeat;
use std::snapshot::Snapshot;

/// What a thread had stored in the stop word when it last woke all workers. It takes no memory:
/// contracts alone see it.
#[derive(Drop)]
pub(crate) struct Told {
    seat: Snapshot<StopSeat>,
}

impl Told {
    /// Returns the value for a new seat, through which nothing was stored.
    pub(super) fn nothing(seat: &StopSeat) -> Self
        requires { stored_of seat.now ≡ open_word }
        ensures { told_of result ≡ open_word }
    {
        Told {
            seat: Snapshot::of(seat),
        }
    }

    /// Returns the value once all workers were woken after the seat's last store.
    pub(super) fn all(seat: &StopSeat) -> Self
        ensures { told_of result ≡ stored_of seat.now }
    {
        Told {
            seat: Snapshot::of(seat),
        }
    }
}
