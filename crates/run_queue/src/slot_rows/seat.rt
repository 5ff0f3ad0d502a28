//! `SlotSeat`: the right to use rows of slots. The contracts of all calls name its parts by
//! `specs/SlotSeats.antt`.
ghost use Rattle.std.specs.Prelude.{None, ◌≡◌, ◌<◌, []};
ghost use Rattle.run_queue.specs.Limits.{most_jobs};

use crate::slot_rows::view::View;
use atomic_table::Seat;

/// A seat at the table. Between calls it works on no element and owes no row.
#[derive(Drop)]
pub struct Held<J> {
    pub(crate) seat: Seat<Option<J>, View<J>>,
    ghost none_held: { seat.me.1 ≡ [] },
    ghost none_busy: { seat.me.0.busy ≡ None },
    ghost none_owed: { seat.me.0.owes ≡ None },
    ghost one_part: { seat.me.0.parts ≡ 1 },
}

/// A seat at `SlotRows`, for one thread at a time. It may move between threads.
///
/// Rows can't be closed once one of their seats was dropped.
#[derive(Drop)]
pub struct SlotSeat<J> {
    pub(crate) held: Held<J>,
    pub(crate) number: u32,
    // The position of the next push at the front.
    pub(crate) front: usize,
    ghost same_front: { front ≡ held.seat.me.0.notes.front },
    ghost within: { front < most_jobs },
}

impl<J> SlotSeat<J> {
    ghost use Rattle.run_queue.specs.SlotSeats.{number_in};

    /// Returns the seat's number. The seat owns the row of this number, if there is one.
    pub fn number(&self) -> u32
        ensures { result ≡ number_in self.now }
    {
        self.number
    }
}
