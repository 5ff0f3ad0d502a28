//! `WakingRows`: rows of slots whose puts notify a waiter. `calls.rt` has the calls, and
//! `specs/Seats.antt` names the parts of rows and seats that contracts name.
ghost use Rattle.std.specs.Prelude.{◌≡◌, ◌*◌, ◌<◌, ◌≤◌};
ghost use Rattle.std.specs.Arc.{arc_value};
ghost use Rattle.event_count.specs.Seats.{IsIdle};
ghost use Rattle.event_count.specs.Rows.Seats.{row_count_id, row_sizes_of, IsSilent};
ghost use Rattle.run_queue.specs.Limits.{most_jobs};
ghost use Rattle.run_queue.specs.SlotSeats.{of_key, row_count_of, seat_count_of};

use crate::ticketed::{OfCount, Ticketed};
use event_count::{RowCount, Seat};
use run_queue::{Reserve, SlotRows, SlotSeat};
use std::alloc::{Allocator, Global};
use std::sync::Arc;

mod calls;
mod credits;
mod ending;

/// Rows of slots whose lengths are in a count, at which threads wait for the jobs.
///
/// A put publishes its job at the count, lays the job and its ticket into a slot, and notifies one
/// waiter. A take gives the ticket back.
#[derive(Drop)]
pub struct WakingRows<J, A: Allocator = Global> {
    pub(crate) count: Arc<RowCount<A>, A>,
    pub(crate) slots: SlotRows<Ticketed<J>, A, OfCount<A>>,
    // Room for the jobs that are left at the end, and for the seats at the slots.
    pub(crate) left: Reserve<J, A>,
    pub(crate) homes: Reserve<SlotSeat<Ticketed<J>>, A>,
    ghost here: { row_count_id (of_key slots).value ≡ row_count_id (arc_value count) },
    ghost rows: { row_count_of slots ≤ (row_sizes_of (arc_value count)).rows },
    ghost few: { row_count_of slots < 65536 },
    ghost room: { left ≡ row_count_of slots * most_jobs },
    ghost seat_room: { homes ≡ seat_count_of slots },
}

/// A seat at `WakingRows`: a seat at the slots and a seat at the count. Between its calls it is
/// idle, and has nothing to notify.
#[derive(Drop)]
pub struct WakingSeat<J> {
    pub(crate) slot: SlotSeat<Ticketed<J>>,
    pub(crate) seat: Seat,
    ghost idle: { IsIdle seat },
    ghost silent: { IsSilent seat },
}
