//! A wait point over an event count at its last epochs: a worker that has spent its epochs cannot
//! sleep any more.
ghost use Rattle.std.specs.Prelude.{◌≡◌};
ghost use Rattle.event_count.specs.Seats.{card_of, sizes_of, seats_of, count_id, seat_id};

use event_count::{Committed, CountFault, EventCount, Seat, WaitPoint};
use std::alloc::Global;
use std::sync::Wait;

/// The last epoch that a seat can have.
const LAST_EPOCH: u32 = 4_194_303;

/// An event count at which each waiter can sleep once.
#[derive(Drop)]
pub(crate) struct Worn {
    count: EventCount,
}

impl WaitPoint<Global> for Worn {
    ghost use Rattle.atomic_table.specs.Seated.{TableId};

    type Seat = Seat;

    ghost waiter_count = { λ worn. (sizes_of worn.count).waiters };

    ghost seat_count = { λ worn. seats_of worn.count };

    ghost Identity = { TableId };

    ghost identity_of = { λ worn. count_id worn.count };

    ghost point_of = { λ seat. seat_id seat };

    ghost number_of = { λ seat. (card_of seat).number };

    ghost phase_of = { λ seat. (card_of seat).phase };

    ghost owing_of = { λ seat. (card_of seat).owing };

    ghost is_last = { λ word. word ≡ 0x3FFF };

    fn open(alloc: Global, waiters: u16, notifiers: u16) -> Result<(Self, Vec<Seat>), CountFault> {
        let (count, seats) = EventCount::new_at(alloc, waiters, notifiers, LAST_EPOCH)?;
        Ok((Worn { count }, seats))
    }

    fn enter<R: Wait>(&self, _rt: &R, seat: &mut Seat) {
        self.count.prewait(seat);
    }

    fn sleep<R: Wait>(&self, rt: &R, seat: &mut Seat) -> Committed {
        self.count.commit(rt, seat)
    }

    fn leave<R: Wait>(&self, rt: &R, seat: &mut Seat) {
        self.count.cancel(rt, seat);
    }

    fn wake_one<R: Wait>(&self, rt: &R, seat: &mut Seat) {
        self.count.notify(rt, seat);
    }

    fn wake_all<R: Wait>(&self, rt: &R, seat: &mut Seat) {
        self.count.notify_all(rt, seat);
    }

    fn shut_with(self, seats: &mut Vec<Seat>) -> u64 {
        let Worn { count } = self;
        count.shut_with(seats)
    }
}
