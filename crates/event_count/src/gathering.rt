//! The end of a count: one seat takes over the cards of all others, and so knows the whole history.
//! `close` and `shut` use it.
ghost use Rattle.std.specs.Prelude.{◌≡◌, ◌<◌, [], map, reverse, All};
ghost use Rattle.event_count.specs.Seats.{card_of, seat_id};

use crate::rule::{Law, RowSizes, TakesIn};
use crate::seat::Seat;
use crate::view::View;
use atomic_table::Shared;
use std::alloc::Allocator;

/// Takes the seats out of the list, the last first, and joins their cards to the keeper, which has
/// none yet.
pub(crate) fn gather<B: Allocator>(
    shared: &Shared<(), View, RowSizes, Law>,
    keeper: &mut atomic_table::Seat<(), View>,
    seats: &mut Vec<Seat, B>,
)
    requires of { keeper.old.table_id ≡ shared.now.table_id }
    requires words { 0 < shared.now.table_id.words }
    requires none_held { keeper.old.me.1 ≡ [] }
    requires no_card { keeper.old.me.0.cards ≡ [] }
    requires ours { All (λ seat. seat_id seat ≡ shared.now.table_id) seats.old.items }
    ensures of { keeper.new.table_id ≡ keeper.old.table_id }
    ensures none_held { keeper.new.me.1 ≡ [] }
    ensures cards { keeper.new.me.0.cards ≡ reverse (map card_of seats.old.items) }
{
    while let Some(seat) = seats.pop() {
        let Seat { seat, .. } = seat;
        shared.join_seat::<TakesIn>(keeper, seat);
    }
}
