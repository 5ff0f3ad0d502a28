//! How a count begins: its words and its seats. `specs/Cards.antt` and `specs/Places.antt` state
//! them.
ghost use Rattle.std.specs.Prelude.{◌≡◌, ◌+◌, ◌<◌, ◌≤◌, [], length, map, vec_capacity, All, IfOk};
ghost use Rattle.event_word.specs.Step.{row_limit};
ghost use Rattle.event_count.specs.Limits.{epoch_limit};
ghost use Rattle.event_count.specs.Places.{words_at_first, words_for};
ghost use Rattle.event_count.specs.Cards.{card_in, opening_card, opening_cards, undealt, after_deal};
ghost use Rattle.event_count.specs.Seats.{card_of, seat_id, HasNoLook};

use crate::rule::{Deals, LINE, Law, RowSizes, STATE};
use crate::seat::Seat;
use crate::view::View;
use atomic_table::Shared;
use event_word::{Fields, Phase, pack};
use std::alloc::{AllocError, Allocator};

/// The fields of the state word if nobody waits.
const OPENING: Fields = Fields {
    top: 16_383,
    pre: 0,
    signals: 0,
    epoch: 0,
};

/// Returns the seat that has the keeper's first card, which has this number.
pub(crate) fn deal(
    shared: &Shared<(), View, RowSizes, Law>,
    keeper: &mut atomic_table::Seat<(), View>,
    sizes: &RowSizes,
    number: u32,
) -> Seat
    requires of { keeper.old.table_id ≡ shared.now.table_id }
    requires words { shared.now.table_id.words ≡ words_for (sizes.now.waiters + sizes.now.rows) }
    requires first { sizes.now.first < epoch_limit }
    requires few { sizes.now.credits ≤ row_limit }
    requires left { 0 < length keeper.old.me.0.cards }
    requires next { card_in keeper.old.me.0 ≡ opening_card sizes.now number }
    ensures of { keeper.new.table_id ≡ keeper.old.table_id }
    ensures left { keeper.new.me ≡ (after_deal keeper.old.me.0, keeper.old.me.1) }
    ensures seat { seat_id result ≡ keeper.old.table_id }
    ensures card { card_of result ≡ opening_card sizes.now number }
    ensures unlooked { HasNoLook result }
{
    Seat {
        seat: shared.split_seat::<Deals>(keeper),
        number,
        waiters: sizes.waiters,
        phase: Phase::Running,
        owed: None,
        linked: false,
        epoch: sizes.first,
        looked: None,
        next: None,
        credits: sizes.credits,
    }
}

/// Returns how many seats a count of these sizes has.
fn seat_count(sizes: &RowSizes) -> u32
    ensures { result ≡ sizes.now.waiters + sizes.now.notifiers }
{
    u32::from(sizes.waiters) + u32::from(sizes.notifiers)
}

/// Returns an empty list with room for all seats.
pub(crate) fn room_for_seats<A: Allocator + Clone>(
    alloc: &A,
    sizes: &RowSizes,
) -> Result<Vec<Seat, A>, AllocError>
    ensures items { IfOk result (λ seats. seats.items ≡ []) }
    ensures room { IfOk result (λ seats.
        vec_capacity seats ≡ sizes.now.waiters + sizes.now.notifiers) }
{
    Vec::with_capacity(alloc.clone()?, seat_count(sizes) as usize)
}

/// Splits a seat off the keeper for each of its cards, by number, into an empty list that has room
/// for them.
pub(crate) fn deal_all<A: Allocator>(
    shared: &Shared<(), View, RowSizes, Law>,
    keeper: &mut atomic_table::Seat<(), View>,
    sizes: &RowSizes,
    seats: &mut Vec<Seat, A>,
)
    requires of { keeper.old.table_id ≡ shared.now.table_id }
    requires words { shared.now.table_id.words ≡ words_for (sizes.now.waiters + sizes.now.rows) }
    requires first { sizes.now.first < epoch_limit }
    requires few { sizes.now.credits ≤ row_limit }
    requires undealt { keeper.old.me ≡ (undealt sizes.now, []) }
    requires items { seats.old.items ≡ [] }
    requires room { vec_capacity seats.old ≡ sizes.now.waiters + sizes.now.notifiers }
    ensures cards { map card_of seats.new.items ≡ opening_cards sizes.now }
    ensures ours { All (λ seat. seat_id seat ≡ shared.now.table_id) seats.new.items }
    ensures unlooked { All HasNoLook seats.new.items }
{
    for number in 0..seat_count(sizes) {
        seats.push_reserved(deal(shared, keeper, sizes, number));
    }
}

/// Returns the words of a table in which nobody waits.
pub(crate) fn opening_words<A: Allocator + Clone>(
    alloc: &A,
    sizes: &RowSizes,
) -> Result<Vec<u64, A>, AllocError>
    ensures { IfOk result (λ words.
        words.items ≡ words_at_first (sizes.now.waiters + sizes.now.rows)) }
{
    let lines = usize::from(sizes.waiters) + usize::from(sizes.rows);
    let count = LINE * (2 + lines);
    let mut words = Vec::with_capacity(alloc.clone()?, count)?;
    words.resize(count, 0)?;
    words[STATE] = pack(OPENING);
    Ok(words)
}
