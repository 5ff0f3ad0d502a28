//! How rows of slots are opened: empty rows and their seats. The sizes here are facts of the type
//! `SlotRows`.
ghost use Rattle.std.specs.Prelude.{◌≡◌, ◌+◌, ◌<◌, ◌≤◌, ◌↔◌, [], map, All, IfOk, IsErrOf};
ghost use Rattle.std.specs.Prelude.{◌*◌, replicate, vec_len, vec_capacity};
ghost use Rattle.std.specs.List.{range_with_len};
ghost use Rattle.run_queue.specs.Limits.{most_rows, most_jobs};
ghost use Rattle.run_queue.specs.Elements.{empty_word};
ghost use Rattle.run_queue.specs.Lengths.{length_word};
ghost use Rattle.run_queue.specs.Views.{fresh};
ghost use Rattle.run_queue.specs.SlotSeats.{rows_id, row_count_of, seat_count_of, table_of};
ghost use Rattle.run_queue.specs.SlotSeats.{number_in, puts_of, takes_of, front_of, of_key};

use crate::deque::ROW_JOBS;
use crate::room::room_for;
use crate::rows::{MOST_ROWS, RowsFault};
use crate::slot_rows::contents::{AnyJob, Contents};
use crate::slot_rows::reserve::Reserve;
use crate::slot_rows::rule::{Deals, EMPTY, LINE_WORDS, Law, RowsKey};
use crate::slot_rows::seat::{Held, SlotSeat};
use crate::slot_rows::view::View;
use crate::slot_rows::{Back, SlotRows};
use atomic_table::{Seat, Shared, Table};
use std::alloc::{AllocError, Allocator};
use std::sync::Mutex;

impl<J: Drop, A: Allocator + Clone> SlotRows<J, A, AnyJob> {
    /// Returns `rows` empty rows and `rows + outsiders` seats, by number. Allocates the memory that
    /// `close` needs, too.
    pub fn open(
        alloc: A,
        rows: u16,
        outsiders: u16,
    ) -> Result<(Self, Vec<SlotSeat<J>, A>), RowsFault>
        ensures too_many { IsErrOf result RowsFault.TooManyRows ↔ (most_rows < rows) }
        ensures rows { IfOk result (λ r. row_count_of r.0 ≡ rows) }
        ensures seats { IfOk result (λ r. seat_count_of r.0 ≡ rows + outsiders) }
        ensures numbers { IfOk result (λ r.
            map number_in r.1.items ≡ range_with_len 0 (rows + outsiders)) }
        ensures ours { IfOk result (λ r. All (λ s. table_of s ≡ rows_id r.0) r.1.items) }
        ensures accounts { IfOk result (λ r.
            All (λ s. (puts_of s ≡ []) × (takes_of s ≡ [])) r.1.items) }
        ensures fronts { IfOk result (λ r. All (λ s. front_of s ≡ 0) r.1.items) }
    {
        SlotRows::<J, A, AnyJob>::open_for(alloc, rows, outsiders, ())
    }
}

impl<J: Drop, A: Allocator + Clone, F: Contents<J>> SlotRows<J, A, F> {
    /// Does what `open` does, for jobs about which something is known. `key` is what the contents
    /// name.
    pub fn open_for(
        alloc: A,
        rows: u16,
        outsiders: u16,
        key: F::Key,
    ) -> Result<(Self, Vec<SlotSeat<J>, A>), RowsFault>
        ensures too_many { IsErrOf result RowsFault.TooManyRows ↔ (most_rows < rows) }
        ensures rows { IfOk result (λ r. row_count_of r.0 ≡ rows) }
        ensures seats { IfOk result (λ r. seat_count_of r.0 ≡ rows + outsiders) }
        ensures key { IfOk result (λ r. of_key r.0 ≡ key) }
        ensures numbers { IfOk result (λ r.
            map number_in r.1.items ≡ range_with_len 0 (rows + outsiders)) }
        ensures ours { IfOk result (λ r. All (λ s. table_of s ≡ rows_id r.0) r.1.items) }
        ensures accounts { IfOk result (λ r.
            All (λ s. (puts_of s ≡ []) × (takes_of s ≡ [])) r.1.items) }
        ensures fronts { IfOk result (λ r. All (λ s. front_of s ≡ 0) r.1.items) }
    {
        if rows > MOST_ROWS {
            return Err(RowsFault::TooManyRows);
        }
        let backs = backs(&alloc, rows)?;
        let left = Reserve::new(&alloc, usize::from(rows) * ROW_JOBS)?;
        let key = RowsKey {
            seats: u32::from(rows) + u32::from(outsiders),
            of: key,
        };
        let (table, seats) = seated(alloc, rows, &key)?;
        Ok((
            SlotRows {
                rows,
                table,
                backs,
                left,
            },
            seats,
        ))
    }
}

/// Returns a table for `rows` empty rows, and its seats by number.
fn seated<J: Drop, A: Allocator + Clone, F: Contents<J>>(
    alloc: A,
    rows: u16,
    key: &RowsKey<F::Key>,
) -> Result<
    (
        Table<Option<J>, View<J>, RowsKey<F::Key>, Law<J, F>, A>,
        Vec<SlotSeat<J>, A>,
    ),
    AllocError,
>
    requires few { rows ≤ most_rows }
    requires few_seats { key.now.seats ≤ 131070 }
    ensures words { IfOk result (λ r.
        length_word (rows * most_jobs) rows < r.0.shared.table_id.words) }
    ensures slots { IfOk result (λ r. r.0.shared.table_id.slots ≡ rows * most_jobs) }
    ensures key { IfOk result (λ r. r.0.shared.key ≡ key.now) }
    ensures numbers { IfOk result (λ r.
        map number_in r.1.items ≡ range_with_len 0 key.now.seats) }
    ensures ours { IfOk result (λ r. All (λ s. table_of s ≡ r.0.shared.table_id) r.1.items) }
    ensures accounts { IfOk result (λ r.
        All (λ s. (puts_of s ≡ []) × (takes_of s ≡ [])) r.1.items) }
    ensures fronts { IfOk result (λ r. All (λ s. front_of s ≡ 0) r.1.items) }
{
    let count = usize::from(rows) * ROW_JOBS;
    // One more line follows the last length. So a table of no rows has words, too.
    let word_count = count + LINE_WORDS * (usize::from(rows) + 1) + 1;
    let words = empty_words(&alloc, word_count)?;
    let list = room_for(&alloc, key.seats as usize)?;
    let (table, keeper) = Table::vacant(alloc, words.as_slice(), count, key)?;
    let list = deal(&table.shared, keeper, key.seats, list);
    Ok((table, list))
}

/// Returns `count` words, each the word of an empty element or the length of an empty row.
fn empty_words<A: Allocator + Clone>(alloc: &A, count: usize) -> Result<Vec<u64, A>, AllocError>
    ensures { IfOk result (λ words. words.items ≡ replicate count empty_word) }
{
    let mut words = room_for(alloc, count)?;
    words.resize(count, EMPTY)?;
    Ok(words)
}

/// Returns `count` back positions, each the first position of its row.
fn backs<A: Allocator + Clone>(alloc: &A, count: u16) -> Result<Vec<Mutex<Back>, A>, AllocError>
    ensures { IfOk result (λ backs. vec_len backs ≡ count) }
{
    let mut backs = room_for(alloc, usize::from(count))?;
    for _ in 0..count {
        backs.push_reserved(Mutex::new(Back { at: 0 }));
    }
    Ok(backs)
}

/// Splits `count` seats off the keeper, by number.
fn deal<J, A: Allocator, F: Contents<J>>(
    shared: &Shared<Option<J>, View<J>, RowsKey<F::Key>, Law<J, F>>,
    mut keeper: Seat<Option<J>, View<J>>,
    count: u32,
    mut seats: Vec<SlotSeat<J>, A>,
) -> Vec<SlotSeat<J>, A>
    requires of { keeper.table_id ≡ shared.now.table_id }
    requires words { 0 < shared.now.table_id.words }
    requires every_part { keeper.me ≡ (fresh count, []) }
    requires none_yet { seats.items ≡ [] }
    requires room { count ≤ vec_capacity seats }
    ensures numbers { map number_in result.items ≡ range_with_len 0 count }
    ensures ours { All (λ s. table_of s ≡ shared.now.table_id) result.items }
    ensures accounts { All (λ s. (puts_of s ≡ []) × (takes_of s ≡ [])) result.items }
    ensures fronts { All (λ s. front_of s ≡ 0) result.items }
{
    for number in 0..count {
        let seat = shared.split_seat::<Deals<J>>(&mut keeper);
        seats.push_reserved(SlotSeat {
            held: Held { seat },
            number,
            front: 0,
        });
    }
    seats
}
