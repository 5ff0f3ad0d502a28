//! A sum of numbers that threads steal from the thread that has them. `run_queue/CALLING.md` quotes
//! it.
ghost use Rattle.std.specs.Prelude.{◌≡◌, ◌+◌, ◌%◌, ◌^◌, ◌<◌, [], ◌++◌, IfOk, All};
ghost use Rattle.std.specs.Prelude.{length, map, sum, sum_by, option_to_list};
ghost use Rattle.std.specs.List.{range_with_len};
ghost use Rattle.run_queue.specs.SlotSeats.{rows_id, row_count_of, table_of, number_in};
ghost use Rattle.run_queue.specs.SlotSeats.{puts_of, takes_of};
ghost use Rattle.uses.specs.Lists.{Agree};

use run_queue::{RowsFault, SlotRows, SlotSeat};
use std::alloc::{AllocError, Global};
use std::sync::Wait;
use std::thread::{self, Threads};

/// A seat, and the sum of the numbers that came out through it.
#[derive(Drop)]
struct Taken {
    seat: SlotSeat<u64>,
    total: u64,
    ghost added: { total ≡ sum (takes_of seat) % 2 ^ 64 },
}

/// Adds up the numbers, modulo 2^64.
fn added(numbers: &[u64]) -> u64
    ensures { result ≡ sum numbers.now % 2 ^ 64 }
{
    let mut total = 0u64;
    for number in numbers {
        total = total.wrapping_add(*number);
    }
    total
}

/// Puts the numbers into the owner's row. Returns the sum of the numbers for which there was no
/// room.
fn put_in(rows: &SlotRows<u64>, owner: &mut SlotSeat<u64>, numbers: &[u64]) -> u64
    requires of { table_of owner.old ≡ rows_id rows.now }
    requires owner { number_in owner.old < row_count_of rows.now }
    ensures of { table_of owner.new ≡ table_of owner.old }
    ensures takes { takes_of owner.new ≡ takes_of owner.old }
    ensures puts { (result + sum (puts_of owner.new)) % 2 ^ 64
        ≡ (sum (puts_of owner.old) + sum numbers.now) % 2 ^ 64 }
{
    let mut rest = 0u64;
    for number in numbers {
        if let Err(number) = rows.push_front(owner, *number) {
            rest = rest.wrapping_add(number);
        }
    }
    rest
}

/// Puts the numbers in by the first of the seats, which owns the row, and moves this seat to the
/// end of the list. Returns the sum of the numbers for which there was no room.
fn put_in_by_owner(rows: &SlotRows<u64>, seats: &mut Vec<SlotSeat<u64>>, numbers: &[u64]) -> u64
    requires row { row_count_of rows.now ≡ 1 }
    requires of { All (λ s. table_of s ≡ rows_id rows.now) seats.old.items }
    requires numbers { map number_in seats.old.items
        ≡ range_with_len 0 (length seats.old.items) }
    requires some { 0 < length seats.old.items }
    requires none { All (λ s. (puts_of s ≡ []) × (takes_of s ≡ [])) seats.old.items }
    ensures of { All (λ s. table_of s ≡ rows_id rows.now) seats.new.items }
    ensures takes { All (λ s. takes_of s ≡ []) seats.new.items }
    ensures puts { (result + sum_by (λ s. sum (puts_of s)) seats.new.items) % 2 ^ 64
        ≡ sum numbers.now % 2 ^ 64 }
    ensures count { length seats.new.items ≡ length seats.old.items }
{
    let mut owner = seats.remove(0);
    let rest = put_in(rows, &mut owner, numbers);
    seats.push_reserved(owner);
    rest
}

/// Takes a number, if there is one: the owner at the front of the row, others at its back.
fn take<R: Wait>(rt: &R, rows: &SlotRows<u64>, seat: &mut SlotSeat<u64>) -> Option<u64>
    requires of { table_of seat.old ≡ rows_id rows.now }
    requires row { row_count_of rows.now ≡ 1 }
    ensures of { table_of seat.new ≡ table_of seat.old }
    ensures puts { puts_of seat.new ≡ puts_of seat.old }
    ensures takes { takes_of seat.new ≡ takes_of seat.old ++ option_to_list result }
{
    if seat.number() == 0 {
        rows.pop_front(seat)
    } else {
        rows.pop_back(rt, seat, 0)
    }
}

/// Takes numbers until none is found, and returns the seat with their sum.
fn take_all<R: Wait>(rt: &R, rows: &SlotRows<u64>, mut seat: SlotSeat<u64>) -> Taken
    requires of { table_of seat ≡ rows_id rows.now }
    requires row { row_count_of rows.now ≡ 1 }
    requires none { takes_of seat ≡ [] }
    ensures of { table_of result.seat ≡ table_of seat }
    ensures puts { puts_of result.seat ≡ puts_of seat }
{
    let mut total = 0u64;
    for _ in rt.forever() {
        match take(rt, rows, &mut seat) {
            Some(number) => total = total.wrapping_add(number),
            None => return Taken { seat, total },
        }
    }
    unreachable!()
}

/// Takes the numbers out by all seats, each on a thread of its own.
fn take_out<RT: Threads + Wait + Sync>(
    rt: &RT,
    rows: &SlotRows<u64>,
    seats: Vec<SlotSeat<u64>>,
) -> Result<Vec<Taken>, AllocError>
    requires row { row_count_of rows.now ≡ 1 }
    requires of { All (λ s. table_of s ≡ rows_id rows.now) seats.items }
    requires none { All (λ s. takes_of s ≡ []) seats.items }
    ensures of { IfOk result (λ taken.
        All (λ t. table_of t.seat ≡ rows_id rows.now) taken.items) }
    ensures count { IfOk result (λ taken. length taken.items ≡ length seats.items) }
    ensures puts { IfOk result (λ taken.
        Agree (λ t. puts_of t.seat) puts_of taken.items seats.items) }
{
    let taken = thread::map_vec(
        rt,
        seats,
        &|seat: SlotSeat<u64>| -> Taken
            requires of { table_of seat ≡ rows_id rows.now }
            requires row { row_count_of rows.now ≡ 1 }
            requires none { takes_of seat ≡ [] }
            ensures of { table_of result.seat ≡ table_of seat }
            ensures puts { puts_of result.seat ≡ puts_of seat }
        { take_all(rt, rows, seat) },
    )?;
    Ok(taken)
}

/// Adds up what came out through all seats, modulo 2^64.
fn total_of(taken: &[Taken]) -> u64
    ensures { result ≡ sum_by (λ t. sum (takes_of t.seat)) taken.now % 2 ^ 64 }
{
    let mut total = 0u64;
    for one in taken {
        total = total.wrapping_add(one.total);
    }
    total
}

/// Returns the seats alone.
fn seats_of(alloc: Global, taken: Vec<Taken>) -> Result<Vec<SlotSeat<u64>>, AllocError>
    ensures { IfOk result (λ seats. seats.items ≡ map (λ t. t.seat) taken.items) }
{
    let mut seats = Vec::with_capacity(alloc, taken.len())?;
    for one in taken {
        seats.push(one.seat)?;
    }
    Ok(seats)
}

/// Adds up the numbers, modulo 2^64, by the owner of a row and the given number of thieves.
pub fn stolen_sum<RT: Threads + Wait + Sync>(
    rt: &RT,
    alloc: Global,
    numbers: &[u64],
    thieves: u16,
) -> Result<u64, RowsFault>
    ensures { IfOk result (λ total. total ≡ sum numbers.now % 2 ^ 64) }
{
    let (rows, mut seats) = SlotRows::open(alloc, 1, thieves)?;
    let rest = put_in_by_owner(&rows, &mut seats, numbers);
    let taken = take_out(rt, &rows, seats)?;
    let total = rest.wrapping_add(total_of(&taken));
    let left = rows.close(seats_of(alloc, taken)?);
    Ok(total.wrapping_add(added(&left)))
}
