//! The values of two operands in turns, from the values of each. tensor_values has the
//! turns, and `specs/Interleaving` there has the meaning.

ghost use Rattle.std.specs.Prelude.{◌≡◌, ◌<◌, ◌≤◌, ◌-◌, ◌+◌, ◌%◌, length, IfOk, if◌then◌else◌};
ghost use Rattle.std.specs.List.{range_with_len};
ghost use Rattle.tensor_values.specs.Interleaving.{is_of_first, firsts_before, seconds_before};
ghost use Rattle.tensor_values.specs.Interleaving.{first_places, second_places, AreInterleaved, run_between};

use std::alloc::{AllocError, Global};
use tensor_values::Turns;

/// Returns the values at the places in `[from, to)`. `firsts` and `seconds` are the values of each
/// operand at its places in this run.
pub fn interleaved_run(
    alloc: Global,
    turns: Turns,
    from: usize,
    to: usize,
    firsts: &[i64],
    seconds: &[i64],
) -> Result<Vec<i64>, AllocError>
    requires order { from ≤ to }
    requires firsts { length firsts.now ≡ firsts_before turns.first turns.second to
        - firsts_before turns.first turns.second from }
    requires seconds { length seconds.now ≡ seconds_before turns.first turns.second to
        - seconds_before turns.first turns.second from }
    ensures { IfOk result (λ v. AreInterleaved turns.first turns.second (run_between from to)
        (run_between (firsts_before turns.first turns.second from)
        (firsts_before turns.first turns.second to))
        (run_between (seconds_before turns.first turns.second from)
        (seconds_before turns.first turns.second to))
        firsts.now seconds.now v.items) }
{
    let mut values = Vec::with_capacity(alloc, to - from)?;
    let mut place = from;
    while place < to {
        let end = turns.end_after(place, to);
        values.extend_from_slice(part(turns, from, place, end, firsts, seconds))?;
        place = end;
    }
    Ok(values)
}

/// Returns the values at the places in `[place, end)`, which belong to one operand and one turn.
/// `firsts` and `seconds` begin with the operands' first places from `from` on.
fn part<'v>(
    turns: Turns,
    from: usize,
    place: usize,
    end: usize,
    firsts: &'v [i64],
    seconds: &'v [i64],
) -> &'v [i64]
    requires order { from ≤ place }
    requires some { place < end }
    requires turn { place % (turns.first + turns.second) + (end - place)
        ≤ (if is_of_first turns.first turns.second place
        then turns.first else turns.first + turns.second) }
    requires firsts { firsts_before turns.first turns.second end
        - firsts_before turns.first turns.second from ≤ length firsts.now }
    requires seconds { seconds_before turns.first turns.second end
        - seconds_before turns.first turns.second from ≤ length seconds.now }
    ensures { AreInterleaved turns.first turns.second (run_between place end)
        (range_with_len (firsts_before turns.first turns.second from) (length firsts.now))
        (range_with_len (seconds_before turns.first turns.second from) (length seconds.now))
        firsts.now seconds.now result.now }
{
    if turns.is_of_first(place) {
        let start = turns.firsts_before(place) - turns.firsts_before(from);
        &firsts[start..start + (end - place)]
    } else {
        let start = turns.seconds_before(place) - turns.seconds_before(from);
        &seconds[start..start + (end - place)]
    }
}

/// Returns the places of the first operand and the places of the second operand that a list of
/// places reads, both in order.
pub fn places_of_each(
    alloc: Global,
    turns: Turns,
    places: &[u32],
) -> Result<(Vec<u32>, Vec<u32>), AllocError>
    ensures firsts { IfOk result (λ r.
        r.0.items ≡ first_places turns.first turns.second places.now) }
    ensures seconds { IfOk result (λ r.
        r.1.items ≡ second_places turns.first turns.second places.now) }
{
    let mut firsts = Vec::with_capacity(alloc, places.len())?;
    let mut seconds = Vec::with_capacity(alloc, places.len())?;
    for place in places {
        let place = *place as usize;
        if turns.is_of_first(place) {
            firsts.push_reserved(turns.firsts_before(place) as u32);
        } else {
            seconds.push_reserved(turns.seconds_before(place) as u32);
        }
    }
    Ok((firsts, seconds))
}

/// Returns the values at listed places. `firsts` and `seconds` are the values of each operand at
/// its places in the list, in order.
pub fn interleaved_list(
    alloc: Global,
    turns: Turns,
    places: &[u32],
    firsts: &[i64],
    seconds: &[i64],
) -> Result<Vec<i64>, AllocError>
    requires firsts { length firsts.now ≡ length (first_places turns.first turns.second places.now) }
    requires seconds { length seconds.now ≡ length (second_places turns.first turns.second places.now) }
    ensures { IfOk result (λ v. AreInterleaved turns.first turns.second places.now
        (first_places turns.first turns.second places.now)
        (second_places turns.first turns.second places.now)
        firsts.now seconds.now v.items) }
{
    let mut values = Vec::with_capacity(alloc, places.len())?;
    let mut first = 0;
    let mut second = 0;
    for place in places {
        if turns.is_of_first(*place as usize) {
            values.push_reserved(firsts[first]);
            first += 1;
        } else {
            values.push_reserved(seconds[second]);
            second += 1;
        }
    }
    Ok(values)
}
