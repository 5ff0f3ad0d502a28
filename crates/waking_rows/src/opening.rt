//! How `WakingRows` and a `RowPoint` are opened over one count. worker_pool relies on the sizes and
//! credits that `on_one_count` promises.
ghost use Rattle.std.specs.Prelude.{◌≡◌, ℕ, ◌+◌, ◌/◌, ◌<◌, ◌≤◌, [], length, map, All, IfOk, vec_len};
ghost use Rattle.std.specs.Arc.{arc_value};
ghost use Rattle.std.specs.List.{range_with_len};
ghost use Rattle.event_word.specs.Step.{row_limit};
ghost use Rattle.event_word.specs.declared.phase.Phase.TheVariants.{Running};
ghost use Rattle.event_count.specs.Seats.{card_of, seat_id, IsIdle};
ghost use Rattle.event_count.specs.Rows.Seats.{row_count_id, row_sizes_of, IsSilent};
ghost use Rattle.run_queue.specs.Limits.{most_rows};
ghost use Rattle.run_queue.specs.SlotSeats.{number_in, puts_of, takes_of, table_of};
ghost use Rattle.waking_rows.specs.Credits.{HasBanked};
ghost use Rattle.waking_rows.specs.Points.{count_at, waiters_at, rows_at};
ghost use Rattle.waking_rows.specs.Seats.{place_of, rows_in, seats_in, home_of, number_by};
ghost use Rattle.waking_rows.specs.Seats.{puts_by, takes_by, credits_by, first_credits};

use crate::row_point::{RowPoint, RowWaiter, waiters_of};
use crate::ticketed::{OfCount, Ticketed};
use crate::waking_rows::{WakingRows, WakingSeat};
use event_count::{MOST_CREDITS, RowCount, RowSizes, Seat};
use run_queue::{ROW_JOBS, Reserve, SlotRows, SlotSeat};
use std::alloc::{AllocError, Allocator};
use std::snapshot::Snapshot;
use std::sync::Arc;

/// `WakingRows` and a `RowPoint` over one count, with their seats.
#[derive(Drop)]
pub struct OnOneCount<J, A: Allocator> {
    /// The rows.
    pub rows: WakingRows<J, A>,
    /// The seats of the rows, by number.
    pub row_seats: Vec<WakingSeat<J>, A>,
    /// The point at which threads wait for the rows' jobs.
    pub point: RowPoint<A>,
    /// The seats of the point, by number.
    pub waiters: Vec<RowWaiter, A>,
}

/// Returns an equal share of a count's credits for each of `seats` seats.
fn credits_each(seats: u32) -> u32
    requires { 0 < seats }
    ensures { result ≡ row_limit / seats }
{
    (MOST_CREDITS / u64::from(seats)) as u32
}

/// Opens rows and a point over one count, for a number of workers. Each worker has a row, a seat of
/// the rows and a seat of the point. Each of the two has one more seat, for a thread that only puts
/// jobs in. The credits of the point's seats are in the bank.
pub fn on_one_count<J: Drop, A: Allocator + Clone>(
    alloc: &A,
    workers: u16,
) -> Result<OnOneCount<J, A>, AllocError>
    requires some { 0 < workers }
    requires few { workers ≤ most_rows }
    ensures rows { IfOk result (λ made. rows_in made.rows ≡ workers) }
    ensures row_seats { IfOk result (λ made. seats_in made.rows ≡ workers + 1) }
    ensures row_numbers { IfOk result (λ made.
        map number_by made.row_seats.items ≡ range_with_len 0 (workers + 1)) }
    ensures rows_ours { IfOk result (λ made.
        All (λ s. home_of s ≡ place_of made.rows) made.row_seats.items) }
    ensures accounts { IfOk result (λ made.
        All (λ s. (puts_by s ≡ []) × (takes_by s ≡ [])) made.row_seats.items) }
    ensures credits { IfOk result (λ made.
        All (λ s. credits_by s ≡ first_credits workers) made.row_seats.items) }
    ensures banked { IfOk result (λ made. All (λ s. HasBanked (card_of s.seat)
        (first_credits workers)) made.waiters.items) }
    ensures waiters { IfOk result (λ made. waiters_at made.point ≡ workers) }
    ensures point_rows { IfOk result (λ made. rows_at made.point ≡ workers) }
    ensures all { IfOk result (λ made. length made.waiters.items ≡ workers + 1) }
    ensures numbers { IfOk result (λ made. map (λ s. (card_of s.seat).number) made.waiters.items
        ≡ range_with_len 0 (workers + 1)) }
    ensures running { IfOk result (λ made.
        All (λ s. (card_of s.seat).phase ≡ Running) made.waiters.items) }
    ensures owe_none { IfOk result (λ made.
        All (λ s. (card_of s.seat).owing ≡ []) made.waiters.items) }
    ensures ours { IfOk result (λ made.
        All (λ s. seat_id s.seat ≡ count_at made.point) made.waiters.items) }
    ensures one_count { IfOk result (λ made. (place_of made.rows).1 ≡ count_at made.point) }
{
    let notifiers = workers + 2;
    let sizes = RowSizes {
        waiters: workers,
        notifiers,
        first: 0,
        rows: workers,
        credits: credits_each(u32::from(workers) + u32::from(notifiers)),
    };
    let Ok((count, mut seats)) = RowCount::new(alloc.clone()?, &sizes) else {
        return Err(AllocError);
    };
    let others = seats.split_off(usize::from(workers) + 1)?;
    let waiters = waiters_of(alloc, &count, seats)?;
    let Ok(count) = Arc::new(alloc.clone()?, count) else {
        return Err(AllocError);
    };
    let point = RowPoint {
        count: Arc::try_clone(&count)?,
        rows: workers,
    };
    let Ok((rows, row_seats)) = rows_over(alloc, count, others, workers, 1) else {
        return Err(AllocError);
    };
    Ok(OnOneCount {
        rows,
        row_seats,
        point,
        waiters,
    })
}

/// Opens rows over a count, whose seats `seats` become the seats of the rows.
fn rows_over<J: Drop, A: Allocator + Clone>(
    alloc: &A,
    count: Arc<RowCount<A>, A>,
    seats: Vec<Seat, A>,
    rows: u16,
    outsiders: u16,
) -> Result<(WakingRows<J, A>, Vec<WakingSeat<J>, A>), AllocError>
    requires few { rows ≤ (row_sizes_of (arc_value count)).rows }
    requires many { vec_len seats ≡ rows + outsiders }
    requires ours { All (λ seat. seat_id seat ≡ row_count_id (arc_value count)) seats.items }
    requires idle { All IsIdle seats.items }
    requires silent { All IsSilent seats.items }
    ensures rows { IfOk result (λ r. rows_in r.0 ≡ rows) }
    ensures seats { IfOk result (λ r. seats_in r.0 ≡ rows + outsiders) }
    ensures count { IfOk result (λ r. (place_of r.0).1 ≡ row_count_id (arc_value count)) }
    ensures numbers { IfOk result (λ r.
        map number_by r.1.items ≡ range_with_len 0 (rows + outsiders)) }
    ensures ours { IfOk result (λ r. All (λ s. home_of s ≡ place_of r.0) r.1.items) }
    ensures accounts { IfOk result (λ r.
        All (λ s. (puts_by s ≡ []) × (takes_by s ≡ [])) r.1.items) }
    ensures credits { (credits : ℕ) → All (λ s. (card_of s).credits ≡ credits) seats.items
        → IfOk result (λ r. All (λ s. credits_by s ≡ credits) r.1.items) }
{
    let key = Snapshot::of(&*count);
    let made = SlotRows::<Ticketed<J>, A, OfCount<A>>::open_for(
        alloc.clone()?,
        rows,
        outsiders,
        key,
    );
    let Ok((slots, slot_seats)) = made else {
        return Err(AllocError);
    };
    let left = Reserve::new(alloc, usize::from(rows) * ROW_JOBS)?;
    let homes = Reserve::new(alloc, seats.len())?;
    let list = both(alloc, slot_seats, seats)?;
    Ok((
        WakingRows {
            count,
            slots,
            left,
            homes,
        },
        list,
    ))
}

/// Pairs each seat at the slots with a seat at the count.
fn both<J: Drop, A: Allocator + Clone>(
    alloc: &A,
    slots: Vec<SlotSeat<Ticketed<J>>, A>,
    seats: Vec<Seat, A>,
) -> Result<Vec<WakingSeat<J>, A>, AllocError>
    requires many { length slots.items ≡ length seats.items }
    requires idle { All IsIdle seats.items }
    requires silent { All IsSilent seats.items }
    ensures numbers { IfOk result (λ list.
        map number_by list.items ≡ map number_in slots.items) }
    ensures ours { (table : _) → (count : _) → All (λ s. table_of s ≡ table) slots.items
        → All (λ s. seat_id s ≡ count) seats.items
        → IfOk result (λ list. All (λ s. home_of s ≡ (table, count)) list.items) }
    ensures accounts { All (λ s. (puts_of s ≡ []) × (takes_of s ≡ [])) slots.items
        → IfOk result (λ list. All (λ s. (puts_by s ≡ []) × (takes_by s ≡ [])) list.items) }
    ensures credits { (credits : ℕ) → All (λ s. (card_of s).credits ≡ credits) seats.items
        → IfOk result (λ list. All (λ s. credits_by s ≡ credits) list.items) }
{
    let mut list = Vec::with_capacity(alloc.clone()?, slots.len())?;
    for (slot, seat) in slots.into_iter().zip(seats) {
        list.push_reserved(WakingSeat { slot, seat });
    }
    Ok(list)
}
