//! Folds: many values combined into each value of a row. A new reducer needs an arm in
//! `combined_with` and `add_combined`; the meaning is in `specs/Folds`, which reductions in
//! tensor_ops use.

ghost use Rattle.std.specs.Prelude.{◌≡◌, ◌<◌, ◌≤◌, ◌+◌, ◌*◌, ◌^◌, ◌++◌, ℕ, length, map};
ghost use Rattle.std.specs.Prelude.{slice_index, vec_len, vec_capacity};
ghost use Rattle.std.specs.List.{range_with_len};
ghost use Rattle.tensor_loops.specs.Folds.{folded, run_folded, IsCombined, offset_at};
ghost use Rattle.tensor_values.specs.Values.{value_in};
ghost use Rattle.tensor_values.specs.Combining.{combine};

use std::alloc::Allocator;
use tensor_values::Reducer;

/// The shortest row that is combined row by row. Shorter rows are combined value by value.
const SHORTEST_COMBINED_ROW: usize = 8;

/// Combines into each value of a row the values at its index in other rows of `values`. For each
/// offset there are `run` such rows, `step` apart; the first begins at `start` plus the offset.
#[inline(always)]
pub fn combine_runs(
    reducer: Reducer,
    row: &mut [i64],
    values: &[i64],
    start: usize,
    step: usize,
    run: usize,
    offsets: &[usize],
)
    requires few { length values.now < 2 ^ 32 }
    requires start { start < 2 ^ 32 }
    requires offsets { (k : ℕ) → k < length offsets.now → slice_index offsets.now k < 2 ^ 32 }
    requires inside { (i q : ℕ) → i < length row.old → q < length offsets.now * run
        → start + i + offset_at offsets.now step run q < length values.now }
    ensures { IsCombined reducer row.old row.new
        (λ i q. value_in values.now (start + i + offset_at offsets.now step run q))
        (length offsets.now * run) }
{
    for offset in offsets {
        combine_run(reducer, row, values, start + *offset, step, run);
    }
}

/// Combines into each value of a row the values at its index in `run` rows of `values`. The rows
/// lie `step` apart, and the first begins at `start`.
#[inline(always)]
fn combine_run(
    reducer: Reducer,
    row: &mut [i64],
    values: &[i64],
    start: usize,
    step: usize,
    run: usize,
)
    requires few { length values.now < 2 ^ 32 }
    requires start { start < 2 ^ 33 }
    requires inside { (i t : ℕ) → i < length row.old → t < run
        → start + i + t * step < length values.now }
    ensures { IsCombined reducer row.old row.new
        (λ i t. value_in values.now (start + i + t * step)) run }
{
    if row.len() < SHORTEST_COMBINED_ROW {
        combine_by_value(reducer, row, values, start, step, run);
    } else {
        combine_by_row(reducer, row, values, start, step, run);
    }
}

/// Combines `run` rows into a row, one value of the row after the other.
#[inline(always)]
fn combine_by_value(
    reducer: Reducer,
    row: &mut [i64],
    values: &[i64],
    start: usize,
    step: usize,
    run: usize,
)
    requires few { length values.now < 2 ^ 32 }
    requires start { start < 2 ^ 33 }
    requires row { length row.old < 2 ^ 32 }
    requires inside { (i t : ℕ) → i < length row.old → t < run
        → start + i + t * step < length values.now }
    ensures { IsCombined reducer row.old row.new
        (λ i t. value_in values.now (start + i + t * step)) run }
{
    for i in 0..row.len() {
        row[i] = folded(reducer, row[i], values, start + i, step, run);
    }
}

/// Combines `run` rows into a row, one of these rows after the other.
#[inline(always)]
fn combine_by_row(
    reducer: Reducer,
    row: &mut [i64],
    values: &[i64],
    start: usize,
    step: usize,
    run: usize,
)
    requires few { length values.now < 2 ^ 32 }
    requires some { 0 < length row.old }
    requires inside { (i t : ℕ) → i < length row.old → t < run
        → start + i + t * step < length values.now }
    ensures { IsCombined reducer row.old row.new
        (λ i t. value_in values.now (start + i + t * step)) run }
{
    let width = row.len();
    for t in 0..run {
        let from = start + t * step;
        fold_row(reducer, row, &values[from..from + width]);
    }
}

/// Combines each value of `row` with the value at its index in `others`.
#[inline(always)]
fn fold_row(reducer: Reducer, row: &mut [i64], others: &[i64])
    requires { length row.old ≡ length others.now }
    ensures len { length row.new ≡ length row.old }
    ensures each { (i : ℕ) → i < length row.old
        → value_in row.new i ≡ combine reducer (value_in row.old i) (value_in others.now i) }
{
    for i in 0..others.len() {
        row[i] = reducer.combine(row[i], others[i]);
    }
}

/// Returns `value` combined with all `others`, one after the other.
pub fn combined_with(reducer: Reducer, value: i64, others: &[i64]) -> i64
    ensures { result ≡ folded reducer value (value_in others.now) (length others.now) }
{
    match reducer {
        Reducer::Sum => all_with(Reducer::Sum, value, others),
        Reducer::Prod => all_with(Reducer::Prod, value, others),
        Reducer::Max => all_with(Reducer::Max, value, others),
        Reducer::Min => all_with(Reducer::Min, value, others),
        Reducer::All => all_with(Reducer::All, value, others),
        Reducer::Any => all_with(Reducer::Any, value, others),
    }
}

/// Returns `value` combined with all `others`. The reducer is a constant at compile time.
#[inline(always)]
fn all_with(reducer: Reducer, value: i64, others: &[i64]) -> i64
    ensures { result ≡ folded reducer value (value_in others.now) (length others.now) }
{
    let mut all = value;
    for t in 0..others.len() {
        all = reducer.combine(all, others[t]);
    }
    all
}

/// Appends the combination of each of `count` runs of values, beginning with the unit. The runs
/// have `run` values each and lie one after the other in `values`. Allocates nothing: there must be
/// room.
pub fn add_combined<A: Allocator>(
    reducer: Reducer,
    values: &[i64],
    run: usize,
    count: usize,
    combined: &mut Vec<i64, A>,
)
    requires within { run * count ≤ length values.now }
    requires room { vec_len combined.old + count ≤ vec_capacity combined.old }
    ensures items { combined.new.items ≡ combined.old.items
        ++ map (run_folded reducer (value_in values.now) run) (range_with_len 0 count) }
    ensures len { vec_len combined.new ≡ vec_len combined.old + count }
    ensures capacity { vec_capacity combined.new ≡ vec_capacity combined.old }
{
    match reducer {
        Reducer::Sum => add_each(Reducer::Sum, values, run, count, combined),
        Reducer::Prod => add_each(Reducer::Prod, values, run, count, combined),
        Reducer::Max => add_each(Reducer::Max, values, run, count, combined),
        Reducer::Min => add_each(Reducer::Min, values, run, count, combined),
        Reducer::All => add_each(Reducer::All, values, run, count, combined),
        Reducer::Any => add_each(Reducer::Any, values, run, count, combined),
    }
}

/// Appends the combination of each of `count` runs of values. The reducer is a constant at compile
/// time.
#[inline(always)]
fn add_each<A: Allocator>(
    reducer: Reducer,
    values: &[i64],
    run: usize,
    count: usize,
    combined: &mut Vec<i64, A>,
)
    requires within { run * count ≤ length values.now }
    requires room { vec_len combined.old + count ≤ vec_capacity combined.old }
    ensures items { combined.new.items ≡ combined.old.items
        ++ map (run_folded reducer (value_in values.now) run) (range_with_len 0 count) }
    ensures len { vec_len combined.new ≡ vec_len combined.old + count }
    ensures capacity { vec_capacity combined.new ≡ vec_capacity combined.old }
{
    for index in 0..count {
        let start = run * index;
        let all = all_with(reducer, reducer.unit(), &values[start..start + run]);
        combined.push_reserved(all);
    }
}

/// Returns `value` combined with `run` values that lie `step` apart, from place `first` on.
#[inline(always)]
fn folded(
    reducer: Reducer,
    value: i64,
    values: &[i64],
    first: usize,
    step: usize,
    run: usize,
) -> i64
    requires few { length values.now < 2 ^ 32 }
    requires inside { (t : ℕ) → t < run → first + t * step < length values.now }
    ensures { result ≡ folded reducer value (λ t. value_in values.now (first + t * step)) run }
{
    // A separate loop for step 1 lets the compiler use vector instructions.
    if step == 1 && run > 0 {
        return all_with(reducer, value, &values[first..first + run]);
    }
    let mut all = value;
    for t in 0..run {
        all = reducer.combine(all, values[first + t * step]);
    }
    all
}
