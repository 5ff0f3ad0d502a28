//! Values of a lowered expression in runs: the values that are combined into one value of a result
//! lie side by side. They are computed as they are asked for, a piece at a time.
//! specs/private/ValueRuns defines them.

ghost use Rattle.std.specs.Prelude.{◌≡◌, ◌↔◌, ◌<◌, ◌≤◌, ◌+◌, ◌-◌, ◌*◌, ◌*ℤ◌, ◌++◌, length};
ghost use Rattle.std.specs.Prelude.{map, true, Ok, IsTrue, IfOk, OnOk, vec_len, vec_capacity};
ghost use Rattle.std.specs.Cow.{cow_slice_items};
ghost use Rattle.std.specs.List.{range_with_len};
ghost use Rattle.tensor_shape.specs.Index.{size_of};
ghost use Rattle.tensor_shape.specs.Legal.{highest_rank, widest, most_elements};
ghost use Rattle.tensor_shape.specs.Wrap.{wrap};
ghost use Rattle.tensor_loops.specs.Folds.{folded};
ghost use Rattle.tensor_ops.specs.private.Meaning.{meaning, count_of, IsSound, IsSound-prop};
ghost use Rattle.tensor_terms.specs.Movement.{moved, moved_dims};
ghost use Rattle.tensor_ops.specs.private.Lowering.{Gives, meaning_at};
ghost use Rattle.tensor_ops.specs.private.Runs.{LieInRuns};
ghost use Rattle.tensor_kernels.specs.Products.{sum_to};
ghost use Rattle.tensor_terms.specs.Reduction.{are_axes};
ghost use Rattle.tensor_values.specs.Combining.{unit};
ghost use Rattle.tensor_terms.specs.Term.{shuffle};
ghost use Rattle.tensor_terms.specs.Merged.{others};

use crate::lowered::sinking::sunk_over;
use crate::lowered::{Lowered, PIECE, values_at};
use crate::lowering::lower_movement;
use crate::lowering::part::Part;
use std::alloc::{AllocError, Allocator, Global};
use std::borrow::CowSlice;
use tensor_kernels::sum_with_products;
use tensor_loops::{add_combined, combined_with};
use tensor_terms::{Movement, axes_first, dims_at, other_dims};
use tensor_values::Reducer;
use tensor_views::Places;

/// A lowered expression whose values lie in runs, one after the other. None of the values is
/// stored.
#[derive(Drop)]
pub(crate) struct ValueRuns<'a> {
    lowered: Lowered<'a>,
    /// The number of values of a run.
    pub(crate) length: usize,
    /// The number of runs.
    pub(crate) count: usize,
    ghost sound: { IsSound lowered } by { IsSound-prop lowered },
    ghost whole: { count_of lowered ≡ length * count },
    ghost few: { length * count ≤ most_elements },
}

impl<'a> ValueRuns<'a> {
    ghost use Rattle.tensor_ops.specs.private.ValueRuns.{run_value, run_combined};

    /// Returns the values of an operand along some of its axes: a run for each index list of the
    /// other axes.
    pub(crate) fn along(
        alloc: Global,
        axes: &[u64],
        operand: Part<'a>,
        room: &mut usize,
    ) -> Result<ValueRuns<'a>, AllocError>
        requires sound { IsSound operand.lowered }
        requires count { count_of operand.lowered ≡ size_of operand.dims }
        requires axes { are_axes (length operand.dims) axes.now ≡ true }
        ensures { IfOk result (λ r. LieInRuns (meaning r.lowered) r.length r.count
            operand.entry.dims axes.now
            (meaning_at operand.entry.lowered operand.entry.dims)) }
    {
        let length = dims_at(axes, &operand.dims).size() as usize;
        let count = other_dims(axes, &operand.dims).size() as usize;
        let fronted = with_axes_first(alloc, axes, operand, room)?;
        // For the proof: there are no more values than dims can have.
        let _values = fronted.dims.size();
        let lowered = sunk_over(alloc, fronted.lowered, &fronted.dims)?;
        Ok(ValueRuns {
            lowered,
            length,
            count,
        })
    }

    /// Returns the values `[first, last)` of a run.
    fn piece(
        &self,
        alloc: Global,
        run: usize,
        first: usize,
        last: usize,
    ) -> Result<CowSlice<'_, i64, Global>, AllocError>
        requires order { first ≤ last }
        requires within { last ≤ self.now.length }
        requires run { run < self.now.count }
        ensures { IfOk result (λ v. cow_slice_items v
            ≡ map (run_value self.now run) (range_with_len first (last - first))) }
    {
        let start = self.length * run;
        values_at(
            alloc,
            &self.lowered,
            &Places::Run(first + start, last + start),
        )
    }

    /// Returns the values `[first, last)` of a run, combined from the unit.
    pub(crate) fn combined(
        &self,
        alloc: Global,
        reducer: Reducer,
        run: usize,
        first: usize,
        last: usize,
    ) -> Result<i64, AllocError>
        requires order { first ≤ last }
        requires within { last ≤ self.now.length }
        requires run { run < self.now.count }
        ensures { IfOk result (λ v. v ≡ folded reducer (unit reducer)
            (λ q. run_value self.now run (first + q)) (last - first)) }
    {
        let mut value = reducer.unit();
        let mut from = first;
        while from < last {
            let to = from + (last - from).min(PIECE);
            let piece = self.piece(alloc, run, from, to)?;
            value = combined_with(reducer, value, piece.as_slice());
            from = to;
        }
        Ok(value)
    }

    /// Returns the runs `[first, last)`, each combined from the unit, in order. `target` allocates
    /// the results. As many runs are computed together as a piece has room for.
    pub(crate) fn together<A: Allocator>(
        &self,
        alloc: Global,
        target: A,
        reducer: Reducer,
        first: usize,
        last: usize,
    ) -> Result<Vec<i64, A>, AllocError>
        requires order { first ≤ last }
        requires within { last ≤ self.now.count }
        ensures { IfOk result (λ v. v.items
            ≡ map (run_combined reducer self.now) (range_with_len first (last - first))) }
    {
        let mut values = Vec::with_capacity(target, last - first)?;
        let most = (PIECE / self.length.max(1)).max(1);
        let mut run = first;
        while run < last {
            let end = run + (last - run).min(most);
            self.add_runs(alloc, reducer, run, end, &mut values)?;
            run = end;
        }
        Ok(values)
    }

    /// Appends the runs `[first, last)`, each combined from the unit.
    fn add_runs<A: Allocator>(
        &self,
        alloc: Global,
        reducer: Reducer,
        first: usize,
        last: usize,
        values: &mut Vec<i64, A>,
    ) -> Result<(), AllocError>
        requires order { first ≤ last }
        requires within { last ≤ self.now.count }
        requires room { vec_len values.old + (last - first) ≤ vec_capacity values.old }
        ensures items { OnOk result (values.new.items ≡ values.old.items
            ++ map (run_combined reducer self.now) (range_with_len first (last - first))) }
        ensures len { OnOk result (vec_len values.new ≡ vec_len values.old + (last - first)) }
        ensures capacity { OnOk result (vec_capacity values.new ≡ vec_capacity values.old) }
    {
        let (from, to) = (self.length * first, self.length * last);
        let piece = values_at(alloc, &self.lowered, &Places::Run(from, to))?;
        add_combined(reducer, piece.as_slice(), self.length, last - first, values);
        Ok(())
    }

    /// Returns the sum, modulo 2^64, of the products of the values `[first, last)` of a run and of
    /// a run of other values.
    pub(crate) fn multiplied(
        &self,
        alloc: Global,
        run: usize,
        other: &ValueRuns<'_>,
        other_run: usize,
        first: usize,
        last: usize,
    ) -> Result<i64, AllocError>
        requires order { first ≤ last }
        requires within { last ≤ self.now.length }
        requires other { last ≤ other.now.length }
        requires run { run < self.now.count }
        requires other_run { other_run < other.now.count }
        ensures { IfOk result (λ v. v ≡ wrap (sum_to (λ q. run_value self.now run (first + q)
            *ℤ run_value other.now other_run (first + q)) (last - first))) }
    {
        let mut sum = 0;
        let mut from = first;
        while from < last {
            let to = from + (last - from).min(PIECE);
            let left = self.piece(alloc, run, from, to)?;
            let right = other.piece(alloc, other_run, from, to)?;
            sum = sum_with_products(sum, left.as_slice(), right.as_slice());
            from = to;
        }
        Ok(sum)
    }
}

/// Returns an operand with the given axes first. If they are first already it stays as it is.
fn with_axes_first<'a>(
    alloc: Global,
    axes: &[u64],
    operand: Part<'a>,
    room: &mut usize,
) -> Result<Part<'a>, AllocError>
    requires sound { IsSound operand.lowered }
    requires count { count_of operand.lowered ≡ size_of operand.dims }
    requires axes { are_axes (length operand.dims) axes.now ≡ true }
    ensures dims { IfOk result (λ r. moved_dims widest
        (shuffle (axes.now ++ others axes.now (length operand.entry.dims))) operand.entry.dims
        ≡ Ok r.dims) }
    ensures lowered { IfOk result (λ r. Gives r.lowered r.dims (λ index.
        meaning_at operand.entry.lowered operand.entry.dims (moved
        (shuffle (axes.now ++ others axes.now (length operand.entry.dims))) operand.entry.dims index))) }
{
    if come_first(axes, operand.dims.rank()) {
        return Ok(operand);
    }
    let order = axes_first(axes, operand.dims.rank());
    lower_movement(alloc, Movement::Shuffle(order.as_slice()), operand, room)
}

/// Returns whether the given axes, in this order, are the first ones.
pub(crate) fn come_first(axes: &[u64], rank: usize) -> bool
    requires few { rank ≤ highest_rank }
    requires axes { are_axes rank axes.now ≡ true }
    ensures { IsTrue result ↔ (axes.now ++ others axes.now rank ≡ range_with_len 0 rank) }
{
    is_in_order(axes_first(axes, rank).as_slice())
}

/// Returns whether the numbers are 0, 1, 2 and so on.
fn is_in_order(numbers: &[u64]) -> bool
    ensures { IsTrue result ↔ (numbers.now ≡ range_with_len 0 (length numbers.now)) }
{
    for k in 0..numbers.len() {
        if numbers[k] != k as u64 {
            return false;
        }
    }
    true
}
