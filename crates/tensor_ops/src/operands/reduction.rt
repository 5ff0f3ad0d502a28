//! Reductions of a list, by ranges of places of the result. The values are defined in
//! specs/private/Reduced; the loops are in tensor_loops.

ghost use Rattle.std.specs.Prelude.{◌≡◌, ◌<◌, ◌≤◌, ◌+◌, ◌-◌, ◌*◌, ℕ, length, map, slice_index};
ghost use Rattle.std.specs.Prelude.{IfOk};
ghost use Rattle.std.specs.Cow.{cow_slice_items};
ghost use Rattle.std.specs.List.{range_with_len};
ghost use Rattle.tensor_shape.specs.Index.{size_of, place, index_of};
ghost use Rattle.tensor_shape.specs.Legal.{most_elements};
ghost use Rattle.tensor_loops.specs.Folds.{offset_at};
ghost use Rattle.tensor_ops.specs.private.Starts.{start_at};
ghost use Rattle.tensor_values.specs.Values.{value_in};

use std::alloc::{AllocError, Allocator, Global};
use std::borrow::CowSlice;
use tensor_loops::combine_runs;
use tensor_shape::Dims;
use tensor_terms::{among, next_among, next_other, others, span};
use tensor_values::Reducer;
use tensor_views::offsets;

/// A reduction over axes, made ready to be evaluated by ranges of places. All threads that evaluate
/// ranges share it.
///
/// The operand is seen as rows: the values along the axes before the first dropped one, which lie
/// side by side. The rows along the first dropped axis and the dropped axes right after it lie one
/// after the other, in a run. The runs along the kept axes right after these lie one after the
/// other, in a group. Values are combined in the order of the places of the dropped index lists.
#[derive(Drop)]
pub(crate) struct Reduction<'a> {
    reducer: Reducer,
    values: CowSlice<'a, i64, Global>,
    /// The number of values of a row.
    width: usize,
    /// The number of rows of a run.
    run: usize,
    /// The number of runs of a group.
    group: usize,
    /// For each group, its first place. There is one for each index list of the kept axes after the
    /// axes of a group.
    starts: Vec<usize>,
    /// For each run of a row of the result, how far it begins behind the first one. There is one
    /// for each index list of the dropped axes after the first run.
    offsets: Vec<usize>,
    ghost few: { length (cow_slice_items values) ≤ most_elements },
    ghost narrow: { width ≤ most_elements },
    ghost near: { group * (width * run) ≤ most_elements },
    ghost few_starts: { length starts.items ≤ most_elements },
    ghost starts_low: { (k : ℕ) → k < length starts.items
        → slice_index starts.items k < most_elements },
    ghost offsets_low: { (k : ℕ) → k < length offsets.items
        → slice_index offsets.items k < most_elements },
    ghost inside: { (p q : ℕ) → p < length starts.items * group * width
        → q < length offsets.items * run
        → start_at starts.items group width run p + offset_at offsets.items width run q
        < length (cow_slice_items values) },
}

impl<'a> Reduction<'a> {
    ghost use Rattle.tensor_ops.specs.private.Reduced.{places_of_result, combined_at, reduction_at};
    ghost use Rattle.tensor_terms.specs.Reduction.{reduced};
    ghost use Rattle.tensor_terms.specs.Merged.{other_dims};

    /// Returns a reduction of the values of a tensor over axes. Axes past the rank are ignored.
    /// Takes 8 bytes for each index list of the dropped axes after the first run, and for each of
    /// the kept axes after the axes of a group. If the dropped axes lie next to each other, these
    /// are 16 bytes together.
    pub(crate) fn of(
        alloc: Global,
        reducer: Reducer,
        dims: &Dims,
        values: CowSlice<'a, i64, Global>,
        axes: &[u64],
    ) -> Result<Reduction<'a>, AllocError>
        requires { length (cow_slice_items values) ≡ size_of dims.now }
        ensures size { IfOk result (λ s. places_of_result s
            ≡ size_of (other_dims axes.now dims.now)) }
        ensures each { IfOk result (λ s. (p : ℕ) → p < size_of (other_dims axes.now dims.now)
            → reduction_at s p ≡ reduced reducer axes.now dims.now
            (λ is. value_in (cow_slice_items values.entry) (place dims.now is))
            (index_of (other_dims axes.now dims.now) p)) }
    {
        let sizes = dims.as_slice();
        let rank = sizes.len() as u64;
        let first = next_among(axes, 0, rank);
        let after = next_other(axes, first, rank);
        let further = next_among(axes, after, rank);
        let starts = offsets(alloc, dims, others(axes, further, rank).as_slice())?;
        let offsets = offsets(alloc, dims, among(axes, after, rank).as_slice())?;
        Ok(Reduction {
            reducer,
            values,
            width: span(sizes, 0, first as usize),
            run: span(sizes, first as usize, after as usize),
            group: span(sizes, after as usize, further as usize),
            starts,
            offsets,
        })
    }

    /// Returns the values at the places `[first, last)` of the result, in order. `alloc` allocates
    /// them.
    pub(crate) fn values<A: Allocator>(
        &self,
        alloc: A,
        first: usize,
        last: usize,
    ) -> Result<Vec<i64, A>, AllocError>
        requires order { first ≤ last }
        requires within { last ≤ places_of_result self.now }
        ensures { IfOk result (λ v. v.items
            ≡ map (reduction_at self.now) (range_with_len first (last - first))) }
    {
        let mut values = vec![in alloc; self.reducer.unit(); last - first]?;
        self.combine(first, &mut values);
        Ok(values)
    }

    /// Writes the values of the places from `first` of the result on, in order, as many as `out`
    /// has room for. Takes no memory.
    pub(crate) fn fill(&self, first: usize, out: &mut [i64])
        requires { first + length out.old ≤ places_of_result self.now }
        ensures len { length out.new ≡ length out.old }
        ensures each { (k : ℕ) → k < length out.old
            → value_in out.new k ≡ reduction_at self.now (first + k) }
    {
        put_all(out, self.reducer.unit());
        self.combine(first, out);
    }

    /// Combines each value of `target` with the operand's values for its place of the result. The
    /// first value is at place `first`.
    fn combine(&self, first: usize, target: &mut [i64])
        requires { first + length target.old ≤ places_of_result self.now }
        ensures len { length target.new ≡ length target.old }
        ensures each { (j : ℕ) → j < length target.old → value_in target.new j
            ≡ combined_at self.now self.now.reducer (value_in target.old j) (first + j) }
    {
        match self.reducer {
            Reducer::Sum => self.combine_by(Reducer::Sum, first, target),
            Reducer::Prod => self.combine_by(Reducer::Prod, first, target),
            Reducer::Max => self.combine_by(Reducer::Max, first, target),
            Reducer::Min => self.combine_by(Reducer::Min, first, target),
            Reducer::All => self.combine_by(Reducer::All, first, target),
            Reducer::Any => self.combine_by(Reducer::Any, first, target),
        }
    }

    /// Combines row by row, with a reducer that is known where this is compiled. The first and the
    /// last row may be parts of rows.
    #[inline(always)]
    fn combine_by(&self, reducer: Reducer, first: usize, target: &mut [i64])
        requires { first + length target.old ≤ places_of_result self.now }
        ensures len { length target.new ≡ length target.old }
        ensures each { (j : ℕ) → j < length target.old → value_in target.new j
            ≡ combined_at self.now reducer (value_in target.old j) (first + j) }
    {
        let size = target.len();
        if size == 0 {
            return;
        }
        let values = self.values.as_slice();
        let offsets = self.offsets.as_slice();
        let step = self.width * self.run;
        let mut group = first / self.width / self.group;
        let mut row = first / self.width % self.group;
        let mut index = first % self.width;
        let mut done = 0;
        'rows: while done < size {
            let count = (self.width - index).min(size - done);
            let part = &mut target[done..done + count];
            let start = self.starts[group] + row * step + index;
            combine_runs(reducer, part, values, start, self.width, self.run, offsets);
            done += count;
            (group, row) = next_row(group, row, self.group);
            index = 0;
        }
    }
}

/// Returns the group of the next row, and its number in this group. A group has `count` rows.
#[inline(always)]
fn next_row(group: usize, row: usize, count: usize) -> (usize, usize)
    requires few { group < most_elements }
    requires within { row < count }
    ensures within { result.1 < count }
    ensures next { result.0 * count + result.1 ≡ group * count + row + 1 }
{
    if row + 1 < count {
        (group, row + 1)
    } else {
        (group + 1, 0)
    }
}

/// Writes a value at all places.
fn put_all(out: &mut [i64], value: i64)
    ensures len { length out.new ≡ length out.old }
    ensures each { (k : ℕ) → k < length out.old → value_in out.new k ≡ value }
{
    out.fill(value);
}
