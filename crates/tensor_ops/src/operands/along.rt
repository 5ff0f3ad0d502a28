//! Operations along lines of a list, and takes of lines, by ranges of places of the result. The
//! values are defined in specs/private/LineResults.

ghost use Rattle.std.specs.Prelude.{◌≡◌, ◌<◌, ◌≤◌, ◌+◌, ◌-◌, ℕ, length, map, IfOk};
ghost use Rattle.std.specs.Cow.{cow_slice_items};
ghost use Rattle.std.specs.List.{range_with_len};
ghost use Rattle.tensor_scans.specs.Places.{line_values};
ghost use Rattle.tensor_values.specs.Values.{value_in};

use std::alloc::{AllocError, Allocator, Global};
use std::borrow::CowSlice;
use tensor_scans::{AlongLines, LineOperation, Lines, TakenLines};

/// What is done with each line.
#[derive(Drop)]
pub(crate) enum PerLine<'a> {
    /// An operation along the line.
    Operation(LineOperation),
    /// A take of the line's values at these numbers.
    Taken(CowSlice<'a, i64, Global>),
}

/// Lines of a list, made ready to be evaluated by ranges of places of the result. All threads that
/// evaluate ranges share them. A range of a cumulative operation reads its lines from their
/// beginning.
#[derive(Drop)]
pub(crate) struct LineResults<'a> {
    pub(crate) lines: Lines,
    pub(crate) values: CowSlice<'a, i64, Global>,
    pub(crate) per_line: PerLine<'a>,
    ghost whole: { length (cow_slice_items values) ≡ line_values lines lines.length },
}

impl<'a> LineResults<'a> {
    ghost use Rattle.tensor_ops.specs.private.LineResults.{places_along, value_along};

    /// Returns the values at the places `[first, last)` of the result, in order. `alloc` allocates
    /// them.
    pub(crate) fn values<A: Allocator>(
        &self,
        alloc: A,
        first: usize,
        last: usize,
    ) -> Result<Vec<i64, A>, AllocError>
        requires order { first ≤ last }
        requires within { last ≤ places_along self.now }
        ensures { IfOk result (λ v. v.items
            ≡ map (value_along self.now) (range_with_len first (last - first))) }
    {
        let mut values = vec![in alloc; 0; last - first]?;
        self.fill(first, &mut values);
        Ok(values)
    }

    /// Writes the values of the places from `first` of the result on, in order, as many as `out`
    /// has room for. Takes no memory.
    pub(crate) fn fill(&self, first: usize, out: &mut [i64])
        requires { first + length out.old ≤ places_along self.now }
        ensures len { length out.new ≡ length out.old }
        ensures each { (k : ℕ) → k < length out.old
            → value_in out.new k ≡ value_along self.now (first + k) }
    {
        let (lines, values) = (self.lines, self.values.as_slice());
        match &self.per_line {
            PerLine::Operation(operation) => {
                let along = AlongLines {
                    operation: *operation,
                    lines,
                    values,
                };
                along.fill(first, out);
            }
            PerLine::Taken(numbers) => {
                let taken = TakenLines {
                    lines,
                    values,
                    numbers: numbers.as_slice(),
                };
                taken.fill(first, out);
            }
        }
    }
}
