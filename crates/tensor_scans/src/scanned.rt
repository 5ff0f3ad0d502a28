//! Cumulative operations: each value of a line combined with all values before it, for a range of
//! result places. A change of the order of the loops touches `specs/private/Rows` and no meaning.

ghost use Rattle.std.specs.Prelude.{◌≡◌, ◌<◌, ◌≤◌, ◌+◌, ◌%◌, ℕ, length, take};
ghost use Rattle.tensor_scans.specs.Places.{line_values};
ghost use Rattle.tensor_scans.specs.private.Rows.{Follows, cumulated_at, running_at};
ghost use Rattle.tensor_values.specs.Combining.{combination, combine, unit};
ghost use Rattle.tensor_values.specs.Values.{value_in};

use crate::along::AlongLines;
use tensor_values::Reducer;

impl AlongLines<'_> {
    /// Writes the running combinations at the result places `[first, first + out.len())`, block by
    /// block. The reducer is a constant at compile time.
    #[inline(always)]
    pub(crate) fn fill_cumulative(self, reducer: Reducer, first: usize, out: &mut [i64])
        requires { first + length out.old ≤ line_values self.lines self.lines.length }
        ensures len { length out.new ≡ length out.old }
        ensures each { (k : ℕ) → k < length out.old → value_in out.new k
            ≡ cumulated_at reducer self.entry.lines (value_in self.entry.values.now) (first + k) }
    {
        if out.is_empty() {
            return;
        }
        let stride = self.lines.stride;
        let width = stride * self.lines.length;
        let mut block = first / width;
        let mut from = first % width;
        let mut done = 0;
        while done < out.len() {
            let start = block * width;
            let count = (width - from).min(out.len() - done);
            let values = &self.values[start..start + width];
            let part = &mut out[done..done + count];
            Block { stride, values }.fill(reducer, from, part);
            done += count;
            block += 1;
            from = 0;
        }
    }
}

/// A block of lines, row after row: a row has one value of each line.
#[derive(Clone, Copy, Drop)]
struct Block<'a> {
    /// The number of values in a row.
    stride: usize,
    /// The values of the whole block.
    values: &'a [i64],
    ghost some: { 0 < stride },
}

impl Block<'_> {
    /// Writes the running combinations at the places `[from, from + out.len())` of this block.
    #[inline(always)]
    fn fill(self, reducer: Reducer, from: usize, out: &mut [i64])
        requires within { from + length out.old ≤ length self.values.now }
        ensures len { length out.new ≡ length out.old }
        ensures each { (k : ℕ) → k < length out.old → value_in out.new k
            ≡ running_at reducer self.entry.stride (value_in self.entry.values.now) (from + k) }
    {
        if self.stride == 1 {
            fill_line(reducer, self.values, from, out);
        } else {
            self.fill_rows(reducer, from, out);
        }
    }

    /// Writes the running combinations at the places `[from, from + out.len())` of a block whose
    /// rows have more than one value. Values with no predecessor in `out` are combined from the
    /// unit; each later value is its predecessor, one stride before, combined with the value of the
    /// tensor.
    #[inline(always)]
    fn fill_rows(self, reducer: Reducer, from: usize, out: &mut [i64])
        requires within { from + length out.old ≤ length self.values.now }
        ensures len { length out.new ≡ length out.old }
        ensures each { (k : ℕ) → k < length out.old → value_in out.new k
            ≡ running_at reducer self.entry.stride (value_in self.entry.values.now) (from + k) }
    {
        let stride = self.stride;
        let head = out.len().min(stride);
        let mut done = 0;
        while done < head {
            let place = from + done;
            let count = (stride - place % stride).min(head - done);
            self.fold_rows(reducer, place, &mut out[done..done + count]);
            done += count;
        }
        follow(reducer, stride, &self.values[from..], out);
    }

    /// Writes the running combinations at some places of one row: combines all rows up to that row.
    #[inline(always)]
    fn fold_rows(self, reducer: Reducer, from: usize, out: &mut [i64])
        requires some { 0 < length out.old }
        requires row { from % self.stride + length out.old ≤ self.stride }
        requires within { from + length out.old ≤ length self.values.now }
        ensures len { length out.new ≡ length out.old }
        ensures each { (k : ℕ) → k < length out.old → value_in out.new k
            ≡ running_at reducer self.entry.stride (value_in self.entry.values.now) (from + k) }
    {
        let stride = self.stride;
        let block = self.values;
        let first = from % stride;
        begin_row(reducer, out, &block[first..first + out.len()]);
        for row in 1..from / stride + 1 {
            let start = first + row * stride;
            fold_row(reducer, out, &block[start..start + out.len()]);
        }
    }
}

/// Writes the running combinations of one line at the numbers `[from, from + out.len())`. The
/// combination of the values before `from` is computed first.
#[inline(always)]
fn fill_line(reducer: Reducer, line: &[i64], from: usize, out: &mut [i64])
    requires { from + length out.old ≤ length line.now }
    ensures len { length out.new ≡ length out.old }
    ensures each { (k : ℕ) → k < length out.old
        → value_in out.new k ≡ combination reducer (take (from + k + 1) line.now) }
{
    let mut all = combined(reducer, &line[..from]);
    for i in 0..out.len() {
        all = reducer.combine(all, line[from + i]);
        out[i] = all;
    }
}

/// Combines the values, beginning with the unit.
#[inline(always)]
fn combined(reducer: Reducer, values: &[i64]) -> i64
    ensures { result ≡ combination reducer values.now }
{
    let mut all = reducer.unit();
    for value in values {
        all = reducer.combine(all, *value);
    }
    all
}

/// Writes the values of a row, each combined with the unit.
#[inline(always)]
fn begin_row(reducer: Reducer, row: &mut [i64], values: &[i64])
    requires { length row.old ≡ length values.now }
    ensures len { length row.new ≡ length row.old }
    ensures each { (i : ℕ) → i < length row.old
        → value_in row.new i ≡ combine reducer (unit reducer) (value_in values.now i) }
{
    let unit = reducer.unit();
    for i in 0..values.len() {
        row[i] = reducer.combine(unit, values[i]);
    }
}

/// Combines each value of `row` with the value at the same place in `others`.
#[inline(always)]
fn fold_row(reducer: Reducer, row: &mut [i64], others: &[i64])
    requires { length row.old ≡ length others.now }
    ensures len { length row.new ≡ length row.old }
    ensures each { (i : ℕ) → i < length row.old
        → value_in row.new i ≡ combine reducer (value_in row.old i) (value_in others.now i) }
{
    for i in 0..others.len() {
        row[i] = reducer.combine(row[i], others[i]);
    }
}

/// Replaces each value, except the first `stride` ones, by the value one stride before it combined
/// with the value at the same place in `values`.
#[inline(always)]
fn follow(reducer: Reducer, stride: usize, values: &[i64], out: &mut [i64])
    requires stride { 0 < stride }
    requires within { length out.old ≤ length values.now }
    ensures { Follows reducer stride (value_in values.now) out.old out.new }
{
    for i in stride..out.len() {
        out[i] = reducer.combine(out[i - stride], values[i]);
    }
}
