//! Argmax and argmin of lines whose values lie apart (stride above 1), row by row. Two lists keep
//! what is known of each line: its best value so far, and the number where that stands first. A
//! change touches `specs/private/Firsts`.

ghost use Rattle.std.specs.Prelude.{◌≡◌, ◌<◌, ◌≤◌, ◌+◌, ◌%◌, ◌^◌, ℕ, length, false};
ghost use Rattle.tensor_scans.specs.Lines.{is_cumulative};
ghost use Rattle.tensor_scans.specs.Places.{along_at, line_values};
ghost use Rattle.tensor_scans.specs.private.Firsts.{SeesMore};
ghost use Rattle.tensor_values.specs.Values.{value_in};

use crate::along::AlongLines;
use crate::located::set_all;
use crate::operation::LineOperation;
use crate::progress::Progress;

/// How many lines are handled together: enough to read a long part of each row, and few enough for
/// their two lists to stay in the cache.
const GROUP: usize = 1024;

/// A row of a block, or a part of one: the values that some lines have at one number.
#[derive(Clone, Copy, Drop)]
struct Row<'a> {
    /// The number of these values in their lines.
    number: usize,
    /// The value of each line at this number.
    values: &'a [i64],
}

impl AlongLines<'_> {
    /// Writes the first number of the greatest or the least value of each line, at the result
    /// places `[first, first + out.len())`.
    #[inline(always)]
    pub(crate) fn fill_by_rows(self, first: usize, out: &mut [i64])
        requires single { is_cumulative self.operation ≡ false }
        requires some { 0 < self.lines.length }
        requires within { first + length out.old ≤ line_values self.lines 1 }
        ensures len { length out.new ≡ length out.old }
        ensures each { (k : ℕ) → k < length out.old → value_in out.new k
            ≡ along_at self.entry.operation self.entry.lines (value_in self.entry.values.now)
            (first + k) }
    {
        let last = first + out.len();
        let stride = self.lines.stride;
        let mut best = [0i64; GROUP];
        let mut place = first;
        while place < last {
            let behind = stride - place % stride;
            let count = behind.min(GROUP).min(last - place);
            let part = &mut out[place - first..place - first + count];
            self.fill_group(place, &mut best[..count], part);
            place += count;
        }
    }

    /// Writes the first number of the greatest or the least value for lines of one block, from
    /// result place `place` on. `best` is scratch space, one value for each line.
    #[inline(always)]
    fn fill_group(self, place: usize, best: &mut [i64], out: &mut [i64])
        requires single { is_cumulative self.operation ≡ false }
        requires some { 0 < length out.old }
        requires room { length best.old ≡ length out.old }
        requires block { place % self.lines.stride + length out.old ≤ self.lines.stride }
        requires within { place + length out.old ≤ line_values self.lines 1 }
        requires number { 0 < self.lines.length }
        ensures len { length out.new ≡ length out.old }
        ensures each { (k : ℕ) → k < length out.old → value_in out.new k
            ≡ along_at self.entry.operation self.entry.lines (value_in self.entry.values.now)
            (place + k) }
    {
        let start = self.lines.place(1, place, 0);
        set_all(best, self.operation.reducer().unit());
        set_all(out, 0);
        for number in 0..self.lines.length {
            let from = start + number * self.lines.stride;
            let values = &self.values[from..from + out.len()];
            take_row(self.operation, Row { number, values }, best, out);
        }
    }
}

/// Takes one more row: updates the best value of each line and the number where it stands first.
#[inline(always)]
fn take_row(operation: LineOperation, row: Row<'_>, best: &mut [i64], firsts: &mut [i64])
    requires single { is_cumulative operation ≡ false }
    requires few { row.number < 2 ^ 62 }
    requires best { length best.old ≡ length row.values.now }
    requires firsts { length firsts.old ≡ length row.values.now }
    ensures best { length best.new ≡ length best.old }
    ensures firsts { length firsts.new ≡ length firsts.old }
    ensures each { (k : ℕ) → k < length row.entry.values.now → SeesMore operation
        row.entry.number (value_in row.entry.values.now k)
        (value_in best.old k, value_in firsts.old k) (value_in best.new k, value_in firsts.new k) }
{
    for k in 0..row.values.len() {
        let before = Progress {
            combined: best[k],
            first: firsts[k].cast_unsigned(),
            count: row.number as u64,
        };
        let after = before.after(operation, row.values[k]);
        best[k] = after.combined;
        firsts[k] = after.first.cast_signed();
    }
}
