//! Argmax and argmin: the number at which the greatest or the least value of each line stands
//! first. The two modules are loops of one meaning, for stride 1 and for any other stride. A change
//! of what they return touches `specs/Lines`.

mod by_rows;
mod side_by_side;

ghost use Rattle.std.specs.Prelude.{◌≡◌, ◌<◌, ◌≤◌, ◌+◌, ℕ, length, false};
ghost use Rattle.tensor_scans.specs.Lines.{is_cumulative};
ghost use Rattle.tensor_scans.specs.Places.{along_at, line_values};
ghost use Rattle.tensor_values.specs.Values.{value_in};

use crate::along::AlongLines;
use crate::operation::LineOperation;

impl AlongLines<'_> {
    /// Writes the first number of the greatest or the least value of each line at the result places
    /// `[first, first + out.len())`; 0 for lines without values. The operation is a constant at
    /// compile time.
    #[inline(always)]
    pub(crate) fn fill_located(self, operation: LineOperation, first: usize, out: &mut [i64])
        requires single { is_cumulative operation ≡ false }
        requires within { first + length out.old ≤ line_values self.lines 1 }
        ensures len { length out.new ≡ length out.old }
        ensures each { (k : ℕ) → k < length out.old → value_in out.new k
            ≡ along_at operation self.entry.lines (value_in self.entry.values.now) (first + k) }
    {
        let (lines, values) = (self.lines, self.values);
        if lines.length == 0 {
            set_all(out, 0);
            return;
        }
        let along = AlongLines {
            operation,
            lines,
            values,
        };
        if lines.stride == 1 {
            along.fill_side_by_side(first, out);
        } else {
            along.fill_by_rows(first, out);
        }
    }
}

/// Sets all values to `value`.
#[inline(always)]
fn set_all(values: &mut [i64], value: i64)
    ensures len { length values.new ≡ length values.old }
    ensures each { (k : ℕ) → k < length values.old → value_in values.new k ≡ value }
{
    for place in values.iter_mut() {
        *place = value;
    }
}
