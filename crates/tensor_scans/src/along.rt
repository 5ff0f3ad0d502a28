//! Fills a range of the result of an operation along lines, in the caller's buffer. A change of
//! what is written touches `specs/Places`; `operands/along.rt` of tensor_ops calls it.

ghost use Rattle.std.specs.Prelude.{◌≡◌, ◌<◌, ◌≤◌, ◌+◌, ℕ, length};
ghost use Rattle.tensor_scans.specs.Lines.{width_of};
ghost use Rattle.tensor_scans.specs.Places.{along_at, line_values};
ghost use Rattle.tensor_values.specs.Values.{value_in};

use crate::lines::Lines;
use crate::operation::LineOperation;
use tensor_values::Reducer;

/// An operation along one axis, and the tensor that it reads.
#[derive(Clone, Copy, Drop)]
pub struct AlongLines<'a> {
    /// The operation on each line.
    pub operation: LineOperation,
    /// Where the lines lie in `values`.
    pub lines: Lines,
    /// The values of the tensor.
    pub values: &'a [i64],
    ghost whole: { length values.now ≡ line_values lines lines.length },
}

impl AlongLines<'_> {
    /// Writes the values of the result at the places `[first, first + out.len())` and overwrites
    /// what is in `out`. A cumulative operation also reads the values before `first` in the same
    /// lines.
    pub fn fill(self, first: usize, out: &mut [i64])
        requires { first + length out.old
            ≤ line_values self.lines (width_of self.operation self.lines.length) }
        ensures len { length out.new ≡ length out.old }
        ensures each { (k : ℕ) → k < length out.old → value_in out.new k
            ≡ along_at self.entry.operation self.entry.lines (value_in self.entry.values.now)
            (first + k) }
    {
        match self.operation {
            LineOperation::Cumsum => self.fill_cumulative(Reducer::Sum, first, out),
            LineOperation::Cumprod => self.fill_cumulative(Reducer::Prod, first, out),
            LineOperation::Argmax => self.fill_located(LineOperation::Argmax, first, out),
            LineOperation::Argmin => self.fill_located(LineOperation::Argmin, first, out),
        }
    }
}
