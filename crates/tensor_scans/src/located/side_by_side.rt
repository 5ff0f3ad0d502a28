//! Argmax and argmin of lines whose values lie side by side (stride 1). The best value is computed
//! chunk by chunk. Its place is searched at the end, in the last chunk that changed the best value.
//! No result depends on `CHUNK`.

ghost use Rattle.std.specs.Prelude.{◌≡◌, ◌<◌, ◌≤◌, ◌+◌, ℕ, length, false};
ghost use Rattle.std.specs.List.{fold};
ghost use Rattle.tensor_scans.specs.Lines.{first_place, is_cumulative, outcome};
ghost use Rattle.tensor_scans.specs.Places.{along_at, line_values};
ghost use Rattle.tensor_values.specs.Combining.{combine};
ghost use Rattle.tensor_values.specs.Values.{value_in};

use crate::along::AlongLines;
use crate::operation::LineOperation;
use tensor_values::Reducer;

/// The number of values in a chunk: large enough that testing for a new best value costs little,
/// and small enough that searching one chunk costs little.
const CHUNK: usize = 128;

impl AlongLines<'_> {
    /// Writes the first number of the greatest or the least value of each line, at the result
    /// places `[first, first + out.len())`.
    #[inline(always)]
    pub(crate) fn fill_side_by_side(self, first: usize, out: &mut [i64])
        requires single { is_cumulative self.operation ≡ false }
        requires some { 0 < self.lines.length }
        requires stride { self.lines.stride ≡ 1 }
        requires within { first + length out.old ≤ line_values self.lines 1 }
        ensures len { length out.new ≡ length out.old }
        ensures each { (k : ℕ) → k < length out.old → value_in out.new k
            ≡ along_at self.entry.operation self.entry.lines (value_in self.entry.values.now)
            (first + k) }
    {
        let length = self.lines.length;
        for k in 0..out.len() {
            let start = (first + k) * length;
            out[k] = first_of(self.operation, &self.values[start..start + length]);
        }
    }
}

/// Returns the first place of the greatest or the least value; 0 if there are no values.
#[inline(always)]
fn first_of(operation: LineOperation, values: &[i64]) -> i64
    requires { is_cumulative operation ≡ false }
    ensures { result ≡ outcome operation values.now }
{
    let reducer = operation.reducer();
    let mut best = reducer.unit();
    let mut chunk = 0;
    let mut next = 0;
    while next < values.len() {
        let end = (next + CHUNK).min(values.len());
        let combined = combined_with(reducer, best, &values[next..end]);
        if combined != best {
            best = combined;
            chunk = next;
        }
        next = end;
    }
    (chunk + place_of(best, &values[chunk..])) as i64
}

/// Combines `value` with all `others`, one after the other.
#[inline(always)]
fn combined_with(reducer: Reducer, value: i64, others: &[i64]) -> i64
    ensures { result ≡ fold (combine reducer) value others.now }
{
    let mut all = value;
    for other in others {
        all = reducer.combine(all, *other);
    }
    all
}

/// Returns the first place of `value` in `values`; the length if it isn't there.
#[inline(always)]
fn place_of(value: i64, values: &[i64]) -> usize
    ensures { result ≡ first_place value values.now }
{
    for k in 0..values.len() {
        if values[k] == value {
            return k;
        }
    }
    values.len()
}
