//! An operation on a line, one value after the other. A change touches `specs/Progress`, and the
//! cursor of tensor_terms, which evaluates single places like this.

ghost use Rattle.std.specs.Prelude.{◌≡◌, ℤ, pos, List, [], ◌∷◌, ◌++◌, length, ◌<◌, ◌^◌};
ghost use Rattle.tensor_scans.specs.Lines.{outcome};

use crate::operation::LineOperation;

/// The state of an operation after the first values of a line.
#[derive(Clone, Copy, Debug, Drop)]
pub struct Progress {
    /// The values seen so far, combined.
    pub(crate) combined: i64,
    /// The number at which `combined` stands first; 0 if no value was seen.
    pub(crate) first: u64,
    /// The number of values seen so far.
    pub(crate) count: u64,
}

impl Progress {
    ghost use Rattle.tensor_scans.specs.Progress.{IsProgress};

    /// Returns the state before the first value.
    #[inline(always)]
    pub fn start(operation: LineOperation) -> Progress
        ensures { IsProgress operation [] result }
    {
        Progress {
            combined: operation.reducer().unit(),
            first: 0,
            count: 0,
        }
    }

    /// Returns the state after one more value. The operation must be the one that it began with.
    #[inline(always)]
    pub fn after(self, operation: LineOperation, value: i64) -> Progress
        requires { self.count < 2 ^ 63 }
        ensures { (xs : List ℤ) → IsProgress operation xs self
            → IsProgress operation (xs ++ value ∷ []) result }
    {
        let combined = operation.reducer().combine(self.combined, value);
        let first = if combined == self.combined {
            self.first
        } else {
            self.count
        };
        Progress {
            combined,
            first,
            count: self.count + 1,
        }
    }

    /// Returns the result of the operation on the values seen so far.
    #[inline(always)]
    pub fn outcome(self, operation: LineOperation) -> i64
        requires { self.count < 2 ^ 63 }
        ensures { (xs : List ℤ) → IsProgress operation xs self → result ≡ outcome operation xs }
    {
        if operation.is_cumulative() {
            self.combined
        } else {
            self.first.cast_signed()
        }
    }
}
