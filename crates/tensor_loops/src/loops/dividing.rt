//! Divisions of many values by one number above 0, as multiplications by its inverse. `combine_row`
//! and `put_combined` choose this way; no value depends on it.

ghost use Rattle.std.specs.Prelude.{◌≡◌, ◌<◌, ◌≤◌, ◌+◌, ◌<ℤ◌, ℕ, pos, length, slice_index_or};
ghost use Rattle.std.specs.Prelude.{IsTrue, false};
ghost use Rattle.tensor_values.specs.Scalars.{combined};

use crate::loops::chain::Link;
use crate::loops::inverse::Inverse;
use tensor_values::BinaryScalar;

/// Whether an operation on values and one number is a division of the values by that number, and
/// the number is above 0.
#[inline(always)]
pub(crate) fn divides_by(link: Link, other: i64) -> bool
    ensures order { IsTrue result → link.swapped ≡ false }
    ensures above { IsTrue result → pos 0 <ℤ other }
{
    let operation = link.operation;
    matches!(
        operation,
        BinaryScalar::FloorDivide | BinaryScalar::Remainder
    ) && !link.swapped
        && 0 < other
}

/// A division of values by one number above 0.
#[derive(Clone, Copy, Drop)]
pub(crate) struct Division {
    /// The operation, which loops know at compile time.
    pub operation: BinaryScalar,
    /// The inverse of the number.
    pub inverse: Inverse,
}

impl Division {
    /// Replaces `count` values from index `at` on by the results of the operation on them and the
    /// divisor.
    #[inline(always)]
    pub(crate) fn divide_each(self, values: &mut [i64], at: usize, count: usize)
        requires { at + count ≤ length values.old }
        ensures len { length values.new ≡ length values.old }
        ensures each { (k : ℕ) → k < count → slice_index_or values.new (at + k) (pos 0)
            ≡ combined self.operation (slice_index_or values.old (at + k) (pos 0))
            (pos self.inverse.divisor) }
        ensures before { (k : ℕ) → k < at
            → slice_index_or values.new k (pos 0) ≡ slice_index_or values.old k (pos 0) }
        ensures after { (k : ℕ) → at + count ≤ k
            → slice_index_or values.new k (pos 0) ≡ slice_index_or values.old k (pos 0) }
    {
        for k in 0..count {
            values[at + k] = self.inverse.combined(self.operation, values[at + k]);
        }
    }
}
