//! Chains: operations one after the other, each on the value so far and the value of one operand
//! that all of them share. The operand is gathered once for the whole chain. The lowering of
//! tensor_ops finds the chains; the meaning is in `specs/Chain`.

ghost use Rattle.std.specs.Prelude.{◌≡◌, ◌<◌, ℕ, pos, length, slice_index_or, IsTrue};
ghost use Rattle.tensor_loops.specs.Chain.{chained, AreSame};

use crate::loops::combine;
use tensor_values::BinaryScalar;
use tensor_views::{Axis, Reading};

/// The longest lists that are compared with each other. A longer list takes longer to compare, and
/// sharing it saves less.
const MOST_COMPARED: usize = 4096;

/// An operation of a chain, and the order of its operands.
#[derive(Clone, Copy, Drop)]
pub struct Link {
    /// The operation.
    pub operation: BinaryScalar,
    /// Whether the shared operand's value is the first operand.
    pub swapped: bool,
}

/// Replaces each value by the result of all operations of a chain, one after the other.
pub fn combine_chain(links: &[Link], values: &mut [i64], operand: &[i64])
    requires { length values.old ≡ length operand.now }
    ensures len { length values.new ≡ length operand.now }
    ensures each { (k : ℕ) → k < length operand.now → slice_index_or values.new k (pos 0)
        ≡ chained links.now (slice_index_or values.old k (pos 0))
        (slice_index_or operand.now k (pos 0)) }
{
    for link in links {
        combine(*link, values, operand);
    }
}

/// Whether two readings are known to read equal values: equal views, of short and equal lists.
/// False says nothing.
pub fn are_same(first: &Reading<'_>, second: &Reading<'_>) -> bool
    ensures { IsTrue result → AreSame first.now second.now }
{
    if first.view.start != second.view.start {
        return false;
    }
    if !are_same_axes(first.view.axes, second.view.axes) {
        return false;
    }
    first.list.len() <= MOST_COMPARED && first.list == second.list
}

/// Whether two lists of axes are equal.
fn are_same_axes(first: &[Axis], second: &[Axis]) -> bool
    ensures { IsTrue result → first.now ≡ second.now }
{
    if first.len() != second.len() {
        return false;
    }
    for k in 0..first.len() {
        if !is_same_axis(first[k], second[k]) {
            return false;
        }
    }
    true
}

/// Whether two axes are equal.
fn is_same_axis(axis: Axis, other: Axis) -> bool
    ensures { IsTrue result → axis ≡ other }
{
    axis.size == other.size && axis.step == other.step && axis.reversed == other.reversed
}
