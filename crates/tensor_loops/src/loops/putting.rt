//! Results of operations on lists, written over a buffer in one pass, without a copy of an operand.
//! The meaning is in `specs/Putting`.

ghost use Rattle.std.specs.Prelude.{◌≡◌, ◌<◌, ℕ, pos, length, slice_index_or, IfOk};
ghost use Rattle.tensor_loops.specs.Loops.{either_way};
ghost use Rattle.tensor_loops.specs.Putting.{other_at, IsAsLong};
ghost use Rattle.tensor_values.specs.Scalars.{applied};

use crate::loops::chain::Link;
use crate::loops::dividing::{Division, divides_by};
use crate::loops::either_way;
use crate::loops::inverse::Inverse;
use std::alloc::{AllocError, Global};
use tensor_values::{BinaryScalar, UnaryScalar, applied, binary_names, unary_names};

/// The second operand of a loop over two operands.
#[derive(Clone, Copy, Drop)]
pub enum Others<'a> {
    /// The values of a list, each at its index.
    Listed(&'a [i64]),
    /// One value at every index.
    Filled(i64),
}

/// Replaces each value by the result of the operation on the list's value at its index.
pub fn put_applied(operation: UnaryScalar, values: &mut [i64], list: &[i64])
    requires { length values.old ≡ length list.now }
    ensures len { length values.new ≡ length list.now }
    ensures each { (k : ℕ) → k < length list.now → slice_index_or values.new k (pos 0)
        ≡ applied operation (slice_index_or list.now k (pos 0)) }
{
    unary_names!(
        with_constant,
        operation,
        put_each_applied(operation, values, list)
    )
}

/// Replaces each value by the result of the operation on the first list's value and the second
/// operand at its index. If the link is swapped, the second operand comes first.
pub fn put_combined(link: Link, values: &mut [i64], first: &[i64], others: Others<'_>)
    requires first { length values.old ≡ length first.now }
    requires others { IsAsLong others (length first.now) }
    ensures len { length values.new ≡ length first.now }
    ensures each { (k : ℕ) → k < length first.now → slice_index_or values.new k (pos 0)
        ≡ either_way link.operation link.swapped (slice_index_or first.now k (pos 0))
        (other_at others.entry k) }
{
    binary_names!(with_link, link, put_each(link, values, first, others))
}

/// Returns a new list of the results of the operation on the first list's values and the second
/// operand. If the link is swapped, the second operand comes first.
pub fn combined_list(
    alloc: Global,
    link: Link,
    first: &[i64],
    others: Others<'_>,
) -> Result<Vec<i64>, AllocError>
    requires { IsAsLong others (length first.now) }
    ensures len { IfOk result (λ v. length v.items ≡ length first.now) }
    ensures each { IfOk result (λ v. (k : ℕ) → k < length first.now
        → slice_index_or v.items k (pos 0)
        ≡ either_way link.operation link.swapped (slice_index_or first.now k (pos 0))
        (other_at others.entry k)) }
{
    let mut values = vec![in alloc; 0; first.len()]?;
    put_combined(link, &mut values, first, others);
    Ok(values)
}

/// Writes the results of the operation, which is a constant at compile time.
#[inline(always)]
fn put_each_applied(operation: UnaryScalar, values: &mut [i64], list: &[i64])
    requires { length values.old ≡ length list.now }
    ensures len { length values.new ≡ length list.now }
    ensures each { (k : ℕ) → k < length list.now → slice_index_or values.new k (pos 0)
        ≡ applied operation (slice_index_or list.now k (pos 0)) }
{
    for place in 0..list.len() {
        values[place] = applied(operation, list[place]);
    }
}

/// Writes the results of the operation. Each form of the second operand has a loop of its own.
#[inline(always)]
fn put_each(link: Link, values: &mut [i64], first: &[i64], others: Others<'_>)
    requires first { length values.old ≡ length first.now }
    requires others { IsAsLong others (length first.now) }
    ensures len { length values.new ≡ length first.now }
    ensures each { (k : ℕ) → k < length first.now → slice_index_or values.new k (pos 0)
        ≡ either_way link.operation link.swapped (slice_index_or first.now k (pos 0))
        (other_at others.entry k) }
{
    match others {
        Others::Listed(second) => put_of_lists(link, values, first, second),
        Others::Filled(value) if divides_by(link, value) => {
            let operation = link.operation;
            let inverse = Inverse::of(value);
            values.copy_from_slice(first);
            Division { operation, inverse }.divide_each(values, 0, first.len());
        }
        Others::Filled(value) => put_with(link, values, first, value),
    }
}

/// Writes the results of the operation on two lists.
#[inline(always)]
fn put_of_lists(link: Link, values: &mut [i64], first: &[i64], second: &[i64])
    requires first { length values.old ≡ length first.now }
    requires second { length second.now ≡ length first.now }
    ensures len { length values.new ≡ length first.now }
    ensures each { (k : ℕ) → k < length first.now → slice_index_or values.new k (pos 0)
        ≡ either_way link.operation link.swapped (slice_index_or first.now k (pos 0))
        (slice_index_or second.now k (pos 0)) }
{
    for place in 0..first.len() {
        values[place] = either_way(link, first[place], second[place]);
    }
}

/// Writes the results of the operation on a list and one value.
#[inline(always)]
fn put_with(link: Link, values: &mut [i64], first: &[i64], other: i64)
    requires { length values.old ≡ length first.now }
    ensures len { length values.new ≡ length first.now }
    ensures each { (k : ℕ) → k < length first.now → slice_index_or values.new k (pos 0)
        ≡ either_way link.operation link.swapped (slice_index_or first.now k (pos 0)) other }
{
    for place in 0..first.len() {
        values[place] = either_way(link, first[place], other);
    }
}
