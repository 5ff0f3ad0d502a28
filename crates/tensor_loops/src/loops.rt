//! Loops over values, one for each number of operands. `with_constant` and `with_link` make the
//! operation a constant where its loop is called, so that the compiler makes a loop for each
//! operation, without a test in it. The meaning of an operation is in `specs/Scalars` of
//! tensor_values.

/// Evaluates an expression for each operation on one value. In it, the operation is a constant.
macro_rules! with_constant {
    (($($name:ident)*), $operation:ident, $body:expr) => {
        match $operation {
            $(UnaryScalar::$name => {
                let $operation = UnaryScalar::$name;
                $body
            })*
        }
    };
}

/// Evaluates an expression for each operation on two values. In it, the operation of the link is a
/// constant. A function uses it at most twice. The compiler drops `inline(always)` where a function
/// would grow very large, and then all operations share a slow loop.
macro_rules! with_link {
    (($($name:ident)*), $link:ident, $body:expr) => {
        match $link.operation {
            $(BinaryScalar::$name => {
                let $link = Link { operation: BinaryScalar::$name, ..$link };
                $body
            })*
        }
    };
}

pub(crate) mod chain;
pub(crate) mod combining;
mod dividing;
mod inverse;
pub(crate) mod putting;

ghost use Rattle.std.specs.Prelude.{◌≡◌, ◌<◌, ◌≤◌, ◌+◌, ℕ, pos, length, slice_index_or};
ghost use Rattle.std.specs.Prelude.{if◌then◌else◌, false};
ghost use Rattle.tensor_loops.specs.Loops.{either_way, selected, CombinesRow};
ghost use Rattle.tensor_values.specs.Scalars.{applied, combined, is_true};
ghost use Rattle.tensor_values.specs.declared.operations.BinaryScalar.TheVariants.{FloorDivide};
ghost use Rattle.tensor_views.specs.View.{IsRowIn};

use crate::loops::chain::Link;
use crate::loops::dividing::{Division, divides_by};
use crate::loops::inverse::Inverse;
use tensor_values::{
    BinaryScalar, UnaryScalar, applied, binary_names, combined, is_true, unary_names,
};
use tensor_views::{Row, steps_to};

/// The order in which the operands of a select are evaluated. The named operand comes first; the
/// other two follow in the order condition, yes, no.
#[derive(Clone, Copy, Drop)]
pub enum SelectOrder {
    /// The condition, the value for yes, the value for no.
    ConditionFirst,
    /// The value for yes, the condition, the value for no.
    YesFirst,
    /// The value for no, the condition, the value for yes.
    NoFirst,
}

/// Replaces each value by the result of the operation on it.
pub fn apply(operation: UnaryScalar, values: &mut [i64])
    ensures len { length values.new ≡ length values.old }
    ensures each { (k : ℕ) → k < length values.old → slice_index_or values.new k (pos 0)
        ≡ applied operation (slice_index_or values.old k (pos 0)) }
{
    unary_names!(with_constant, operation, apply_each(operation, values))
}

/// Replaces each value by the result of the operation on it and the other list's value at its
/// index. If the link is swapped, the other value is the first operand.
pub fn combine(link: Link, values: &mut [i64], others: &[i64])
    requires { length values.old ≡ length others.now }
    ensures len { length values.new ≡ length others.now }
    ensures each { (k : ℕ) → k < length others.now → slice_index_or values.new k (pos 0)
        ≡ either_way link.operation link.swapped (slice_index_or values.old k (pos 0))
        (slice_index_or others.now k (pos 0)) }
{
    combine_row(link, values, 0, others, Row::whole(others.len()));
}

/// Replaces the values from index `at` on by the result of the operation on them and the list's
/// values along a row. If the link is swapped, the list's value is the first operand.
pub fn combine_row(link: Link, values: &mut [i64], at: usize, list: &[i64], row: Row)
    requires row { IsRowIn row (length list.now) }
    requires room { at + row.count ≤ length values.old }
    ensures { CombinesRow link.operation link.swapped values.old list.now row at row.count
        values.new }
{
    match (row.axis.step, row.axis.reversed) {
        (1, false) => combine_known::<1, false>(link, values, at, list, row),
        (1, true) => combine_known::<1, true>(link, values, at, list, row),
        (0, false) => {
            binary_names!(
                with_link,
                link,
                combine_repeated(link, values, at, list, row)
            )
        }
        _ => binary_names!(with_link, link, combine_each(link, values, at, list, row)),
    }
}

/// Replaces each value by the result of a select. The order says which operands `values`, `second`
/// and `third` are.
pub fn select(order: SelectOrder, values: &mut [i64], second: &[i64], third: &[i64])
    requires second { length values.old ≡ length second.now }
    requires third { length values.old ≡ length third.now }
    ensures len { length values.new ≡ length second.now }
    ensures each { (k : ℕ) → k < length second.now → slice_index_or values.new k (pos 0)
        ≡ selected order (slice_index_or values.old k (pos 0))
        (slice_index_or second.now k (pos 0)) (slice_index_or third.now k (pos 0)) }
{
    match order {
        SelectOrder::ConditionFirst => {
            select_each(SelectOrder::ConditionFirst, values, second, third)
        }
        SelectOrder::YesFirst => select_each(SelectOrder::YesFirst, values, second, third),
        SelectOrder::NoFirst => select_each(SelectOrder::NoFirst, values, second, third),
    }
}

/// Replaces each value by the result of the operation, which is a constant at compile time.
#[inline(always)]
fn apply_each(operation: UnaryScalar, values: &mut [i64])
    ensures len { length values.new ≡ length values.old }
    ensures each { (k : ℕ) → k < length values.old → slice_index_or values.new k (pos 0)
        ≡ applied operation (slice_index_or values.old k (pos 0)) }
{
    for place in 0..values.len() {
        values[place] = applied(operation, values[place]);
    }
}

/// Combines values with a list's values along a row whose step and direction are constants.
fn combine_known<const STEP: usize, const REVERSED: bool>(
    link: Link,
    values: &mut [i64],
    at: usize,
    list: &[i64],
    row: Row,
)
    requires step { row.axis.step ≡ STEP }
    requires way { row.axis.reversed ≡ REVERSED }
    requires row { IsRowIn row (length list.now) }
    requires room { at + row.count ≤ length values.old }
    ensures { CombinesRow link.operation link.swapped values.old list.now row at row.count
        values.new }
{
    let row = row.known(STEP, REVERSED);
    binary_names!(with_link, link, combine_each(link, values, at, list, row))
}

/// Combines values with the one value of a list that a row repeats. To divide by a number above 0,
/// it multiplies by the inverse of the number.
#[inline(always)]
fn combine_repeated(link: Link, values: &mut [i64], at: usize, list: &[i64], row: Row)
    requires step { row.axis.step ≡ 0 }
    requires way { row.axis.reversed ≡ false }
    requires row { IsRowIn row (length list.now) }
    requires room { at + row.count ≤ length values.old }
    ensures { CombinesRow link.operation link.swapped values.old list.now row at row.count
        values.new }
{
    if 0 < row.count && divides_by(link, list[row.start]) {
        let operation = link.operation;
        let inverse = Inverse::of(list[row.start]);
        Division { operation, inverse }.divide_each(values, at, row.count);
    } else {
        combine_each(link, values, at, list, row.known(0, false));
    }
}

/// Combines values with a list's values along a row, one by one.
#[inline(always)]
fn combine_each(link: Link, values: &mut [i64], at: usize, list: &[i64], row: Row)
    requires row { IsRowIn row (length list.now) }
    requires room { at + row.count ≤ length values.old }
    ensures { CombinesRow link.operation link.swapped values.old list.now row at row.count
        values.new }
{
    for k in 0..row.count {
        let other = list[row.start + steps_to(row.axis, row.from + k) * row.axis.step];
        values[at + k] = either_way(link, values[at + k], other);
    }
}

/// Replaces each value by the result of a select, whose order is a constant at compile time.
#[inline(always)]
fn select_each(order: SelectOrder, values: &mut [i64], second: &[i64], third: &[i64])
    requires second { length values.old ≡ length second.now }
    requires third { length values.old ≡ length third.now }
    ensures len { length values.new ≡ length second.now }
    ensures each { (k : ℕ) → k < length second.now → slice_index_or values.new k (pos 0)
        ≡ selected order (slice_index_or values.old k (pos 0))
        (slice_index_or second.now k (pos 0)) (slice_index_or third.now k (pos 0)) }
{
    for place in 0..second.len() {
        values[place] = selected(order, values[place], second[place], third[place]);
    }
}

/// Returns the result of the operation on x and y, or on y and x if the link is swapped.
#[inline(always)]
pub(crate) fn either_way(link: Link, x: i64, y: i64) -> i64
    ensures { result ≡ either_way link.operation link.swapped x y }
{
    if link.swapped {
        result_of(link.operation, y, x)
    } else {
        result_of(link.operation, x, y)
    }
}

/// Returns the result of the operation on x and y. A quotient is a call, since vector code would
/// divide twice for it.
#[inline(always)]
fn result_of(operation: BinaryScalar, x: i64, y: i64) -> i64
    ensures { result ≡ combined operation x y }
{
    match operation {
        BinaryScalar::FloorDivide => quotient(x, y),
        _ => combined(operation, x, y),
    }
}

/// Returns the quotient of x and y, rounded down.
#[inline(never)]
fn quotient(x: i64, y: i64) -> i64
    ensures { result ≡ combined FloorDivide x y }
{
    combined(BinaryScalar::FloorDivide, x, y)
}

/// Returns the value of a select, given its operands in the order in which they were evaluated.
#[inline(always)]
fn selected(order: SelectOrder, first: i64, second: i64, third: i64) -> i64
    ensures { result ≡ selected order first second third }
{
    match order {
        SelectOrder::ConditionFirst => chosen(first, second, third),
        SelectOrder::YesFirst => chosen(second, first, third),
        SelectOrder::NoFirst => chosen(second, third, first),
    }
}

/// Returns `yes` if the condition is true, else `no`.
#[inline(always)]
fn chosen(condition: i64, yes: i64, no: i64) -> i64
    ensures { result ≡ (if is_true condition then yes else no) }
{
    if is_true(condition) { yes } else { no }
}
