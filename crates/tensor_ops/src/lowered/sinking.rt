//! Sinking: each view goes down the tree to what is read by places, and is composed with the views
//! that it meets. Operations are then computed in order. What a sunk tree means is defined in
//! specs/private/Sinking.

ghost use Rattle.std.specs.Prelude.{◌≡◌, ◌<◌, ◌≤◌, ◌+◌, ℕ, IfOk};
ghost use Rattle.tensor_shape.specs.Index.{size_of};
ghost use Rattle.tensor_shape.specs.Legal.{most_elements};
ghost use Rattle.tensor_loops.specs.Loops.{either_way, selected};
ghost use Rattle.tensor_ops.specs.private.Meaning.{meaning, count_of, IsSound};
ghost use Rattle.tensor_ops.specs.private.Lowering.{Gives, IsOperationOn, meaning_at};
ghost use Rattle.tensor_values.specs.Scalars.{applied};
ghost use Rattle.tensor_ops.specs.private.Sinking.{Follows, meaning_along};
ghost use Rattle.tensor_values.specs.Interleaving.{interleaved, HaveTurns};
ghost use Rattle.tensor_views.specs.View.{view_size, reached};

use crate::lowered::Lowered;
use std::alloc::{AllocError, Global};
use tensor_loops::{Link, SelectOrder};
use tensor_shape::Dims;
use tensor_values::{Turns, UnaryScalar};
use tensor_views::{View, ViewRef};

/// Returns a lowered expression with the given dims, sunk. One without values stays as it is.
pub(crate) fn sunk_over<'a>(
    alloc: Global,
    lowered: Lowered<'a>,
    dims: &Dims,
) -> Result<Lowered<'a>, AllocError>
    requires sound { IsSound lowered }
    requires count { count_of lowered ≡ size_of dims.now }
    ensures { IfOk result (λ r. Gives r dims.now (meaning_at lowered.entry dims.now)) }
{
    if dims.size() == 0 {
        return Ok(lowered);
    }
    lowered.sunk(alloc)
}

impl<'a> Lowered<'a> {
    /// Returns this expression with its views at what is read by places. A view over another view
    /// stays if the two can't be one.
    #[cycle(sunk)]
    fn sunk(self, alloc: Global) -> Result<Lowered<'a>, AllocError>
        requires sound { IsSound self }
        requires some { 0 < count_of self }
        requires few { count_of self ≤ most_elements }
        ensures { IfOk result (λ r. Follows r (count_of self.entry) (meaning self.entry)) }
    {
        match self {
            Lowered::Unary(operation, operand) => {
                let operand = Box::into_inner(operand).sunk(alloc)?;
                each(alloc, operation, operand)
            }
            Lowered::Binary(link, first, second) => {
                let first = Box::into_inner(first).sunk(alloc)?;
                let second = Box::into_inner(second).sunk(alloc)?;
                first.chained(alloc, link, second)
            }
            Lowered::Select(order, first, second, third) => {
                let first = Box::into_inner(first).sunk(alloc)?;
                let second = Box::into_inner(second).sunk(alloc)?;
                let third = Box::into_inner(third).sunk(alloc)?;
                all(alloc, order, first, second, third)
            }
            Lowered::View(view, operand) => Box::into_inner(operand).composed(alloc, view.as_ref()),
            Lowered::Interleaved(turns, first, second) => {
                let first = Box::into_inner(first).sunk(alloc)?;
                let second = Box::into_inner(second).sunk(alloc)?;
                in_turns(alloc, turns, first, second)
            }
            list => Ok(list),
        }
    }

    /// Returns this expression at the places of a view, which goes down to what is read by places.
    #[cycle(sunk)]
    fn composed(self, alloc: Global, view: ViewRef<'_>) -> Result<Lowered<'a>, AllocError>
        requires sound { IsSound self }
        requires few { count_of self ≤ most_elements }
        requires some { 0 < view_size view.axes.now }
        requires short { view_size view.axes.now ≤ most_elements }
        requires inside { (p : ℕ) → p < view_size view.axes.now
            → reached view.start view.axes.now p < count_of self }
        ensures { IfOk result (λ r. Follows r (view_size view.entry.axes.now)
            (meaning_along self.entry view.entry.start view.entry.axes.now)) }
    {
        match self {
            Lowered::Filled(value, _) => Ok(Lowered::Filled(value, view.size())),
            Lowered::Unary(operation, operand) => {
                let operand = Box::into_inner(operand).composed(alloc, view)?;
                each(alloc, operation, operand)
            }
            Lowered::Binary(link, first, second) => {
                let first = Box::into_inner(first).composed(alloc, view)?;
                let second = Box::into_inner(second).composed(alloc, view)?;
                first.chained(alloc, link, second)
            }
            Lowered::Select(order, first, second, third) => {
                let first = Box::into_inner(first).composed(alloc, view)?;
                let second = Box::into_inner(second).composed(alloc, view)?;
                let third = Box::into_inner(third).composed(alloc, view)?;
                all(alloc, order, first, second, third)
            }
            Lowered::View(below, operand) => {
                if let Some(composition) = view.then(alloc, below.as_ref())? {
                    return Box::into_inner(operand).composed(alloc, composition.as_ref());
                }
                let operand = Box::into_inner(operand).sunk(alloc)?;
                let inner = view_over(alloc, operand, below)?;
                view_along(alloc, inner, view)
            }
            Lowered::Interleaved(turns, first, second) => {
                let first = Box::into_inner(first).sunk(alloc)?;
                let second = Box::into_inner(second).sunk(alloc)?;
                let interleaving = in_turns(alloc, turns, first, second)?;
                view_along(alloc, interleaving, view)
            }
            list => view_along(alloc, list, view),
        }
    }
}

/// Returns a lowered expression at the places of a borrowed view, which is copied.
fn view_along<'a>(
    alloc: Global,
    lowered: Lowered<'a>,
    view: ViewRef<'_>,
) -> Result<Lowered<'a>, AllocError>
    requires sound { IsSound lowered }
    requires few { count_of lowered ≤ most_elements }
    requires inside { (p : ℕ) → p < view_size view.axes.now
        → reached view.start view.axes.now p < count_of lowered }
    ensures { IfOk result (λ r. Follows r (view_size view.entry.axes.now)
        (meaning_along lowered.entry view.entry.start view.entry.axes.now)) }
{
    let view = view.copied(alloc)?;
    view_over(alloc, lowered, view)
}

/// Returns a lowered expression at the places of a view.
pub(crate) fn view_over<'a>(
    alloc: Global,
    lowered: Lowered<'a>,
    view: View,
) -> Result<Lowered<'a>, AllocError>
    requires sound { IsSound lowered }
    requires few { count_of lowered ≤ most_elements }
    requires inside { (p : ℕ) → p < view_size view.axes.items
        → reached view.start view.axes.items p < count_of lowered }
    ensures { IfOk result (λ r. Follows r (view_size view.axes.items)
        (meaning_along lowered.entry view.start view.axes.items)) }
{
    let lowered = Box::new(alloc, lowered)?;
    Ok(Lowered::View(view, lowered))
}

/// Returns an operation on each value.
fn each<'a>(
    alloc: Global,
    operation: UnaryScalar,
    operand: Lowered<'a>,
) -> Result<Lowered<'a>, AllocError>
    requires { IsSound operand }
    ensures { IfOk result (λ r. IsOperationOn r operand.entry
        (λ p. applied operation (meaning operand.entry p))) }
{
    let operand = Box::new(alloc, operand)?;
    Ok(Lowered::Unary(operation, operand))
}

/// Returns an operation on each two values.
pub(crate) fn both<'a>(
    alloc: Global,
    link: Link,
    first: Lowered<'a>,
    second: Lowered<'a>,
) -> Result<Lowered<'a>, AllocError>
    requires first { IsSound first }
    requires second { IsSound second }
    requires same { count_of second ≡ count_of first }
    ensures { IfOk result (λ r. IsOperationOn r first.entry
        (λ p. either_way link.operation link.swapped
        (meaning first.entry p) (meaning second.entry p))) }
{
    let first = Box::new(alloc, first)?;
    let second = Box::new(alloc, second)?;
    Ok(Lowered::Binary(link, first, second))
}

/// Returns a select on each three values.
pub(crate) fn all<'a>(
    alloc: Global,
    order: SelectOrder,
    first: Lowered<'a>,
    second: Lowered<'a>,
    third: Lowered<'a>,
) -> Result<Lowered<'a>, AllocError>
    requires first { IsSound first }
    requires second { IsSound second }
    requires third { IsSound third }
    requires same_second { count_of second ≡ count_of first }
    requires same_third { count_of third ≡ count_of first }
    ensures { IfOk result (λ r. IsOperationOn r first.entry (λ p. selected order
        (meaning first.entry p) (meaning second.entry p) (meaning third.entry p))) }
{
    let first = Box::new(alloc, first)?;
    let second = Box::new(alloc, second)?;
    let third = Box::new(alloc, third)?;
    Ok(Lowered::Select(order, first, second, third))
}

/// Returns two operands in turns.
fn in_turns<'a>(
    alloc: Global,
    turns: Turns,
    first: Lowered<'a>,
    second: Lowered<'a>,
) -> Result<Lowered<'a>, AllocError>
    requires first { IsSound first }
    requires second { IsSound second }
    requires turns { HaveTurns turns.first turns.second (count_of first) (count_of second) }
    ensures { IfOk result (λ r. Follows r (count_of first.entry + count_of second.entry)
        (interleaved turns.first turns.second (meaning first.entry) (meaning second.entry))) }
{
    let first = Box::new(alloc, first)?;
    let second = Box::new(alloc, second)?;
    Ok(Lowered::Interleaved(turns, first, second))
}
