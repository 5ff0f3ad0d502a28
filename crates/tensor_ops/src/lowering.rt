//! Lowering: from an expression to a tree without dims, index lists and arguments, in one walk. A
//! new operation of tensor_terms needs a case here. What each case must give is defined by `Gives`
//! in specs/private/Lowering.

pub(crate) mod axis;
pub(crate) mod convolution;
pub(crate) mod interleaving;
pub(crate) mod part;
pub(crate) mod ready;

ghost use Rattle.std.specs.Prelude.{◌≡◌, ◌^◌, length, Ok, IsTrue, IsOk, IfOk, if◌then◌else◌};
ghost use Rattle.tensor_shape.specs.Legal.{widest};
ghost use Rattle.tensor_shape.specs.Index.{size_of};
ghost use Rattle.tensor_loops.specs.Loops.{either_way, selected};
ghost use Rattle.tensor_ops.specs.private.Meaning.{meaning, count_of, IsSound};
ghost use Rattle.tensor_terms.specs.Movement.{moved, moved_dims};
ghost use Rattle.tensor_ops.specs.private.Lowering.{Gives, IsOperationOn, meaning_at};
ghost use Rattle.tensor_terms.specs.Result.{dims_of, shape_of, unary_dims, binary_dims};
ghost use Rattle.tensor_terms.specs.Tensors.{tensors_in};
ghost use Rattle.tensor_terms.specs.Term.{has_inputs};
ghost use Rattle.tensor_terms.specs.Tree.{term_of, movement_at, unary_at, binary_at};
ghost use Rattle.tensor_values.specs.Scalars.{combined, is_true};
ghost use Rattle.tensor_terms.specs.Value.{value, unary_value, binary_value};

use crate::lowered::Lowered;
use crate::lowered::sinking::{all, both, sunk_over};
use crate::lowering::axis::{lower_along, lower_take};
use crate::lowering::convolution::lower_convolution;
use crate::lowering::interleaving::{lower_concatenation, lower_pad};
use crate::lowering::part::Part;
use crate::lowering::ready::{lower_contraction, lower_reduction};
use std::alloc::{AllocError, Global};
use tensor_loops::{Link, SelectOrder};
use tensor_shape::{Dims, WIDEST};
use tensor_terms::{Binary, Expr, Movement, Node, Tensors, Ternary, Unary, moved_dims};
use tensor_values::BinaryScalar;
use tensor_views::View;

/// Returns an expression lowered. `room` is the number of places of operands of broadcasts that may
/// still be evaluated; those that are evaluated are taken off.
#[cycle(lower)]
pub(crate) fn lower<'a>(
    alloc: Global,
    expr: &Expr,
    tensors: Tensors<'a>,
    room: &mut usize,
) -> Result<Part<'a>, AllocError>
    requires inputs { IsTrue (has_inputs (term_of expr.now) (length (tensors_in tensors))) }
    requires dims { IsOk (dims_of widest (term_of expr.now) (tensors_in tensors)) }
    ensures lowered { IfOk result (λ r.
        Gives r.lowered r.dims (value (term_of expr.now) (tensors_in tensors.entry))) }
    ensures dims { IfOk result (λ r.
        r.dims ≡ shape_of (term_of expr.now) (tensors_in tensors.entry)) }
{
    match expr.node() {
        Node::Input(number) => {
            let input = tensors.get(number);
            Ok(Part {
                lowered: Lowered::Borrowed(input.values()),
                dims: input.dims().copied(),
                pieces: 0,
            })
        }
        Node::Unary(operation, operand) => {
            let operand = lower(alloc, operand, tensors, room)?;
            lower_unary(alloc, operation, operand, room)
        }
        Node::Binary(operation, first, second) => {
            let (first, second) = lower_two(alloc, first, second, tensors, room)?;
            lower_binary(alloc, operation, first, second)
        }
        Node::Ternary(Ternary::Select, condition, yes, no) => {
            let condition = lower(alloc, condition, tensors, room)?;
            let (yes, no) = lower_two(alloc, yes, no, tensors, room)?;
            lower_select(alloc, condition, yes, no)
        }
    }
}

/// Returns two expressions lowered, the first one first.
#[cycle(lower)]
pub(crate) fn lower_two<'a>(
    alloc: Global,
    first: &Expr,
    second: &Expr,
    tensors: Tensors<'a>,
    room: &mut usize,
) -> Result<(Part<'a>, Part<'a>), AllocError>
    requires first_inputs { IsTrue (has_inputs (term_of first.now) (length (tensors_in tensors))) }
    requires second_inputs { IsTrue (has_inputs (term_of second.now)
        (length (tensors_in tensors))) }
    requires first_dims { IsOk (dims_of widest (term_of first.now) (tensors_in tensors)) }
    requires second_dims { IsOk (dims_of widest (term_of second.now) (tensors_in tensors)) }
    ensures first { IfOk result (λ r.
        Gives r.0.lowered r.0.dims (value (term_of first.now) (tensors_in tensors.entry))) }
    ensures second { IfOk result (λ r.
        Gives r.1.lowered r.1.dims (value (term_of second.now) (tensors_in tensors.entry))) }
    ensures first_dims { IfOk result (λ r.
        r.0.dims ≡ shape_of (term_of first.now) (tensors_in tensors.entry)) }
    ensures second_dims { IfOk result (λ r.
        r.1.dims ≡ shape_of (term_of second.now) (tensors_in tensors.entry)) }
{
    let first = lower(alloc, first, tensors, room)?;
    let second = lower(alloc, second, tensors, room)?;
    Ok((first, second))
}

/// Returns an operation on one tensor, lowered.
fn lower_unary<'a>(
    alloc: Global,
    operation: Unary<'_>,
    operand: Part<'a>,
    room: &mut usize,
) -> Result<Part<'a>, AllocError>
    requires sound { IsSound operand.lowered }
    requires count { count_of operand.lowered ≡ size_of operand.dims }
    requires dims { IsOk (unary_dims widest (unary_at operation) operand.dims) }
    ensures lowered { IfOk result (λ r. Gives r.lowered r.dims
        (unary_value (unary_at operation.entry) operand.entry.dims
        (meaning_at operand.entry.lowered operand.entry.dims))) }
    ensures dims { IfOk result (λ r.
        unary_dims widest (unary_at operation.entry) operand.entry.dims ≡ Ok r.dims) }
{
    match operation {
        Unary::Each(operation) => {
            let lowered = Box::new(alloc, operand.lowered)?;
            Ok(Part {
                lowered: Lowered::Unary(operation, lowered),
                dims: operand.dims,
                pieces: operand.pieces.max(1),
            })
        }
        Unary::Constant(value) => {
            let count = operand.dims.size() as usize;
            Ok(Part {
                lowered: Lowered::Filled(value, count),
                dims: operand.dims,
                pieces: 0,
            })
        }
        Unary::Move(movement) => lower_movement(alloc, movement, operand, room),
        Unary::Pad(pairs) => lower_pad(alloc, pairs, operand),
        Unary::Reduce(reducer, axes) => lower_reduction(alloc, reducer, axes, operand),
        Unary::Along(operation, axis) => lower_along(alloc, operation, axis, operand),
    }
}

/// Returns an operation on two tensors, lowered.
fn lower_binary<'a>(
    alloc: Global,
    operation: Binary<'_>,
    first: Part<'a>,
    second: Part<'a>,
) -> Result<Part<'a>, AllocError>
    requires first { IsSound first.lowered }
    requires second { IsSound second.lowered }
    requires count_first { count_of first.lowered ≡ size_of first.dims }
    requires count_second { count_of second.lowered ≡ size_of second.dims }
    requires dims { IsOk (binary_dims widest (binary_at operation) first.dims second.dims) }
    ensures lowered { IfOk result (λ r. Gives r.lowered r.dims
        (binary_value (binary_at operation.entry) first.entry.dims second.entry.dims
        (meaning_at first.entry.lowered first.entry.dims)
        (meaning_at second.entry.lowered second.entry.dims))) }
    ensures dims { IfOk result (λ r.
        binary_dims widest (binary_at operation.entry) first.entry.dims second.entry.dims
        ≡ Ok r.dims) }
{
    match operation {
        Binary::Pairwise(operation) => lower_pairwise(alloc, operation, first, second),
        Binary::Concat(axis) => lower_concatenation(alloc, axis, first, second),
        Binary::Contract(pairs) => lower_contraction(alloc, pairs, first, second),
        Binary::Convolve(axes) => lower_convolution(alloc, axes, first, second),
        Binary::Take(axis) => lower_take(alloc, axis, first, second),
    }
}

/// Returns an operation on each two values, lowered. The operand that needs more pieces comes
/// first, and an operand that has one value at all places second.
fn lower_pairwise<'a>(
    alloc: Global,
    operation: BinaryScalar,
    left: Part<'a>,
    right: Part<'a>,
) -> Result<Part<'a>, AllocError>
    requires left { IsSound left.lowered }
    requires right { IsSound right.lowered }
    requires same { count_of right.lowered ≡ count_of left.lowered }
    requires dims { right.dims ≡ left.dims }
    ensures dims { IfOk result (λ r. r.dims ≡ left.entry.dims) }
    ensures lowered { IfOk result (λ r. IsOperationOn r.lowered left.entry.lowered
        (λ p. combined operation (meaning left.entry.lowered p) (meaning right.entry.lowered p))) }
{
    if left.pieces < right.pieces || left.lowered.is_filled() {
        let link = Link {
            operation,
            swapped: true,
        };
        pair(alloc, link, right, left)
    } else {
        let link = Link {
            operation,
            swapped: false,
        };
        pair(alloc, link, left, right)
    }
}

/// Returns an operation on each two values, lowered, with its operands in the given order.
fn pair<'a>(
    alloc: Global,
    link: Link,
    first: Part<'a>,
    second: Part<'a>,
) -> Result<Part<'a>, AllocError>
    requires first { IsSound first.lowered }
    requires second { IsSound second.lowered }
    requires same { count_of second.lowered ≡ count_of first.lowered }
    ensures dims { IfOk result (λ r. r.dims ≡ first.entry.dims) }
    ensures lowered { IfOk result (λ r. IsOperationOn r.lowered first.entry.lowered
        (λ p. either_way link.operation link.swapped
        (meaning first.entry.lowered p) (meaning second.entry.lowered p))) }
{
    let pieces = first.pieces.max(second.pieces.saturating_add(1));
    let dims = first.dims;
    let lowered = both(alloc, link, first.lowered, second.lowered)?;
    Ok(Part {
        lowered,
        dims,
        pieces,
    })
}

/// Returns a select, lowered. The operand that needs most pieces comes first.
fn lower_select<'a>(
    alloc: Global,
    condition: Part<'a>,
    yes: Part<'a>,
    no: Part<'a>,
) -> Result<Part<'a>, AllocError>
    requires condition { IsSound condition.lowered }
    requires yes { IsSound yes.lowered }
    requires no { IsSound no.lowered }
    requires same_yes { count_of yes.lowered ≡ count_of condition.lowered }
    requires same_no { count_of no.lowered ≡ count_of condition.lowered }
    requires dims_yes { yes.dims ≡ condition.dims }
    requires dims_no { no.dims ≡ condition.dims }
    ensures dims { IfOk result (λ r. r.dims ≡ condition.entry.dims) }
    ensures lowered { IfOk result (λ r. IsOperationOn r.lowered condition.entry.lowered
        (λ p. if is_true (meaning condition.entry.lowered p)
        then meaning yes.entry.lowered p
        else meaning no.entry.lowered p)) }
{
    if yes.pieces.max(no.pieces) <= condition.pieces {
        three(alloc, SelectOrder::ConditionFirst, condition, yes, no)
    } else if no.pieces <= yes.pieces {
        three(alloc, SelectOrder::YesFirst, yes, condition, no)
    } else {
        three(alloc, SelectOrder::NoFirst, no, condition, yes)
    }
}

/// Returns a select, lowered, with its operands in the given order.
fn three<'a>(
    alloc: Global,
    order: SelectOrder,
    first: Part<'a>,
    second: Part<'a>,
    third: Part<'a>,
) -> Result<Part<'a>, AllocError>
    requires first { IsSound first.lowered }
    requires second { IsSound second.lowered }
    requires third { IsSound third.lowered }
    requires same_second { count_of second.lowered ≡ count_of first.lowered }
    requires same_third { count_of third.lowered ≡ count_of first.lowered }
    ensures dims { IfOk result (λ r. r.dims ≡ first.entry.dims) }
    ensures lowered { IfOk result (λ r. IsOperationOn r.lowered first.entry.lowered
        (λ p. selected order (meaning first.entry.lowered p)
        (meaning second.entry.lowered p) (meaning third.entry.lowered p))) }
{
    let after = second.pieces.max(third.pieces.saturating_add(1));
    let pieces = first.pieces.max(after.saturating_add(1));
    let dims = first.dims;
    let lowered = all(alloc, order, first.lowered, second.lowered, third.lowered)?;
    Ok(Part {
        lowered,
        dims,
        pieces,
    })
}

/// Returns a movement, lowered. If it has no values, the operand is dropped.
pub(crate) fn lower_movement<'a>(
    alloc: Global,
    movement: Movement<'_>,
    operand: Part<'a>,
    room: &mut usize,
) -> Result<Part<'a>, AllocError>
    requires sound { IsSound operand.lowered }
    requires count { count_of operand.lowered ≡ size_of operand.dims }
    requires dims { IsOk (moved_dims widest (movement_at movement) operand.dims) }
    ensures dims { IfOk result (λ r.
        moved_dims widest (movement_at movement.entry) operand.entry.dims ≡ Ok r.dims) }
    ensures lowered { IfOk result (λ r. Gives r.lowered r.dims (λ index.
        meaning_at operand.entry.lowered operand.entry.dims
        (moved (movement_at movement.entry) operand.entry.dims index))) }
{
    let dims = moved_dims(WIDEST, movement, &operand.dims).unwrap();
    let count = dims.size() as usize;
    if count == 0 {
        return Ok(Part {
            lowered: Lowered::Filled(0, 0),
            dims,
            pieces: 0,
        });
    }
    if let Movement::Reshape(_) = movement {
        return Ok(Part {
            lowered: operand.lowered,
            dims,
            pieces: operand.pieces,
        });
    }
    let inner = stored(alloc, operand.lowered, &operand.dims, count, room)?;
    let whole = View::of(alloc, &operand.dims)?;
    let view = whole.moved(alloc, movement)?;
    let lowered = Box::new(alloc, inner)?;
    Ok(Part {
        lowered: Lowered::View(view, lowered),
        dims,
        pieces: operand.pieces.max(1),
    })
}

/// Returns an operand, evaluated if that saves work: it has fewer places than are read of it, as
/// the operand of a broadcast has, its values aren't at hand, and there is room.
fn stored<'a>(
    alloc: Global,
    lowered: Lowered<'a>,
    dims: &Dims,
    reads: usize,
    room: &mut usize,
) -> Result<Lowered<'a>, AllocError>
    requires sound { IsSound lowered }
    requires count { count_of lowered ≡ size_of dims.now }
    ensures { IfOk result (λ r. Gives r dims.now (meaning_at lowered.entry dims.now)) }
{
    let count = dims.size() as usize;
    if count >= reads || count > *room {
        return Ok(lowered);
    }
    let sunk = sunk_over(alloc, lowered, dims)?;
    if sunk.is_at_hand() {
        return Ok(sunk);
    }
    *room -= count;
    Ok(Lowered::Stored(sunk.values(alloc, alloc, 0, count)?))
}
