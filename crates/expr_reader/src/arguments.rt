//! Reads the arguments of an operation and builds its expression. An operation of the tables in
//! `version.rt` has an arm here; the number of its arguments is `arguments` in `operation.rt`, and
//! `forms_of` in the specs.

ghost use Rattle.std.specs.Prelude.{◌≡◌, ◌≤◌, [], length, ok_or, OnOk};
ghost use Rattle.serde_json.specs.View.{view, items_view};
ghost use Rattle.tensor_ops.specs.Term.{unary, binary};
ghost use Rattle.tensor_ops.specs.Tree.{term_of};
ghost use Rattle.expr_reader.specs.Arguments.{arguments_at};
ghost use Rattle.expr_reader.specs.Fields.{list_in};
ghost use Rattle.expr_reader.specs.private.Outcome.{IsReadAt};
ghost use Rattle.expr_reader.specs.Place.{index, at};
ghost use Rattle.expr_reader.specs.Steps.{map_found};
ghost use Rattle.expr_reader.specs.private.Version.{forms_of, unary_of, forms_of_two, binary_of};

use crate::fault::Fault;
use crate::items::{Item, read_list};
use crate::operation::{Binary, Unary};
use crate::place::Indices;
use serde_json::Value;
use std::alloc::Global;
use tensor_ops::Expr;

/// Builds an operation on one operand from its arguments, which are the elements of its node from
/// index 2 on. On a fault, `way` gets the index of the bad argument.
pub(crate) fn with_arguments(
    alloc: Global,
    operation: Unary,
    operand: Box<Expr>,
    arguments: &[Value],
    way: &mut Indices,
) -> Result<Expr, Fault>
    requires arguments { length arguments.now ≡ length (forms_of operation) }
    requires start { way.old.items ≡ [] }
    ensures expr { IsReadAt term_of
        (map_found (λ a. unary (unary_of operation a) (term_of operand.value))
        (arguments_at 2 (forms_of operation) (items_view arguments.now)))
        way.new.items result }
    ensures kept { OnOk result (way.new.items ≡ []) }
    ensures short { length way.new.items ≤ 1 }
{
    match operation {
        Unary::Each(scalar) => Ok(Expr::each(scalar, operand)),
        Unary::Constant => {
            let value = item_at(&arguments[0], 2, way)?;
            Ok(Expr::Constant(operand, value))
        }
        Unary::Broadcast => {
            let counts = list_at(alloc, &arguments[0], 2, way)?;
            Ok(Expr::Broadcast(operand, counts))
        }
        Unary::Slice => {
            let offsets = list_at(alloc, &arguments[0], 2, way)?;
            let extents = list_at(alloc, &arguments[1], 3, way)?;
            Ok(Expr::Slice(operand, offsets, extents))
        }
        Unary::Shuffle => {
            let order = list_at(alloc, &arguments[0], 2, way)?;
            Ok(Expr::Shuffle(operand, order))
        }
        Unary::Reshape => {
            let sizes = list_at(alloc, &arguments[0], 2, way)?;
            Ok(Expr::Reshape(operand, sizes))
        }
        Unary::Chip => {
            let offset = item_at(&arguments[0], 2, way)?;
            let axis = item_at(&arguments[1], 3, way)?;
            Ok(Expr::Chip(operand, offset, axis))
        }
        Unary::Reverse => {
            let flags = list_at(alloc, &arguments[0], 2, way)?;
            Ok(Expr::Reverse(operand, flags))
        }
        Unary::Stride => {
            let steps = list_at(alloc, &arguments[0], 2, way)?;
            Ok(Expr::Stride(operand, steps))
        }
        Unary::Pad => {
            let pairs = list_at(alloc, &arguments[0], 2, way)?;
            Ok(Expr::Pad(operand, pairs))
        }
        Unary::Reduce(reducer) => {
            let axes = list_at(alloc, &arguments[0], 2, way)?;
            Ok(Expr::reduction(reducer, operand, axes))
        }
        Unary::Along(line) => {
            let axis = item_at(&arguments[0], 2, way)?;
            Ok(Expr::along(line, operand, axis))
        }
    }
}

/// Builds an operation on two operands from its arguments, which are the elements of its node from
/// index 3 on. On a fault, `way` gets the index of the bad argument.
pub(crate) fn both_with_arguments(
    alloc: Global,
    operation: Binary,
    left: Box<Expr>,
    right: Box<Expr>,
    arguments: &[Value],
    way: &mut Indices,
) -> Result<Expr, Fault>
    requires arguments { length arguments.now ≡ length (forms_of_two operation) }
    requires start { way.old.items ≡ [] }
    ensures expr { IsReadAt term_of
        (map_found (λ a. binary (binary_of operation a) (term_of left.value) (term_of right.value))
        (arguments_at 3 (forms_of_two operation) (items_view arguments.now)))
        way.new.items result }
    ensures kept { OnOk result (way.new.items ≡ []) }
    ensures short { length way.new.items ≤ 1 }
{
    match operation {
        Binary::Pairwise(scalar) => Ok(Expr::pairwise(scalar, left, right)),
        Binary::Concat => {
            let axis = item_at(&arguments[0], 3, way)?;
            Ok(Expr::Concat(left, right, axis))
        }
        Binary::Contract => {
            let pairs = list_at(alloc, &arguments[0], 3, way)?;
            Ok(Expr::Contract(left, right, pairs))
        }
        Binary::Convolve => {
            let axes = list_at(alloc, &arguments[0], 3, way)?;
            Ok(Expr::Convolve(left, right, axes))
        }
        Binary::Take => {
            let axis = item_at(&arguments[0], 3, way)?;
            Ok(Expr::Take(left, right, axis))
        }
    }
}

/// Reads an argument that is one item. `position` is its index in the node, which `way` gets on a
/// fault.
fn item_at<T: Item>(argument: &Value, position: u8, way: &mut Indices) -> Result<T, Fault>
    requires { way.old.items ≡ [] }
    ensures item { IsReadAt (λ item. item)
        (ok_or (T.item_in (view argument.now)) (at (index position) Fault.BadArgument))
        way.new.items result }
    ensures kept { OnOk result (way.new.items ≡ []) }
    ensures short { length way.new.items ≤ 1 }
{
    match T::of(argument) {
        Some(item) => Ok(item),
        None => {
            way.push(position);
            Err(Fault::BadArgument)
        }
    }
}

/// Reads an argument that is a list of items. `position` is its index in the node, which `way` gets
/// on a fault.
fn list_at<T: Item>(
    alloc: Global,
    argument: &Value,
    position: u8,
    way: &mut Indices,
) -> Result<Vec<T>, Fault>
    requires { way.old.items ≡ [] }
    ensures items { IsReadAt (λ items. items.items)
        (ok_or (list_in T.item_in (view argument.now)) (at (index position) Fault.BadArgument))
        way.new.items result }
    ensures kept { OnOk result (way.new.items ≡ []) }
    ensures short { length way.new.items ≤ 1 }
{
    match read_list(alloc, argument, Fault::BadArgument) {
        Ok(items) => Ok(items),
        Err(fault) => {
            way.push(position);
            Err(fault)
        }
    }
}
