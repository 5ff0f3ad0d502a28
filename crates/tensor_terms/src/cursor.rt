//! The value of an expression at one place, as the definition `value` says (`specs/Value`). It is
//! slow: request_cases compares the evaluation by ranges with it. A new variant of `Node` needs an
//! arm of `value_at`.

ghost use Rattle.std.specs.Prelude.{◌≡◌, ◌<◌, ◌≤◌, ◌+◌, List, ℕ, length, IsTrue, IsOk};
ghost use Rattle.std.specs.Prelude.{ℤ, pos, slice_index_or, if◌then◌else◌, IfSome, IsNone};
ghost use Rattle.tensor_scans.specs.Lines.{is_cumulative, taken_from, width_of};
ghost use Rattle.tensor_scans.specs.Places.{line_values, number_at};
ghost use Rattle.tensor_shape.specs.Legal.{widest};
ghost use Rattle.tensor_shape.specs.Index.{size_of, IsIndexOf, place};
ghost use Rattle.tensor_terms.specs.Term.{has_inputs, unary, pad, reduce, binary};
ghost use Rattle.tensor_terms.specs.Term.{along as along_axis, concat, contract, convolve, taking};
ghost use Rattle.tensor_terms.specs.Tree.{term_of};
ghost use Rattle.tensor_terms.specs.Result.{dims_of, shape_of};
ghost use Rattle.tensor_terms.specs.Value.{value, value_of_place};

use crate::dims::contraction_dims::paired_axes;
use crate::dims::convolution_dims::convolved_dims;
use crate::dims::result_dims::dims_within;
use crate::expr::Expr;
use crate::expr::node::{Binary, Node, Ternary, Unary};
use crate::index::axis_lines::lines_along;
use crate::index::index_parts::{all_among, dims_at, merged_place, other_dims};
use crate::index::interleaved_index::{padded_place, turns_along};
use crate::index::moved_index::moved_place;
use crate::index::windows::window_place;
use crate::tensor::inputs::Inputs;
use tensor_scans::{LineOperation, Lines, Progress};
use tensor_shape::{Dims, PerAxis, WIDEST};
use tensor_values::{BinaryScalar, Reducer, applied, combined, is_true};

/// A reader of single values of an expression that has result dims, over its inputs. Allocates
/// nothing. Each value is computed anew from the inputs.
#[derive(Drop)]
pub struct Cursor<'a> {
    expr: &'a Expr,
    inputs: &'a Inputs<'a>,
    ghost has_inputs: { IsTrue (has_inputs (term_of expr.now) (length inputs.now.tensors)) },
    ghost has_dims: { IsOk (dims_of widest (term_of expr.now) inputs.now.tensors) },
}

impl<'a> Cursor<'a> {
    ghost use Rattle.tensor_terms.specs.Cursor.{term_under, inputs_under};

    /// Returns a cursor over an expression.
    pub fn of(expr: &'a Expr, inputs: &'a Inputs<'a>) -> Cursor<'a>
        requires inputs { IsTrue (has_inputs (term_of expr.now) (length inputs.now.tensors)) }
        requires dims { IsOk (dims_of inputs.now.bounds (term_of expr.now) inputs.now.tensors) }
        ensures term { term_under result ≡ term_of expr.now }
        ensures inputs { inputs_under result ≡ inputs.now.tensors }
    {
        // The contract of `bounds` says that the bounds are possible; `has_dims` needs this.
        let _limit = inputs.bounds();
        Cursor { expr, inputs }
    }

    /// Returns the value at a place of the result.
    pub fn value(&self, linear: u64) -> i64
        requires { linear < size_of (shape_of (term_under self.now) (inputs_under self.now)) }
        ensures { (index : List ℕ)
            → IsIndexOf (shape_of (term_under self.now) (inputs_under self.now)) index
            → place (shape_of (term_under self.now) (inputs_under self.now)) index ≡ linear
            → result ≡ value (term_under self.now) (inputs_under self.now) index }
    {
        value_at(self.expr, self.inputs, linear)
    }
}

/// Returns the value of an expression at a place, by recursion down the tree.
#[cycle(value)]
fn value_at(expr: &Expr, inputs: &Inputs, place: u64) -> i64
    requires inputs { IsTrue (has_inputs (term_of expr.now) (length inputs.now.tensors)) }
    requires dims { IsOk (dims_of widest (term_of expr.now) inputs.now.tensors) }
    requires below { place < size_of (shape_of (term_of expr.now) inputs.now.tensors) }
    ensures { result ≡ value_of_place (term_of expr.now) inputs.now.tensors place }
{
    match expr.node() {
        Node::Input(number) => inputs.get(number).values()[place as usize],
        Node::Unary(Unary::Each(operation), a) => applied(operation, value_at(a, inputs, place)),
        Node::Unary(Unary::Constant(value), _) => value,
        Node::Unary(Unary::Move(movement), a) => {
            let read = moved_place(movement, &known_dims(a, inputs), place);
            value_at(a, inputs, read)
        }
        Node::Unary(Unary::Reduce(reducer, axes), a) => {
            reduced_at(reducer, axes, a, inputs, place)
        }
        Node::Binary(Binary::Pairwise(operation), a, b) => {
            let first = value_at(a, inputs, place);
            let second = value_at(b, inputs, place);
            combined(operation, first, second)
        }
        Node::Unary(Unary::Pad(pairs), a) => padded_at(pairs, a, inputs, place),
        Node::Unary(Unary::Along(operation, axis), a) => {
            along_at((operation, axis), a, inputs, place)
        }
        Node::Binary(Binary::Concat(axis), a, b) => concatenated_at(axis, a, b, inputs, place),
        Node::Binary(Binary::Contract(pairs), a, b) => contracted_at(pairs, a, b, inputs, place),
        Node::Binary(Binary::Convolve(axes), a, b) => convolved_at(axes, a, b, inputs, place),
        Node::Binary(Binary::Take(axis), a, b) => taken_at(axis, (a, b), inputs, place),
        Node::Ternary(Ternary::Select, c, a, b) => {
            if is_true(value_at(c, inputs, place)) {
                value_at(a, inputs, place)
            } else {
                value_at(b, inputs, place)
            }
        }
    }
}

/// Returns the value of a reduction at a place: the operand's values along the dropped axes,
/// combined.
#[cycle(value)]
fn reduced_at(reducer: Reducer, axes: &[u64], a: &Expr, inputs: &Inputs, place: u64) -> i64
    requires inputs { IsTrue (has_inputs (term_of a.now) (length inputs.now.tensors)) }
    requires dims { IsOk (dims_of widest (unary (reduce reducer axes.now) (term_of a.now))
        inputs.now.tensors) }
    requires below { place
        < size_of (shape_of (unary (reduce reducer axes.now) (term_of a.now)) inputs.now.tensors) }
    ensures { result
        ≡ value_of_place (unary (reduce reducer axes.now) (term_of a.now)) inputs.now.tensors place }
{
    let dims = known_dims(a, inputs);
    let dropped = all_among(axes, dims.rank());
    let count = dims_at(dropped.as_slice(), &dims).size();
    let mut value = reducer.unit();
    for inner in 0..count {
        let read = merged_place(dropped.as_slice(), &dims, inner, place);
        value = reducer.combine(value, value_at(a, inputs, read));
    }
    value
}

/// Returns the value of a contraction at a place: the sum of the products along the paired axes.
#[cycle(value)]
fn contracted_at(pairs: &[(u64, u64)], a: &Expr, b: &Expr, inputs: &Inputs, place: u64) -> i64
    requires inputs_a { IsTrue (has_inputs (term_of a.now) (length inputs.now.tensors)) }
    requires inputs_b { IsTrue (has_inputs (term_of b.now) (length inputs.now.tensors)) }
    requires dims { IsOk (dims_of widest (binary (contract pairs.now) (term_of a.now) (term_of b.now))
        inputs.now.tensors) }
    requires below { place < size_of (shape_of
        (binary (contract pairs.now) (term_of a.now) (term_of b.now)) inputs.now.tensors) }
    ensures { result ≡ value_of_place
        (binary (contract pairs.now) (term_of a.now) (term_of b.now)) inputs.now.tensors place }
{
    let pairing = Pairing::of(pairs, a, b, inputs);
    let firsts = pairing.firsts.as_slice();
    let seconds = pairing.seconds.as_slice();
    let mut value = 0;
    for inner in 0..pairing.count {
        let left = merged_place(firsts, &pairing.first, inner, place % pairing.outer);
        let right = merged_place(seconds, &pairing.second, inner, place / pairing.outer);
        let x = value_at(a, inputs, left);
        let y = value_at(b, inputs, right);
        value = combined(BinaryScalar::Add, value, combined(BinaryScalar::Mul, x, y));
    }
    value
}

/// Returns the value of a pad at a place: the operand's value, or 0 outside the operand.
#[cycle(value)]
fn padded_at(pairs: &[(u64, u64)], a: &Expr, inputs: &Inputs, place: u64) -> i64
    requires inputs { IsTrue (has_inputs (term_of a.now) (length inputs.now.tensors)) }
    requires dims { IsOk (dims_of widest (unary (pad pairs.now) (term_of a.now))
        inputs.now.tensors) }
    requires below { place
        < size_of (shape_of (unary (pad pairs.now) (term_of a.now)) inputs.now.tensors) }
    ensures { result
        ≡ value_of_place (unary (pad pairs.now) (term_of a.now)) inputs.now.tensors place }
{
    match padded_place(pairs, &known_dims(a, inputs), place) {
        Some(read) => value_at(a, inputs, read),
        None => 0,
    }
}

/// Returns the value of a concatenation at a place: a value of the first operand, or of the second
/// operand behind it.
#[cycle(value)]
fn concatenated_at(axis: u64, a: &Expr, b: &Expr, inputs: &Inputs, place: u64) -> i64
    requires inputs_a { IsTrue (has_inputs (term_of a.now) (length inputs.now.tensors)) }
    requires inputs_b { IsTrue (has_inputs (term_of b.now) (length inputs.now.tensors)) }
    requires dims { IsOk (dims_of widest
        (binary (concat axis) (term_of a.now) (term_of b.now)) inputs.now.tensors) }
    requires below { place < size_of (shape_of
        (binary (concat axis) (term_of a.now) (term_of b.now)) inputs.now.tensors) }
    ensures { result ≡ value_of_place
        (binary (concat axis) (term_of a.now) (term_of b.now)) inputs.now.tensors place }
{
    let turns = turns_along(axis, &known_dims(a, inputs), &known_dims(b, inputs));
    let place = place as usize;
    if turns.is_of_first(place) {
        value_at(a, inputs, turns.firsts_before(place) as u64)
    } else {
        value_at(b, inputs, turns.seconds_before(place) as u64)
    }
}

/// Returns the value of a convolution at a place: the sum of the products over the kernel's places.
#[cycle(value)]
fn convolved_at(axes: &[u64], a: &Expr, b: &Expr, inputs: &Inputs, place: u64) -> i64
    requires inputs_a { IsTrue (has_inputs (term_of a.now) (length inputs.now.tensors)) }
    requires inputs_b { IsTrue (has_inputs (term_of b.now) (length inputs.now.tensors)) }
    requires dims { IsOk (dims_of widest
        (binary (convolve axes.now) (term_of a.now) (term_of b.now)) inputs.now.tensors) }
    requires below { place < size_of (shape_of
        (binary (convolve axes.now) (term_of a.now) (term_of b.now)) inputs.now.tensors) }
    ensures { result ≡ value_of_place
        (binary (convolve axes.now) (term_of a.now) (term_of b.now)) inputs.now.tensors place }
{
    let dims = known_dims(a, inputs);
    let kernel = known_dims(b, inputs);
    let window_index = convolved_dims(WIDEST, axes, &dims, &kernel).unwrap();
    let mut value = 0;
    for inner in 0..kernel.size() {
        let read = window_place(axes, &dims, &kernel, &window_index, inner, place);
        let x = value_at(a, inputs, read);
        let y = value_at(b, inputs, inner);
        value = combined(BinaryScalar::Add, value, combined(BinaryScalar::Mul, x, y));
    }
    value
}

/// Returns the value of an operation along an axis at a place, from the values of the line that the
/// place belongs to.
#[cycle(value)]
fn along_at(along: (LineOperation, u64), a: &Expr, inputs: &Inputs, place: u64) -> i64
    requires inputs { IsTrue (has_inputs (term_of a.now) (length inputs.now.tensors)) }
    requires dims { IsOk (dims_of widest (unary (along_axis along.0 along.1) (term_of a.now))
        inputs.now.tensors) }
    requires below { place < size_of (shape_of
        (unary (along_axis along.0 along.1) (term_of a.now)) inputs.now.tensors) }
    ensures { result ≡ value_of_place
        (unary (along_axis along.0 along.1) (term_of a.now)) inputs.now.tensors place }
{
    let (operation, axis) = along;
    let lines = lines_along(axis, &known_dims(a, inputs));
    let width = operation.width(lines.length);
    let place = place as usize;
    let count = values_up_to(operation, lines, place);
    let mut progress = Progress::start(operation);
    for k in 0..count {
        let value = value_at(a, inputs, lines.place(width, place, k) as u64);
        progress = progress.after(operation, value);
    }
    progress.outcome(operation)
}

/// Returns how many values of its line the value at a place depends on: those up to the place for a
/// cumulative operation, else all.
fn values_up_to(operation: LineOperation, lines: Lines, place: usize) -> usize
    requires { place < line_values lines (width_of operation lines.length) }
    ensures count { result ≡ if is_cumulative operation
        then number_at lines lines.length place + 1 else lines.length }
    ensures few { result ≤ lines.length }
{
    if operation.is_cumulative() {
        lines.number(lines.length, place) + 1
    } else {
        lines.length
    }
}

/// Returns the value of a take at a place: the first operand's value at the number along the axis
/// that the second operand holds; 0 if there is no such number.
#[cycle(value)]
fn taken_at(axis: u64, operands: (&Expr, &Expr), inputs: &Inputs, place: u64) -> i64
    requires inputs_a { IsTrue (has_inputs (term_of operands.0.now) (length inputs.now.tensors)) }
    requires inputs_b { IsTrue (has_inputs (term_of operands.1.now) (length inputs.now.tensors)) }
    requires dims { IsOk (dims_of widest
        (binary (taking axis) (term_of operands.0.now) (term_of operands.1.now))
        inputs.now.tensors) }
    requires below { place < size_of (shape_of
        (binary (taking axis) (term_of operands.0.now) (term_of operands.1.now))
        inputs.now.tensors) }
    ensures { result ≡ value_of_place
        (binary (taking axis) (term_of operands.entry.0.now) (term_of operands.entry.1.now))
        inputs.now.tensors place }
{
    let (a, b) = operands;
    let lines = lines_along(axis, &known_dims(a, inputs));
    let width = known_dims(b, inputs).size() as usize;
    let place = place as usize;
    let number = value_at(b, inputs, lines.number(width, place) as u64);
    match number_within(number, lines.length) {
        Some(k) => value_at(a, inputs, lines.place(width, place, k) as u64),
        None => 0,
    }
}

/// Returns `value` as a number of a line of `count` values; `None` if the line has no such number.
fn number_within(value: i64, count: usize) -> Option<usize>
    ensures some { IfSome result (λ k.
        (line : List ℤ) → taken_from line value ≡ slice_index_or line k (pos 0)) }
    ensures below { IfSome result (λ k. k < count) }
    ensures none { IsNone result
        → (line : List ℤ) → length line ≤ count → taken_from line value ≡ pos 0 }
{
    if value < 0 || value as u64 >= count as u64 {
        None
    } else {
        Some(value as usize)
    }
}

/// What a contraction sums over: the dims and the paired axes of both operands.
#[derive(Drop)]
struct Pairing {
    /// The dims of the first operand.
    first: Dims,
    /// The dims of the second operand.
    second: Dims,
    /// The paired axes of the first operand.
    firsts: PerAxis,
    /// The paired axes of the second operand.
    seconds: PerAxis,
    /// The number of index lists along the paired axes.
    count: u64,
    /// The number of index lists along the first operand's other axes.
    outer: u64,
}

impl Pairing {
    ghost use Rattle.tensor_terms.specs.private.Pairing.{IsPairing};

    /// Returns the pairing of a contraction that has result dims.
    fn of(pairs: &[(u64, u64)], a: &Expr, b: &Expr, inputs: &Inputs) -> Pairing
        requires inputs_a { IsTrue (has_inputs (term_of a.now) (length inputs.now.tensors)) }
        requires inputs_b { IsTrue (has_inputs (term_of b.now) (length inputs.now.tensors)) }
        requires dims { IsOk (dims_of widest
            (binary (contract pairs.now) (term_of a.now) (term_of b.now)) inputs.now.tensors) }
        ensures { IsPairing inputs.now.tensors pairs.now (term_of a.now) (term_of b.now) result }
    {
        let first = known_dims(a, inputs);
        let second = known_dims(b, inputs);
        let (firsts, seconds) = paired_axes(pairs, &first).unwrap();
        let count = dims_at(firsts.as_slice(), &first).size();
        let outer = other_dims(firsts.as_slice(), &first).size();
        Pairing {
            first,
            second,
            firsts,
            seconds,
            count,
            outer,
        }
    }
}

/// Returns the dims of an expression that has result dims.
fn known_dims(expr: &Expr, inputs: &Inputs) -> Dims
    requires inputs { IsTrue (has_inputs (term_of expr.now) (length inputs.now.tensors)) }
    requires dims { IsOk (dims_of widest (term_of expr.now) inputs.now.tensors) }
    ensures { result ≡ shape_of (term_of expr.now) inputs.now.tensors }
{
    dims_within(WIDEST, expr, inputs).unwrap()
}
