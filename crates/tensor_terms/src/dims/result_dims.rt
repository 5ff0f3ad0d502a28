//! The result dims of expressions, or their first faults. A change of the order of the checks
//! changes the first fault, which `specs/Result` fixes.

ghost use Rattle.std.specs.Prelude.{◌≡◌, ◌<◌, ◌≤◌, List, ℕ, length, Ok, IsTrue, IfOk, map};
ghost use Rattle.tensor_shape.specs.Legal.{IsPossible};
ghost use Rattle.tensor_terms.specs.Contents.{Contents};
ghost use Rattle.tensor_terms.specs.Result.{unary_dims, binary_dims, ternary_dims};
ghost use Rattle.tensor_terms.specs.Result.{dims_of, operand_dims, shape_of};
ghost use Rattle.tensor_terms.specs.Shaped.{equal_dims};
ghost use Rattle.tensor_terms.specs.Term.{has_inputs};
ghost use Rattle.tensor_terms.specs.Tree.{term_of, unary_at, binary_at, ternary_at};

use crate::dims::along_dims::{along_dims, taken_dims};
use crate::dims::concatenation_dims::concatenated_dims;
use crate::dims::contraction_dims::contracted_dims;
use crate::dims::convolution_dims::convolved_dims;
use crate::dims::movement_dims::moved_dims;
use crate::dims::padding_dims::pad_dims;
use crate::dims::reduction_dims::reduced_dims;
use crate::expr::Expr;
use crate::expr::node::{Binary, Node, Ternary, Unary};
use crate::fault::ExprFault;
use crate::tensor::inputs::Inputs;
use tensor_shape::{Bounds, Dims};

impl Expr {
    /// Returns the dims of the result, or the first fault. Operands are checked from the left, each
    /// completely, before the operation itself. A result that is not within the bounds of the
    /// inputs is `TooLarge`. Allocates nothing.
    pub fn dims(&self, inputs: &Inputs) -> Result<Dims, ExprFault>
        requires { IsTrue (has_inputs (term_of self.now) (length inputs.now.tensors)) }
        ensures dims { result ≡ dims_of inputs.now.bounds (term_of self.now) inputs.now.tensors }
        ensures shape { IfOk result (λ dims.
            shape_of (term_of self.now) inputs.now.tensors ≡ dims) }
    {
        dims_within(inputs.bounds(), self, inputs)
    }

    /// Returns the dims of the result within `bounds`, given the dims of the operands, or the first
    /// fault of the operation itself. Doesn't visit the operands.
    pub fn dims_over(
        &self,
        bounds: Bounds,
        inputs: &Inputs,
        operands: &[Dims],
    ) -> Result<Dims, ExprFault>
        requires bounds { IsPossible bounds }
        requires inputs { IsTrue (has_inputs (term_of self.now) (length inputs.now.tensors)) }
        requires operands { operand_dims bounds (term_of self.now) inputs.now.tensors
            ≡ map Ok operands.now }
        ensures { result ≡ dims_of bounds (term_of self.now) inputs.now.tensors }
    {
        match self.node() {
            Node::Input(number) => Ok(inputs.get(number).dims().copied()),
            _ => self.dims_by(bounds, operands),
        }
    }

    /// Returns the dims of the result within `bounds`, given only the dims of the operands, or the
    /// first fault of the operation itself. The expression must not be an input, so `operands`
    /// isn't empty.
    pub fn dims_by(&self, bounds: Bounds, operands: &[Dims]) -> Result<Dims, ExprFault>
        requires bounds { IsPossible bounds }
        requires some { 0 < length operands.now }
        requires operands { (tensors : List Contents)
            × (operand_dims bounds (term_of self.now) tensors ≡ map Ok operands.now) }
        ensures { (tensors : List Contents)
            → operand_dims bounds (term_of self.now) tensors ≡ map Ok operands.now
            → result ≡ dims_of bounds (term_of self.now) tensors }
    {
        match (self.node(), operands) {
            (Node::Unary(operation, _), [operand]) => unary_dims(bounds, operation, operand),
            (Node::Binary(operation, _, _), [first, second]) => {
                binary_dims(bounds, operation, first, second)
            }
            (Node::Ternary(operation, _, _, _), [first, second, third]) => {
                ternary_dims(operation, first, second, third)
            }
            _ => unreachable!(),
        }
    }
}

/// Returns the dims of an expression within `bounds`, or its first fault.
pub(crate) fn dims_within(bounds: Bounds, expr: &Expr, inputs: &Inputs) -> Result<Dims, ExprFault>
    requires bounds { IsPossible bounds }
    requires inputs { IsTrue (has_inputs (term_of expr.now) (length inputs.now.tensors)) }
    ensures { result ≡ dims_of bounds (term_of expr.now) inputs.now.tensors }
{
    match expr.node() {
        Node::Input(number) => Ok(inputs.get(number).dims().copied()),
        Node::Unary(operation, operand) => {
            let operand = dims_within(bounds, operand, inputs)?;
            unary_dims(bounds, operation, &operand)
        }
        Node::Binary(operation, first, second) => {
            let first = dims_within(bounds, first, inputs)?;
            let second = dims_within(bounds, second, inputs)?;
            binary_dims(bounds, operation, &first, &second)
        }
        Node::Ternary(operation, first, second, third) => {
            let first = dims_within(bounds, first, inputs)?;
            let second = dims_within(bounds, second, inputs)?;
            let third = dims_within(bounds, third, inputs)?;
            ternary_dims(operation, &first, &second, &third)
        }
    }
}

/// Returns the dims of an operation on one tensor within `bounds`, or the fault of its first check
/// that fails.
fn unary_dims(bounds: Bounds, operation: Unary<'_>, operand: &Dims) -> Result<Dims, ExprFault>
    requires { IsPossible bounds }
    ensures { result ≡ unary_dims bounds (unary_at operation.entry) operand.now }
{
    match operation {
        Unary::Each(_) | Unary::Constant(_) => Ok(operand.copied()),
        Unary::Move(movement) => moved_dims(bounds, movement, operand),
        Unary::Pad(pairs) => pad_dims(bounds, pairs, operand),
        Unary::Reduce(_, axes) => reduced_dims(axes, operand),
        Unary::Along(operation, axis) => along_dims(operation, axis, operand),
    }
}

/// Returns the dims of an operation on two tensors within `bounds`, or the fault of its first check
/// that fails.
fn binary_dims(
    bounds: Bounds,
    operation: Binary<'_>,
    first: &Dims,
    second: &Dims,
) -> Result<Dims, ExprFault>
    requires { IsPossible bounds }
    ensures { result ≡ binary_dims bounds (binary_at operation.entry) first.now second.now }
{
    match operation {
        Binary::Pairwise(_) => equal_dims(first, second),
        Binary::Concat(axis) => concatenated_dims(bounds, axis, first, second),
        Binary::Contract(pairs) => contracted_dims(bounds, pairs, first, second),
        Binary::Convolve(axes) => convolved_dims(bounds, axes, first, second),
        Binary::Take(axis) => taken_dims(bounds, axis, first, second),
    }
}

/// Returns the dims of an operation on three tensors, or the fault of its first check that fails.
fn ternary_dims(
    operation: Ternary,
    first: &Dims,
    second: &Dims,
    third: &Dims,
) -> Result<Dims, ExprFault>
    ensures { result ≡ ternary_dims (ternary_at operation) first.now second.now third.now }
{
    match operation {
        Ternary::Select => {
            let both = equal_dims(first, second)?;
            equal_dims(&both, third)
        }
    }
}

/// Returns dims that two operands must have in common, or `ShapeMismatch`.
fn equal_dims(first: &Dims, second: &Dims) -> Result<Dims, ExprFault>
    ensures { result ≡ equal_dims first.now second.now }
{
    if first.as_slice() == second.as_slice() {
        Ok(first.copied())
    } else {
        Err(ExprFault::ShapeMismatch)
    }
}
