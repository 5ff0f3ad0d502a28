//! Cuts an expression into steps, in one walk. Which nodes are steps is defined in specs/Steps;
//! both change together.

ghost use Rattle.std.specs.Prelude.{◌≡◌, ◌+◌, length, map, Ok, IsTrue, IsOk, IfOk, vec_len};
ghost use Rattle.tensor_ops.specs.Legal.{widest};
ghost use Rattle.tensor_ops.specs.Result.{dims_of, operand_dims};
ghost use Rattle.tensor_ops.specs.Term.{has_inputs};
ghost use Rattle.tensor_ops.specs.Tree.{term_of};
ghost use Rattle.tensor_reduce.specs.private.Cutting.{IsCut, IsSplitOff, AreStepsOf};
ghost use Rattle.tensor_reduce.specs.Steps.{is_input, number_of};

use crate::step::Step;
use std::alloc::{AllocError, Global};
use tensor_ops::{Binary, Dims, Expr, Inputs, Node, Unary, WIDEST};

/// The number of tensors that can have a number.
pub(crate) const NUMBERS: u64 = 1 << 32;

/// Returns the steps of an expression. The root is the last.
pub(crate) fn steps_of(alloc: Global, inputs: &Inputs, expr: &Expr) -> Result<Vec<Step>, AllocError>
    requires inputs { IsTrue (has_inputs (term_of expr.now) (length inputs.now.tensors)) }
    requires dims { IsOk (dims_of widest (term_of expr.now) inputs.now.tensors) }
    ensures { IfOk result (λ steps. AreStepsOf inputs.now.tensors (term_of expr.now) steps.items) }
{
    let mut steps = Vec::new(alloc);
    let left = cut(alloc, inputs, expr, true, &mut steps)?;
    if !is_input(expr) {
        return Ok(steps);
    }
    steps.push(left)?;
    Ok(steps)
}

/// Appends the steps of an operand. Returns the rest: an expression over the inputs and the tensors
/// of all steps. If the operand is needed `whole`, the rest is the number of one tensor.
fn cut(
    alloc: Global,
    inputs: &Inputs,
    expr: &Expr,
    whole: bool,
    steps: &mut Vec<Step>,
) -> Result<Step, AllocError>
    requires inputs { IsTrue (has_inputs (term_of expr.now) (length inputs.now.tensors)) }
    requires dims { IsOk (dims_of widest (term_of expr.now) inputs.now.tensors) }
    ensures { IfOk result (λ left.
        IsCut inputs.now.tensors whole (term_of expr.now) steps.old.items steps.new.items left) }
{
    match expr.node() {
        Node::Input(number) => {
            let dims = inputs.get(number).dims().copied();
            Ok(Step::new(Expr::Input(number), dims))
        }
        Node::Unary(operation, a) => {
            let combining = operation.combines();
            let (a, known) = cut(alloc, inputs, a, combining, steps)?.into_parts();
            let dims = dims_over(inputs, expr, &[known]);
            let node = Step::new(operation.over(alloc, a)?, dims);
            split_off(inputs, node, whole | combining, steps)
        }
        Node::Binary(operation, a, b) => {
            let combining = operation.combines();
            let (a, first) = cut(alloc, inputs, a, combining, steps)?.into_parts();
            let (b, second) = cut(alloc, inputs, b, combining, steps)?.into_parts();
            let dims = dims_over(inputs, expr, &[first, second]);
            let node = Step::new(operation.over(alloc, a, b)?, dims);
            split_off(inputs, node, whole | combining, steps)
        }
        Node::Ternary(operation, a, b, c) => {
            let (a, first) = cut(alloc, inputs, a, false, steps)?.into_parts();
            let (b, second) = cut(alloc, inputs, b, false, steps)?.into_parts();
            let (c, third) = cut(alloc, inputs, c, false, steps)?.into_parts();
            let dims = dims_over(inputs, expr, &[first, second, third]);
            let node = Step::new(operation.over(alloc, a, b, c)?, dims);
            split_off(inputs, node, whole, steps)
        }
    }
}

/// Appends a node if it is a step. Returns the rest: the number of its tensor, or the node itself.
fn split_off(
    inputs: &Inputs,
    node: Step,
    is_step: bool,
    steps: &mut Vec<Step>,
) -> Result<Step, AllocError>
    ensures { IfOk result (λ left.
        IsSplitOff inputs.now.tensors is_step node steps.old.items steps.new.items left) }
{
    if !is_step {
        return Ok(node);
    }
    let number = next_number(inputs, steps);
    let left = Step::new(Expr::Input(number), node.dims().copied());
    steps.push(node)?;
    Ok(left)
}

/// Returns the number of the tensor that comes after the inputs and the steps.
fn next_number(inputs: &Inputs, steps: &[Step]) -> u32
    ensures { result ≡ number_of (length inputs.now.tensors + length steps.now) }
{
    let place = u64::from(inputs.len()) + steps.len() as u64;
    (place % NUMBERS) as u32
}

/// Returns the dims of an expression that has dims, given the dims of its operands.
fn dims_over(inputs: &Inputs, expr: &Expr, operands: &[Dims]) -> Dims
    requires inputs { IsTrue (has_inputs (term_of expr.now) (length inputs.now.tensors)) }
    requires operands { operand_dims widest (term_of expr.now) inputs.now.tensors
        ≡ map Ok operands.now }
    requires dims { IsOk (dims_of widest (term_of expr.now) inputs.now.tensors) }
    ensures { dims_of widest (term_of expr.now) inputs.now.tensors ≡ Ok result }
{
    let Ok(dims) = expr.dims_over(WIDEST, inputs, operands) else {
        unreachable!()
    };
    dims
}

/// Returns whether an expression is an input.
fn is_input(expr: &Expr) -> bool
    ensures { result ≡ is_input (term_of expr.now) }
{
    matches!(expr.node(), Node::Input(_))
}
