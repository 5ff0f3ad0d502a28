//! The number of steps that a request takes, counted before any of it is evaluated. Limits and
//! journals use it; specs/Work.antt defines the steps of each operation, and docs/SERVE.md and
//! `./explain` tell users of them.

ghost use Rattle.std.specs.Prelude.{◌≡◌, ◌+◌, ◌*◌, ◌^◌, ◌<◌, ◌≤◌, length, true, IsTrue, IfOk, Ok, Err};
ghost use Rattle.std.specs.Prelude.{MatchResult, IsOk};
ghost use Rattle.expr_reader.specs.Asked.{asked_under};
ghost use Rattle.expr_reader.specs.Index.{size_of};
ghost use Rattle.expr_reader.specs.Legal.{widest};
ghost use Rattle.expr_reader.specs.Result.{dims_of, binary_dims};
ghost use Rattle.expr_reader.specs.Term.{has_inputs, nodes_of};
ghost use Rattle.expr_reader.specs.Tree.{term_of, unary_at, binary_at};
ghost use Rattle.tensor_reduce.specs.Contraction.{firsts};
ghost use Rattle.tensor_reduce.specs.Reduction.{are_axes};
ghost use Rattle.tensor_ops.specs.Facts.{combines, combines_two};
ghost use Rattle.tensor_reduce.specs.Merged.{dims_at};
ghost use Rattle.tensor_runner.specs.private.Known.{tensors_known};
ghost use Rattle.tensor_runner.specs.Work.{operations, operations_over, unary_steps, binary_steps};
ghost use Rattle.tensor_runner.specs.Work.{combined, steps_over, steps_of};

use crate::known::Known;
use expr_reader::{Dims, Expr, Request};
use tensor_ops::{Binary, ExprFault, Node, Unary};
use tensor_terms::{dims_at, paired_axes};

/// The dims of an expression, and what is counted of it.
#[derive(Drop)]
struct Count {
    /// The dims of the expression.
    dims: Dims,
    /// How many operations are computed for each place of the expression, down to inputs and to
    /// operands that are tensors of their own.
    operations: u64,
    /// The steps of all operations in the expression that combine values.
    combined: u128,
}

/// Returns how many steps a request takes, counted in time linear in its nodes and without an
/// allocation.
pub fn steps_of(request: &Request<'_>) -> u128
    ensures { result ≡ steps_of (asked_under request.now) }
{
    // For the proof alone: the contract of this call says that the inputs' bounds are possible.
    let _limit = request.inputs.bounds();
    let mut steps = 0;
    for (done, binding) in request.bindings.iter().enumerate() {
        steps += steps_over(&Known::of(request, done), &binding.expr);
    }
    steps + steps_over(&Known::of(request, request.bindings.len()), &request.expr)
}

/// Returns how many steps an expression takes over tensors of known dims.
fn steps_over(known: &Known<'_, '_>, expr: &Expr) -> u128
    requires inputs { IsTrue (has_inputs (term_of expr.now) (length (tensors_known known.now))) }
    requires dims { IsOk (dims_of widest (term_of expr.now) (tensors_known known.now)) }
    requires few { nodes_of (term_of expr.now) < 2 ^ 32 }
    ensures value { result ≡ steps_over (tensors_known known.now) (term_of expr.now) }
    ensures small { result ≤ 2 ^ 63 * nodes_of (term_of expr.now) }
{
    let Ok(found) = counted(known, expr) else {
        unreachable!();
    };
    found.combined + worked_out(&found)
}

/// Counts an expression over tensors of known dims. The dims of each operand are computed once. The
/// sums don't wrap: they have at most one term a node, and each term is small.
fn counted(known: &Known<'_, '_>, expr: &Expr) -> Result<Count, ExprFault>
    requires inputs { IsTrue (has_inputs (term_of expr.now) (length (tensors_known known.now))) }
    requires few { nodes_of (term_of expr.now) < 2 ^ 32 }
    ensures dims { MatchResult result
        (λ r. dims_of widest (term_of expr.now) (tensors_known known.now) ≡ Ok r.dims)
        (λ fault. dims_of widest (term_of expr.now) (tensors_known known.now) ≡ Err fault) }
    ensures operations { IfOk result (λ r. r.operations ≡ operations (term_of expr.now)) }
    ensures combined { IfOk result (λ r.
        r.combined ≡ combined (tensors_known known.now) (term_of expr.now)) }
    ensures few { IfOk result (λ r. r.operations ≤ nodes_of (term_of expr.now)) }
    ensures small { IfOk result (λ r. r.combined ≤ 2 ^ 62 * nodes_of (term_of expr.now)) }
{
    match expr.node() {
        Node::Input(number) => Ok(Count {
            dims: known.dims(number),
            operations: 0,
            combined: 0,
        }),
        Node::Unary(operation, a) => {
            let first = counted(known, a)?;
            let dims = known.dims_over(expr, &[first.dims.copied()])?;
            Ok(over_one(operation, dims, &first))
        }
        Node::Binary(operation, a, b) => {
            let first = counted(known, a)?;
            let second = counted(known, b)?;
            let dims = known.dims_over(expr, &[first.dims.copied(), second.dims.copied()])?;
            Ok(over_two(operation, dims, &first, &second))
        }
        Node::Ternary(_, a, b, c) => {
            let first = counted(known, a)?;
            let second = counted(known, b)?;
            let third = counted(known, c)?;
            let operations = 1 + (first.operations + second.operations + third.operations);
            let combined = first.combined + second.combined + third.combined;
            let dims = known.dims_over(expr, &[first.dims, second.dims, third.dims])?;
            Ok(Count {
                dims,
                operations,
                combined,
            })
        }
    }
}

/// Returns the count of an operation on one operand, given the dims of its result.
fn over_one(operation: Unary<'_>, dims: Dims, first: &Count) -> Count
    requires few { first.now.operations < 2 ^ 32 }
    requires small { first.now.combined < 2 ^ 100 }
    ensures dims { result.dims ≡ dims }
    ensures operations { result.operations
        ≡ operations_over (combines (unary_at operation.entry)) first.now.operations }
    ensures combined { result.combined ≡ first.now.combined
        + unary_steps (unary_at operation.entry) (size_of dims) first.now.dims
        first.now.operations }
    ensures few { result.operations ≤ 1 + first.now.operations }
    ensures small { result.combined ≤ first.now.combined + 2 ^ 62 }
{
    let operations = operations_over(operation.combines(), first.operations);
    let own = unary_steps(operation, &dims, first);
    Count {
        dims,
        operations,
        combined: first.combined + own,
    }
}

/// Returns the count of an operation on two operands, given the dims of its result.
fn over_two(operation: Binary<'_>, dims: Dims, first: &Count, second: &Count) -> Count
    requires few { first.now.operations + second.now.operations < 2 ^ 32 }
    requires small { first.now.combined + second.now.combined < 2 ^ 100 }
    requires dims { binary_dims widest (binary_at operation) first.now.dims
        second.now.dims ≡ Ok dims }
    ensures dims { result.dims ≡ dims }
    ensures operations { result.operations
        ≡ operations_over (combines_two (binary_at operation.entry))
        (first.now.operations + second.now.operations) }
    ensures combined { result.combined ≡ first.now.combined + second.now.combined
        + binary_steps (binary_at operation.entry) (size_of dims) first.now.dims
        first.now.operations second.now.dims second.now.operations }
    ensures few { result.operations ≤ 1 + (first.now.operations + second.now.operations) }
    ensures small { result.combined ≤ first.now.combined + second.now.combined + 2 ^ 62 }
{
    let below = first.operations + second.operations;
    let operations = operations_over(operation.combines(), below);
    let own = binary_steps(operation, &dims, first, second);
    Count {
        dims,
        operations,
        combined: first.combined + second.combined + own,
    }
}

/// Returns how many operations are computed for each place of a result, given how many its operands
/// have. An operation that combines values counts none, since its steps are counted apart.
fn operations_over(combining: bool, below: u64) -> u64
    requires { below < 2 ^ 33 }
    ensures value { result ≡ operations_over combining below }
    ensures small { result ≤ 1 + below }
{
    if combining { 0 } else { 1 + below }
}

/// Returns the steps of an operation on one operand that combines its values, and 0 for any other.
fn unary_steps(operation: Unary<'_>, dims: &Dims, first: &Count) -> u128
    requires { first.now.operations < 2 ^ 32 }
    ensures value { result ≡ unary_steps (unary_at operation.entry) (size_of dims.now)
        first.now.dims first.now.operations }
    ensures small { result ≤ 2 ^ 61 }
{
    match operation {
        Unary::Each(_) | Unary::Constant(_) | Unary::Move(_) | Unary::Pad(_) => 0,
        Unary::Reduce(_, _) | Unary::Along(_, _) => {
            worked_out(first) + u128::from(dims.size() + first.dims.size())
        }
    }
}

/// Returns the steps of a contraction, a convolution or a take, and 0 for any other operation on
/// two operands.
fn binary_steps(operation: Binary<'_>, dims: &Dims, first: &Count, second: &Count) -> u128
    requires few { first.now.operations + second.now.operations < 2 ^ 32 }
    requires dims { binary_dims widest (binary_at operation) first.now.dims
        second.now.dims ≡ Ok dims.now }
    ensures value { result ≡ binary_steps (binary_at operation.entry) (size_of dims.now)
        first.now.dims first.now.operations second.now.dims second.now.operations }
    ensures small { result ≤ 2 ^ 62 }
{
    match operation {
        Binary::Pairwise(_) | Binary::Concat(_) => 0,
        Binary::Contract(pairs) => {
            let summed = paired_dims(pairs, &first.dims);
            worked_out(first) + worked_out(second) + products(dims, &summed)
        }
        Binary::Convolve(_) => {
            worked_out(first) + worked_out(second) + products(dims, &second.dims)
        }
        Binary::Take(_) => worked_out(first) + worked_out(second) + u128::from(dims.size()),
    }
}

/// Returns the steps of evaluating an operand as a tensor of its own, without the steps of the
/// operations in it that combine values.
fn worked_out(operand: &Count) -> u128
    requires { operand.now.operations < 2 ^ 32 }
    ensures value { result ≡ size_of operand.now.dims * operand.now.operations }
    ensures small { result ≤ 2 ^ 60 }
{
    u128::from(operand.dims.size() * operand.operations)
}

/// Returns the steps of a sum of products: one for each place of `dims`, and one for each product.
/// A place has as many products as `summed` has index lists.
fn products(dims: &Dims, summed: &Dims) -> u128
    ensures value { result ≡ size_of dims.now + size_of dims.now * size_of summed.now }
    ensures small { result ≤ 2 ^ 57 }
{
    u128::from(dims.size() + dims.size() * summed.size())
}

/// Returns the sizes of the first operand's axes that a contraction pairs.
fn paired_dims(pairs: &[(u64, u64)], first: &Dims) -> Dims
    requires { are_axes (length first.now) (firsts pairs.now) ≡ true }
    ensures { result ≡ dims_at (firsts pairs.now) first.now }
{
    let (firsts, _) = paired_axes(pairs, first).unwrap();
    dims_at(firsts.as_slice(), first)
}
