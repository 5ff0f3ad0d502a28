//! Counts the values that each call for a part of an answer computes before its own. It mirrors
//! what `tensor_ops` stores as a list: if an operation stores its operand in another way, this file
//! and `specs/Shared` change.

ghost use Rattle.std.specs.Prelude.{◌≡◌, ◌<◌, ◌≤◌, ◌+◌, ◌*◌, ◌^◌, length, map, IsTrue, Err, Ok};
ghost use Rattle.std.specs.Prelude.{IfOk, MatchResult};
ghost use Rattle.expr_reader.specs.Asked.{asked_under};
ghost use Rattle.expr_reader.specs.Bindings.{terms_under, nodes_in};
ghost use Rattle.expr_reader.specs.Contents.{input_of};
ghost use Rattle.expr_reader.specs.Index.{size_of};
ghost use Rattle.expr_reader.specs.Legal.{widest, most_elements};
ghost use Rattle.expr_reader.specs.Request.{tensors_of};
ghost use Rattle.expr_reader.specs.Result.{dims_of, operand_dims};
ghost use Rattle.expr_reader.specs.Term.{has_inputs, nodes_of};
ghost use Rattle.expr_reader.specs.Tree.{term_of, unary_at, binary_at};
ghost use Rattle.tensor_c.specs.Shared.{shared, shared_whole, asked_shared};
ghost use Rattle.tensor_c.specs.Shared.{is_listed, is_moved_list};
ghost use Rattle.tensor_c.specs.Shared.{combined_size, whole_size, operand_size, either_size};

use expr_reader::Request;
use tensor_ops::{Binary, Dims, Expr, ExprFault, Node, Unary, WIDEST};

/// The dims of an expression, and how many values are computed below its last operation.
#[derive(Drop)]
struct Found {
    dims: Dims,
    shared: u64,
}

/// Returns how many values each part of a request's answer computes before its own: all values of
/// the bindings, and the values below the last operation of the expression.
pub(crate) fn shared_of(request: &Request<'_>) -> u64
    ensures value { result ≡ asked_shared (asked_under request.now) }
    ensures small { result < 2 ^ 63 }
{
    // Called for its clause: dims can go as far as the inputs' bounds.
    let _limit = request.inputs.bounds();
    let bindings = shared_whole(request);
    let Ok(found) = counted(request, &request.expr) else {
        unreachable!();
    };
    bindings + found.shared
}

/// Returns how many values the tensors of the bindings have, and how many are computed below the
/// last operation of each.
fn shared_whole(request: &Request<'_>) -> u64
    ensures value { result ≡ shared_whole (tensors_of (asked_under request.now))
        (terms_under request.now.bindings.items) }
    ensures small { result ≤ most_elements * nodes_in (terms_under request.now.bindings.items) }
{
    // Called for its clause: dims can go as far as the inputs' bounds.
    let _limit = request.inputs.bounds();
    let mut shared = 0;
    for binding in &request.bindings {
        let Ok(found) = counted(request, &binding.expr) else {
            unreachable!();
        };
        shared += found.dims.size() + found.shared;
    }
    shared
}

/// Returns the dims of an expression over a request's tensors, and how many values are computed
/// below its last operation. The dims of each operand are found once. The count is at most the
/// largest tensor times the number of nodes, so no sum wraps.
fn counted(request: &Request<'_>, expr: &Expr) -> Result<Found, ExprFault>
    requires inputs { IsTrue (has_inputs (term_of expr.now)
        (length request.now.inputs.tensors + length request.now.bindings.items)) }
    requires few { nodes_of (term_of expr.now) < 2 ^ 32 }
    ensures dims { MatchResult result
        (λ r. dims_of widest (term_of expr.now) (tensors_of (asked_under request.now)) ≡ Ok r.dims)
        (λ fault. dims_of widest (term_of expr.now) (tensors_of (asked_under request.now))
        ≡ Err fault) }
    ensures shared { IfOk result (λ r.
        r.shared ≡ shared (tensors_of (asked_under request.now)) (term_of expr.now)) }
    ensures small { IfOk result (λ r.
        r.shared + most_elements ≤ most_elements * nodes_of (term_of expr.now)) }
{
    match expr.node() {
        Node::Input(number) => {
            let dims = dims_known(request, number).copied();
            Ok(Found { dims, shared: 0 })
        }
        Node::Unary(operation, a) => {
            let first = counted(request, a)?;
            let shared = first.shared + operand_size(operation, a, &first.dims);
            let dims = operation_dims(request, expr, &[first.dims])?;
            Ok(Found { dims, shared })
        }
        Node::Binary(operation, a, b) => {
            let first = counted(request, a)?;
            let second = counted(request, b)?;
            let own = either_size(operation, a, &first.dims)
                + either_size(operation, b, &second.dims);
            let shared = first.shared + second.shared + own;
            let dims = operation_dims(request, expr, &[first.dims, second.dims])?;
            Ok(Found { dims, shared })
        }
        Node::Ternary(_, a, b, c) => {
            let first = counted(request, a)?;
            let second = counted(request, b)?;
            let third = counted(request, c)?;
            let own = combined_size(a, &first.dims)
                + combined_size(b, &second.dims)
                + combined_size(c, &third.dims);
            let shared = first.shared + second.shared + third.shared + own;
            let dims = operation_dims(request, expr, &[first.dims, second.dims, third.dims])?;
            Ok(Found { dims, shared })
        }
    }
}

/// Returns the dims of the input or binding with this number.
fn dims_known<'a>(request: &'a Request<'_>, number: u32) -> &'a Dims
    requires { number < length request.now.inputs.tensors + length request.now.bindings.items }
    ensures { result.now ≡ (input_of (tensors_of (asked_under request.now)) number).dims }
{
    // Called for its clause: dims can go as far as the inputs' bounds.
    let _limit = request.inputs.bounds();
    let count = request.inputs.len();
    if number < count {
        return request.inputs.get(number).dims();
    }
    &request.bindings[(number - count) as usize].dims
}

/// Returns the dims of an operation whose operands have the dims `operands`.
fn operation_dims(request: &Request<'_>, expr: &Expr, operands: &[Dims]) -> Result<Dims, ExprFault>
    requires some { 0 < length operands.now }
    requires operands { operand_dims widest (term_of expr.now) (tensors_of (asked_under request.now))
        ≡ map Ok operands.now }
    ensures { result ≡ dims_of widest (term_of expr.now) (tensors_of (asked_under request.now)) }
{
    expr.dims_by(WIDEST, operands)
}

/// Returns how many values of the operand `a` are computed and stored before the operation's own
/// values.
fn operand_size(operation: Unary<'_>, a: &Expr, dims: &Dims) -> u64
    ensures value { result
        ≡ operand_size (unary_at operation.entry) (term_of a.now) (size_of dims.now) }
    ensures small { result ≤ most_elements }
{
    if operation.combines() {
        whole_size(is_listed(a), a, dims)
    } else {
        combined_size(a, dims)
    }
}

/// Returns how many values of the operand `a` are computed and stored before the own values of an
/// operation on two operands.
fn either_size(operation: Binary<'_>, a: &Expr, dims: &Dims) -> u64
    ensures value { result
        ≡ either_size (binary_at operation.entry) (term_of a.now) (size_of dims.now) }
    ensures small { result ≤ most_elements }
{
    match operation {
        Binary::Pairwise(_) | Binary::Concat(_) => combined_size(a, dims),
        Binary::Contract(_) => whole_size(is_moved_list(a), a, dims),
        Binary::Convolve(_) | Binary::Take(_) => whole_size(is_listed(a), a, dims),
    }
}

/// Returns how many values are stored of an operand that is read place by place: all, if its last
/// operation combines values, or else none.
fn combined_size(expr: &Expr, dims: &Dims) -> u64
    ensures value { result ≡ combined_size (term_of expr.now) (size_of dims.now) }
    ensures small { result ≤ most_elements }
{
    if expr.combines() { dims.size() } else { 0 }
}

/// Returns how many values are stored of an operand that has to be a list: all, except for an input
/// or a movement whose values are in a list already (`lies`).
fn whole_size(lies: bool, expr: &Expr, dims: &Dims) -> u64
    ensures value { result ≡ whole_size lies (term_of expr.now) (size_of dims.now) }
    ensures small { result ≤ most_elements }
{
    if lies {
        combined_size(expr, dims)
    } else {
        dims.size()
    }
}

/// Returns whether the values of an expression are a list in the order of its places: an input, a
/// stored result, or a reshape of one.
fn is_listed(expr: &Expr) -> bool
    ensures { result ≡ is_listed (term_of expr.now) }
{
    match expr.node() {
        Node::Input(_) => true,
        Node::Unary(operation, a) => {
            operation.combines() || (operation.is_reshape() && is_listed(a))
        }
        Node::Binary(operation, _, _) => operation.combines(),
        Node::Ternary(_, _, _, _) => false,
    }
}

/// Returns whether the values of an expression are in a list, in any order: an input, a stored
/// result, or a movement of one.
fn is_moved_list(expr: &Expr) -> bool
    ensures { result ≡ is_moved_list (term_of expr.now) }
{
    match expr.node() {
        Node::Input(_) => true,
        Node::Unary(operation, a) => {
            operation.combines() || (operation.is_movement() && is_moved_list(a))
        }
        Node::Binary(operation, _, _) => operation.combines(),
        Node::Ternary(_, _, _, _) => false,
    }
}
