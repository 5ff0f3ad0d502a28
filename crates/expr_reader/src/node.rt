//! Reads the tree of an expression on one walk. The order of the checks decides which fault comes
//! first; it is the order of `specs/Node`.

ghost use Rattle.std.specs.Prelude.{◌≡◌, ◌+◌, ◌-◌, ◌<◌, ◌≤◌, ◌++◌, ◌∷◌, ℕ, List, [], length, map, IsTrue, Ok};
ghost use Rattle.std.specs.Prelude.{Result, MatchResult, IfOk, OnOk, OnErr};
ghost use Rattle.serde_json.specs.View.{view, items_view};
ghost use Rattle.tensor_ops.specs.Bounds.{Bounds};
ghost use Rattle.tensor_ops.specs.Contents.{Contents, Given};
ghost use Rattle.tensor_ops.specs.Legal.{IsPossible};
ghost use Rattle.tensor_ops.specs.Result.{operand_dims};
ghost use Rattle.tensor_ops.specs.Term.{has_inputs, unary, binary, ternary, select};
ghost use Rattle.tensor_ops.specs.Tree.{term_of};
ghost use Rattle.expr_reader.specs.Limits.{widest_nodes};
ghost use Rattle.expr_reader.specs.Node.{Tree, operation_at, input_at, made, checked, tree_at};
ghost use Rattle.expr_reader.specs.private.Outcome.{IsReadAt};
ghost use Rattle.expr_reader.specs.Place.{Located, index, below};
ghost use Rattle.expr_reader.specs.private.Shown.{IsNamed};
ghost use Rattle.expr_reader.specs.Tensors.{Named, given};
ghost use Rattle.expr_reader.specs.private.Version.{profile_under, operation_under, forms_of, unary_of};
ghost use Rattle.expr_reader.specs.private.Version.{forms_of_two, binary_of};
ghost use Rattle.expr_reader.specs.private.Walked.{IsShaped, IsFound};

use crate::arguments::{both_with_arguments, with_arguments};
use crate::fault::Fault;
use crate::named::NamedInputs;
use crate::operation::{Binary, Operation, Unary};
use crate::place::Indices;
use crate::version::Version;
use serde_json::Value;
use std::alloc::Global;
use tensor_ops::{Bounds, Dims, Expr};

/// An expression that was read, its result dims, and how many nodes the text has up to its end.
#[derive(Drop)]
pub(crate) struct Subtree {
    pub(crate) expr: Expr,
    pub(crate) dims: Dims,
    pub(crate) end: u64,
}

/// Reads a tree that has `before` nodes of the text before it. The checks of a node are, in this
/// order: the number of nodes, the operation, the number of elements, each operand from the left
/// with all its checks, the arguments, and the dims. On a fault, `way` gets the indices of the
/// elements on the way to it, the innermost first.
pub(crate) fn read_node(
    alloc: Global,
    version: Version,
    named: &NamedInputs<'_, '_>,
    value: &Value,
    before: u64,
    way: &mut Indices,
) -> Result<Subtree, Fault>
    requires named { (n : Named) × IsNamed named.now (profile_under version).bounds n }
    requires start { way.old.items ≡ [] }
    ensures tree { (n : Named) → IsNamed named.now (profile_under version).bounds n
        → IsFound (given (profile_under version).bounds n)
        (tree_at (profile_under version) n before (view value.now)) way.new.items result }
    ensures end { IfOk result (λ tree. before < tree.end) }
    ensures kept { OnOk result (way.new.items ≡ []) }
    ensures short { length way.new.items ≤ widest_nodes - before }
{
    if before >= version.nodes() {
        return Err(Fault::TooLarge);
    }
    match value {
        Value::String(name) => read_name(named, name.as_str(), before + 1),
        Value::Array(list) => {
            let Some(head) = list.first() else {
                return Err(Fault::UnknownOp);
            };
            let operation = operation_of(version, head, way)?;
            if list.len() != 1 + operation.arity() {
                return Err(Fault::BadArity);
            }
            let bounds = named.inputs.bounds();
            let first = read_node(alloc, version, named, &list[1], before + 1, way);
            let first = behind(1, first, way)?;
            match operation {
                Operation::One(unary) => {
                    read_unary(alloc, bounds, unary, first, &list[2..], way)
                }
                Operation::Two(binary) => {
                    let second = read_node(alloc, version, named, &list[2], first.end, way);
                    let second = behind(2, second, way)?;
                    read_binary(alloc, bounds, binary, first, second, &list[3..], way)
                }
                Operation::Select => {
                    let second = read_node(alloc, version, named, &list[2], first.end, way);
                    let second = behind(2, second, way)?;
                    let third = read_node(alloc, version, named, &list[3], second.end, way);
                    let third = behind(3, third, way)?;
                    read_ternary(alloc, bounds, first, second, third)
                }
            }
        }
        _ => Err(Fault::UnknownOp),
    }
}

/// Passes on what was read from the element at `position` of a node. On a fault, `way` gets
/// `position`.
pub(crate) fn behind(
    position: u8,
    found: Result<Subtree, Fault>,
    way: &mut Indices,
) -> Result<Subtree, Fault>
    requires room { OnErr found (length way.old.items < widest_nodes) }
    ensures same { result ≡ found }
    ensures found { (inputs : Given) (says : Result Tree Located)
        → IsFound inputs says way.old.items found
        → IsFound inputs (below (index position) says) way.new.items result }
    ensures kept { OnOk result (way.new.items ≡ way.old.items) }
    ensures pushed { OnErr result (way.new.items ≡ way.old.items ++ position ∷ []) }
    ensures longer { length way.new.items ≤ length way.old.items + 1 }
{
    match found {
        Ok(tree) => Ok(tree),
        Err(fault) => {
            way.push(position);
            Err(fault)
        }
    }
}

/// Returns the input or binding that a name stands for. `end` is the number of nodes up to and
/// including the name.
fn read_name(named: &NamedInputs<'_, '_>, name: &str, end: u64) -> Result<Subtree, Fault>
    requires { (bounds : Bounds) × (n : Named) × IsNamed named.now bounds n }
    ensures tree { (bounds : Bounds) (n : Named) → IsNamed named.now bounds n
        → IsFound (given bounds n) (input_at n name.now end) [] result }
    ensures end { IfOk result (λ tree. tree.end ≡ end) }
{
    let Some(number) = named.number(name) else {
        return Err(Fault::UnknownInput);
    };
    Ok(Subtree {
        expr: Expr::Input(number),
        dims: named.dims(number).copied(),
        end,
    })
}

/// Returns the operation that the first element of a node names. On a fault, `way` gets the index
/// 0.
fn operation_of(version: Version, head: &Value, way: &mut Indices) -> Result<Operation, Fault>
    requires { way.old.items ≡ [] }
    ensures operation { IsReadAt operation_under
        (operation_at (profile_under version) (view head.now)) way.new.items result }
    ensures kept { OnOk result (way.new.items ≡ []) }
    ensures short { length way.new.items ≤ 1 }
{
    if let Some(name) = head.as_str()
        && let Some(operation) = version.operation(name)
    {
        return Ok(operation);
    }
    way.push(0);
    Err(Fault::UnknownOp)
}

/// Builds an operation on one operand, whose arguments are `arguments`, and checks its dims.
fn read_unary(
    alloc: Global,
    bounds: Bounds,
    operation: Unary,
    operand: Subtree,
    arguments: &[Value],
    way: &mut Indices,
) -> Result<Subtree, Fault>
    requires bounds { IsPossible bounds }
    requires arguments { length arguments.now ≡ length (forms_of operation) }
    requires operand { (g : Given) × (g.bounds ≡ bounds) × IsShaped g operand }
    requires start { way.old.items ≡ [] }
    ensures tree { (g : Given) → g.bounds ≡ bounds → IsShaped g operand → IsFound g
        (made g (forms_of operation) 2 (items_view arguments.now)
        (λ a. unary (unary_of operation a) (term_of operand.expr)) operand.end)
        way.new.items result }
    ensures end { IfOk result (λ tree. tree.end ≡ operand.end) }
    ensures kept { OnOk result (way.new.items ≡ []) }
    ensures short { length way.new.items ≤ 1 }
{
    let first = boxed(alloc, operand.expr)?;
    let expr = with_arguments(alloc, operation, first, arguments, way)?;
    checked(bounds, expr, &[operand.dims], operand.end)
}

/// Builds an operation on two operands, whose arguments are `arguments`, and checks its dims.
fn read_binary(
    alloc: Global,
    bounds: Bounds,
    operation: Binary,
    left: Subtree,
    right: Subtree,
    arguments: &[Value],
    way: &mut Indices,
) -> Result<Subtree, Fault>
    requires bounds { IsPossible bounds }
    requires arguments { length arguments.now ≡ length (forms_of_two operation) }
    requires operands { (g : Given) × (g.bounds ≡ bounds)
        × (IsShaped g left × IsShaped g right) }
    requires start { way.old.items ≡ [] }
    ensures tree { (g : Given) → g.bounds ≡ bounds → IsShaped g left → IsShaped g right → IsFound g
        (made g (forms_of_two operation) 3 (items_view arguments.now)
        (λ a. binary (binary_of operation a) (term_of left.expr) (term_of right.expr)) right.end)
        way.new.items result }
    ensures end { IfOk result (λ tree. tree.end ≡ right.end) }
    ensures kept { OnOk result (way.new.items ≡ []) }
    ensures short { length way.new.items ≤ 1 }
{
    let first = boxed(alloc, left.expr)?;
    let second = boxed(alloc, right.expr)?;
    let expr = both_with_arguments(alloc, operation, first, second, arguments, way)?;
    checked(bounds, expr, &[left.dims, right.dims], right.end)
}

/// Builds the choice between `left` and `right` by `choice`, and checks its dims.
fn read_ternary(
    alloc: Global,
    bounds: Bounds,
    choice: Subtree,
    left: Subtree,
    right: Subtree,
) -> Result<Subtree, Fault>
    requires bounds { IsPossible bounds }
    requires operands { (g : Given) × (g.bounds ≡ bounds)
        × (IsShaped g choice × (IsShaped g left × IsShaped g right)) }
    ensures tree { (g : Given) → g.bounds ≡ bounds
        → IsShaped g choice → IsShaped g left → IsShaped g right → IsFound g
        (checked g (ternary select (term_of choice.expr) (term_of left.expr) (term_of right.expr))
        right.end) [] result }
    ensures end { IfOk result (λ tree. tree.end ≡ right.end) }
{
    let first = boxed(alloc, choice.expr)?;
    let second = boxed(alloc, left.expr)?;
    let third = boxed(alloc, right.expr)?;
    let expr = Expr::Select(first, second, third);
    checked(
        bounds,
        expr,
        &[choice.dims, left.dims, right.dims],
        right.end,
    )
}

/// Allocates a box for an operand.
fn boxed(alloc: Global, expr: Expr) -> Result<Box<Expr>, Fault>
    ensures { MatchResult result (λ b. b.value ≡ expr) (λ fault. fault ≡ Fault.NoMemory) }
{
    match Box::new(alloc, expr) {
        Ok(boxed) => Ok(boxed),
        Err(_) => Err(Fault::NoMemory),
    }
}

/// Checks the dims of an operation whose operands have the dims `operands`, and returns it with its
/// result dims. `end` is the number of nodes up to its end.
fn checked(bounds: Bounds, expr: Expr, operands: &[Dims], end: u64) -> Result<Subtree, Fault>
    requires bounds { IsPossible bounds }
    requires some { 0 < length operands.now }
    requires operands { (tensors : List Contents)
        × (operand_dims bounds (term_of expr) tensors ≡ map Ok operands.now) }
    ensures tree { (g : Given) → g.bounds ≡ bounds
        → IsTrue (has_inputs (term_of expr) (length g.tensors))
        → operand_dims bounds (term_of expr) g.tensors ≡ map Ok operands.now
        → IsFound g (checked g (term_of expr) end) [] result }
    ensures end { IfOk result (λ tree. tree.end ≡ end) }
{
    let dims = expr.dims_by(bounds, operands)?;
    Ok(Subtree { expr, dims, end })
}
