//! Tests that requests, and copies of their expressions made node by node, have the same tensors.

ghost use Rattle.expr_reader.specs.Asked.{IsUnbound};
ghost use Rattle.std.specs.Prelude.{◌≡◌, IfOk};
ghost use Rattle.tensor_ops.specs.Tree.{term_of};

use crate::texts::request;
use crate::told::expect;
use expr_reader::{Request, read_request};
use std::alloc::{AllocError, Global};
use std::process::Abort;
use std::sync::Wait;
use std::test::Fail;
use std::thread::Threads;
use tensor_ops::{Expr, Node, eval_plain};
use tensor_runner::eval;

const INPUTS: &str = concat!(
    r#"{"b":{"dims":[3,2],"data":[1,3,5,2,4,6]},"#,
    r#""a":{"dims":[2,3],"data":[1,4,2,5,3,6]},"k":{"dims":[2],"data":[10,1]}}"#
);

/// Expressions, and the dims and values of their tensors. Their nodes have no operand, one, two and
/// three.
const TENSORS: &[(&str, &[u64], &[i64])] = &[
    (r#""k""#, &[2], &[10, 1]),
    (r#"["shuffle","b",[1,0]]"#, &[2, 3], &[1, 2, 3, 4, 5, 6]),
    (r#"["maximum","a",[1]]"#, &[2], &[3, 6]),
    (
        r#"["contract","a","b",[[1,0]]]"#,
        &[2, 2],
        &[22, 49, 28, 64],
    ),
    (r#"["convolve","a","k",[1]]"#, &[2, 2], &[12, 45, 23, 56]),
    (
        r#"["select",["lt","k",["constant","k",5]],["neg",["add","k","k"]],"k"]"#,
        &[2],
        &[10, -2],
    ),
];

/// Copies an expression node by node.
fn copied(alloc: Global, expr: &Expr) -> Result<Expr, AllocError>
    ensures { IfOk result (λ copy. term_of copy ≡ term_of expr.now) }
{
    match expr.node() {
        Node::Input(number) => Ok(Expr::Input(number)),
        Node::Unary(operation, a) => operation.over(alloc, copied(alloc, a)?),
        Node::Binary(operation, a, b) => {
            operation.over(alloc, copied(alloc, a)?, copied(alloc, b)?)
        }
        Node::Ternary(operation, a, b, c) => {
            let first = copied(alloc, a)?;
            operation.over(alloc, first, copied(alloc, b)?, copied(alloc, c)?)
        }
    }
}

/// Asserts that `expr` has these dims and values, evaluated on one thread.
fn plainly_has(
    rt: &impl Abort,
    alloc: Global,
    request: &Request,
    expr: &Expr,
    sizes: &[u64],
    values: &[i64],
) -> Result<(), Fail>
    requires unbound { IsUnbound request.now }
    requires same { term_of expr.now ≡ term_of request.now.expr }
{
    let tensor = eval_plain(alloc, expr, &request.inputs)?;
    expect(rt, sizes, &tensor.dims().as_slice(), &sizes);
    expect(rt, sizes, &tensor.values(), &values);
    Ok(())
}

/// Asserts that an expression has these dims and values: evaluated by workers, and on one thread as
/// a copy.
fn has_values<RT: Threads + Wait + Abort + Sync>(
    rt: &RT,
    alloc: Global,
    expr: &str,
    sizes: &[u64],
    values: &[i64],
) -> Result<(), Fail> {
    let text = request(alloc, 2, INPUTS, expr)?;
    let request = read_request(alloc, text.as_bytes())?;
    let numbers = (request.workers, request.block, request.inputs.len());
    expect(rt, expr, &numbers, &(2, 4, 3));
    let tensor = eval(rt, alloc, &request)?;
    expect(rt, expr, &tensor.dims().as_slice(), &sizes);
    expect(rt, expr, &tensor.values(), &values);
    let copy = copied(alloc, &request.expr)?;
    plainly_has(rt, alloc, &request, &copy, sizes, values)
}

#[test]
fn tensors_of_requests_and_their_copies(rt: HostRuntime) -> Result<(), Fail> {
    for &(expr, sizes, values) in TENSORS {
        has_values(&rt, rt.alloc(), expr, sizes, values)?;
    }
    Ok(())
}
