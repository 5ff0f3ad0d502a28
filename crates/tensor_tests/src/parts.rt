//! Tests of `PartEvaluator`: parts of the values of a reduction and a contraction, and whole values.

ghost use Rattle.std.specs.Prelude.{◌≡◌, IsTrue, length};
ghost use Rattle.tensor_ops.specs.Index.{size_of};
ghost use Rattle.tensor_ops.specs.Legal.{widest};
ghost use Rattle.tensor_ops.specs.PartEvaluator.{term_in_parts, inputs_in_parts};
ghost use Rattle.tensor_ops.specs.Parts.{has_parts};
ghost use Rattle.tensor_ops.specs.Result.{shape_of};
ghost use Rattle.tensor_ops.specs.Term.{has_inputs};
ghost use Rattle.tensor_ops.specs.Tree.{term_of};

use crate::plans::four_inputs;
use crate::told::expect;
use std::alloc::Global;
use std::process::Abort;
use std::test::Fail;
use tensor_ops::{Binary, Expr, Inputs, PartEvaluator, Reducer, Unary};

/// A part of a value: the place of the value, the first and the end of the range of index lists
/// that are combined, and what they give.
type Part = (u64, u64, u64, i64);

const SUMS: [Part; 4] = [(0, 0, 3, 6), (0, 0, 2, 3), (1, 2, 3, 6), (1, 1, 1, 0)];

const CONTRACTION: [Part; 3] = [(0, 0, 2, 7), (0, 2, 3, 15), (3, 0, 3, 64)];

/// Asserts what a part of a value is, in a tensor of `size` values.
fn gives_part(
    rt: &impl Abort,
    evaluator: &PartEvaluator<'_>,
    size: u64,
    part: Part,
) -> Result<(), Fail>
    requires { size
        ≡ size_of (shape_of (term_in_parts evaluator.now) (inputs_in_parts evaluator.now)) }
{
    let (place, first, last, value) = part;
    if place >= size || first > last || last > evaluator.inner() {
        return Err("there is no such part".into());
    }
    let found = evaluator.part(place, first, last)?;
    expect(rt, (place, first, last), &found, &value);
    Ok(())
}

/// Asserts these parts of an expression's values, and its whole values, over four inputs.
fn gives(
    rt: &impl Abort,
    alloc: Global,
    expr: &Expr,
    inputs: &Inputs<'_>,
    parts: &[Part],
    wholes: &[i64],
) -> Result<(), Fail>
    requires four { (length inputs.now.tensors ≡ 4) × (inputs.now.bounds ≡ widest) }
    requires inputs { IsTrue (has_inputs (term_of expr.now) 4) }
    requires parts { IsTrue (has_parts (term_of expr.now)) }
{
    let size = expr.dims(inputs)?.size();
    let evaluator = PartEvaluator::over(alloc, expr, inputs, &[])?;
    for part in parts {
        gives_part(rt, &evaluator, size, *part)?;
    }
    let found = evaluator.wholes(alloc, 0, size)?;
    expect(rt, parts, &found.as_slice(), &wholes);
    Ok(())
}

#[test]
fn parts_of_sums_and_products(rt: HostRuntime) -> Result<(), Fail> {
    let alloc = rt.alloc();
    let inputs = four_inputs(alloc)?;
    let sums = Unary::Reduce(Reducer::Sum, &[1]).over(alloc, Expr::Input(0))?;
    gives(&rt, alloc, &sums, &inputs, &SUMS, &[6, 15])?;
    let product = Binary::Contract(&[(1, 0)]).over(alloc, Expr::Input(0), Expr::Input(1))?;
    let values = [22, 49, 28, 64];
    gives(&rt, alloc, &product, &inputs, &CONTRACTION, &values)
}
