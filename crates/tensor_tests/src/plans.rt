//! Tests of plans: how many steps an expression has, what `run_plan` makes of them, and the values
//! of a last step by its kernel and its evaluator. A change of what is a step in `tensor_reduce`
//! changes the counts here.

ghost use Rattle.std.specs.Prelude.{◌≡◌, ◌++◌, length, IfOk, IsTrue};
ghost use Rattle.tensor_ops.specs.Legal.{widest};
ghost use Rattle.tensor_reduce.specs.Plan.{IsReady};
ghost use Rattle.tensor_reduce.specs.Term.{has_inputs};
ghost use Rattle.tensor_reduce.specs.Tree.{term_of};

use crate::told::expect;
use std::alloc::{AllocError, Global};
use std::process::Abort;
use std::sync::Wait;
use std::test::Fail;
use std::thread::Threads;
use tensor_ops::{
    Binary, BinaryScalar, Dims, Expr, Inputs, Reducer, Tensor, TensorEvaluator, Unary, UnaryScalar,
    WIDEST, eval_plain,
};
use tensor_reduce::{Kernel, Plan, Setup, Step, StepKernel, run_plan};

/// Makes a tensor of these dims and values.
fn tensor(alloc: Global, sizes: &[u64], values: &[i64]) -> Result<Tensor<'static>, Fail>
    ensures { IfOk result (λ t. t.dims ≡ sizes.now) }
{
    let dims = Dims::new(sizes)?;
    if values.len() as u64 != dims.size() {
        return Err("the values do not fill the dims".into());
    }
    Ok(Tensor::new(dims, values.to_vec(alloc)?))
}

/// Makes four inputs: with dims 2 by 3, 3 by 2 and 2, and a scalar.
pub(crate) fn four_inputs(alloc: Global) -> Result<Inputs<'static>, Fail>
    ensures { IfOk result (λ inputs. (length inputs.tensors ≡ 4) × (inputs.bounds ≡ widest)) }
{
    let first = tensor(alloc, &[2, 3], &[1, 4, 2, 5, 3, 6])?;
    let second = tensor(alloc, &[3, 2], &[1, 3, 5, 2, 4, 6])?;
    let third = tensor(alloc, &[2], &[10, -1])?;
    let fourth = tensor(alloc, &[], &[5])?;
    let mut inputs = Inputs::with_bounds(Vec::new(alloc), WIDEST);
    inputs.push(first)?;
    inputs.push(second)?;
    inputs.push(third)?;
    inputs.push(fourth)?;
    Ok(inputs)
}

/// Asserts that the plan of an expression over [`four_inputs`] has `count` steps, and that two
/// workers give these values by it.
fn has_steps<RT: Threads + Wait + Abort + Sync>(
    rt: &RT,
    alloc: Global,
    expr: &Expr,
    count: usize,
    values: &[i64],
) -> Result<(), Fail>
    requires { IsTrue (has_inputs (term_of expr.now) 4) }
{
    let inputs = four_inputs(alloc)?;
    expr.dims(&inputs)?;
    let plan = Plan::of(alloc, expr, &inputs)?;
    assert_eq!(rt; plan.steps().len(), count);
    assert!(rt; count < 100);
    let setup = Setup {
        workers: 2,
        partitions: Vec::new(alloc),
    };
    let tensor = run_plan(rt, alloc, &setup, 1, &plan, &inputs)?;
    expect(rt, count, &tensor.values(), &values);
    Ok(())
}

/// Returns the matrix product of the first two inputs.
fn product(alloc: Global) -> Result<Expr, AllocError>
    ensures { IfOk result (λ e. IsTrue (has_inputs (term_of e) 4)) }
{
    Binary::Contract(&[(1, 0)]).over(alloc, Expr::Input(0), Expr::Input(1))
}

/// Returns an expression whose plan has two steps: the squares of [`product`].
fn squares(alloc: Global) -> Result<Expr, AllocError>
    ensures { IfOk result (λ e. IsTrue (has_inputs (term_of e) 4)) }
{
    Unary::Each(UnaryScalar::Square).over(alloc, product(alloc)?)
}

/// The values of [`squares`].
const SQUARES: [i64; 4] = [484, 2401, 784, 4096];

/// Checks the steps of a contraction, of an addition to a sum, and of [`squares`].
#[test]
fn steps_of_plans(rt: HostRuntime) -> Result<(), Fail> {
    let alloc = rt.alloc();
    has_steps(&rt, alloc, &product(alloc)?, 1, &[22, 49, 28, 64])?;
    let sum = Unary::Reduce(Reducer::Sum, &[0]).over(alloc, Expr::Input(2))?;
    let both = Binary::Pairwise(BinaryScalar::Add).over(alloc, sum, Expr::Input(3))?;
    has_steps(&rt, alloc, &both, 2, &[14])?;
    has_steps(&rt, alloc, &squares(alloc)?, 2, &SQUARES)
}

/// Asserts that a step over these tensors has the values of [`SQUARES`]: up to `place` by its
/// kernel, from there on by its evaluator, and all written into a list.
fn gives_squares(
    rt: &impl Abort,
    alloc: Global,
    step: &Step,
    inputs: &Inputs,
    earlier: &[Tensor],
    place: u64,
) -> Result<(), Fail>
    requires { IsReady step.now (inputs.now.tensors ++ earlier.now) }
{
    let kernel = StepKernel::of(alloc, step, inputs, earlier)?;
    let evaluator = TensorEvaluator::over(alloc, step.expr(), inputs, earlier)?;
    let size = step.dims().size();
    assert!(rt; place <= size);
    let mut values = kernel.fill(alloc, 0, place)?;
    let upper = evaluator.values(alloc, place, size)?;
    values.extend_from_slice(upper.as_slice())?;
    expect(rt, place, &values.as_slice(), &SQUARES.as_slice());
    let mut written = vec![in alloc; 77i64; size as usize]?;
    evaluator.fill(0, &mut written)?;
    expect(rt, place, &written.as_slice(), &SQUARES.as_slice());
    Ok(())
}

#[test]
fn values_of_a_step(rt: HostRuntime) -> Result<(), Fail> {
    let alloc = rt.alloc();
    let inputs = four_inputs(alloc)?;
    let expr = squares(alloc)?;
    expr.dims(&inputs)?;
    let plan = Plan::of(alloc, &expr, &inputs)?;
    let [first, last] = plan.steps() else {
        return Err("not two steps".into());
    };
    let earlier = [eval_plain(alloc, first.expr(), &inputs)?];
    gives_squares(&rt, alloc, last, &inputs, &earlier, 3)
}
