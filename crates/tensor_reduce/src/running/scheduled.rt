//! The tensor of a stage, by its schedule, with what is fused into it. Here the expression of a
//! stage is built, and passed to `ranged` or `sharded`.

ghost use Rattle.std.specs.Prelude.{◌≡◌, ◌<◌, ◌^◌, ◌++◌, length, IfOk, IfErr, IsTrue, Ok};
ghost use Rattle.tensor_ops.specs.Legal.{widest};
ghost use Rattle.tensor_ops.specs.Result.{dims_of};
ghost use Rattle.tensor_ops.specs.Term.{has_inputs};
ghost use Rattle.tensor_ops.specs.Tree.{term_of};
ghost use Rattle.tensor_ops.specs.Value.{tensor_of};
ghost use Rattle.tensor_reduce.specs.private.Next.{next_term, last_number};
ghost use Rattle.tensor_reduce.specs.private.Schedules.{IsScheduleFor};
ghost use Rattle.tensor_reduce.specs.private.Stage.{stage_term, stage_dims, stage_schedule, HasNumbers};

use crate::running::fused_expr::{copied, fused_with, fused_with_both};
use crate::running::ranged::of_ranges;
use crate::running::sharded::of_shards;
use crate::running::workers::Workers;
use crate::schedule::Schedule;
use crate::schedule::next::Next;
use crate::schedule::stage::Stage;
use parallel_for::ForFault;
use std::alloc::{AllocError, Global};
use std::sync::Wait;
use std::thread::Threads;
use tensor_ops::{Dims, Expr, Inputs, Tensor};

/// Returns the tensor of a stage, over inputs and the tensors of earlier steps.
pub(crate) fn of_stage<RT: Threads + Wait + Sync>(
    workers: &Workers<'_, RT>,
    stage: Stage<'_>,
    inputs: &Inputs,
    earlier: &[Tensor],
) -> Result<Tensor<'static>, ForFault>
    requires inputs { IsTrue (has_inputs (stage_term stage)
        (length (inputs.now.tensors ++ earlier.now))) }
    requires dims { dims_of widest (stage_term stage) (inputs.now.tensors ++ earlier.now)
        ≡ Ok (stage_dims stage) }
    requires schedule { IsScheduleFor (stage_schedule stage) (stage_term stage) }
    requires numbers { HasNumbers stage }
    ensures tensor { IfOk result (λ t.
        t ≡ tensor_of (stage_term stage.entry) (inputs.now.tensors ++ earlier.now)) }
    ensures faults { IfErr result (λ fault. fault ≡ ForFault.NoMemory) }
{
    match stage {
        Stage::Plain(Next::Alone(step, schedule)) => {
            of_schedule(workers, schedule, step.expr(), step.dims(), inputs, earlier)
        }
        Stage::Plain(next) => {
            let expr = expr_of(workers.alloc, &next)?;
            let (schedule, dims) = (next.schedule(), next.step().dims());
            of_schedule(workers, schedule, &expr, dims, inputs, earlier)
        }
        Stage::Reduced(next, number, reduction, schedule) => {
            let contraction = expr_of(workers.alloc, &next)?;
            let expr = fused_with(workers.alloc, reduction.expr(), number, &contraction)?;
            of_schedule(workers, schedule, &expr, reduction.dims(), inputs, earlier)
        }
    }
}

/// Returns the expression of the next step, with what is fused into it.
fn expr_of(alloc: Global, next: &Next<'_>) -> Result<Expr, AllocError>
    requires { last_number next.now < 2 ^ 32 }
    ensures { IfOk result (λ e. term_of e ≡ next_term next.now) }
{
    match next {
        Next::Alone(step, _) => copied(alloc, step.expr()),
        Next::Fused(number, operand, reader, _) => {
            fused_with(alloc, reader.expr(), *number, operand.expr())
        }
        Next::BothFused(number, first, second, reader, _) => {
            fused_with_both(alloc, reader.expr(), *number, first.expr(), second.expr())
        }
    }
}

/// Returns the tensor of an expression with the given dims, evaluated by a schedule.
fn of_schedule<RT: Threads + Wait + Sync>(
    workers: &Workers<'_, RT>,
    schedule: Schedule,
    expr: &Expr,
    dims: &Dims,
    inputs: &Inputs,
    earlier: &[Tensor],
) -> Result<Tensor<'static>, ForFault>
    requires inputs { IsTrue (has_inputs (term_of expr.now)
        (length (inputs.now.tensors ++ earlier.now))) }
    requires dims { dims_of widest (term_of expr.now) (inputs.now.tensors ++ earlier.now)
        ≡ Ok dims.now }
    requires schedule { IsScheduleFor schedule (term_of expr.now) }
    ensures tensor { IfOk result (λ t.
        t ≡ tensor_of (term_of expr.now) (inputs.now.tensors ++ earlier.now)) }
    ensures faults { IfErr result (λ fault. fault ≡ ForFault.NoMemory) }
{
    match schedule {
        Schedule::Sharded(sharding) => {
            let workers = workers.few(sharding.workers);
            of_shards(&workers, sharding, expr, dims, inputs, earlier)
        }
        Schedule::Ranged(count, leaf) => {
            let workers = workers.few(count);
            of_ranges(&workers, leaf, expr, dims, inputs, earlier)
        }
    }
}
