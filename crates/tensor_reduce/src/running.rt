//! Runs a plan: stage by stage, each by its schedule. That no choice of `schedule` changes a tensor
//! is proved here by way of specs/private/Stage and specs/private/Held.

pub(crate) mod batch;
pub(crate) mod combined;
pub(crate) mod freeing;
pub(crate) mod fused_expr;
pub(crate) mod ranged;
pub(crate) mod scheduled;
pub(crate) mod shard_kernel;
pub(crate) mod sharded;
pub(crate) mod step_kernel;
pub(crate) mod workers;

ghost use Rattle.std.specs.Prelude.{◌≡◌, ◌<◌, ◌≤◌, ◌+◌, ◌↔◌, ◌++◌, drop, length};
ghost use Rattle.std.specs.Prelude.{vec_capacity, Ok, None, IfOk, IfErr, IfSome, IsErrOf, IsSome};
ghost use Rattle.parallel_for.specs.Setup.{IsPoolSize, IsNoPoolSize, AreNoPartitions};
ghost use Rattle.tensor_ops.specs.Sequence.{worked_out};
ghost use Rattle.tensor_reduce.specs.Plan.{steps_in, terms_in};
ghost use Rattle.tensor_reduce.specs.Plan.{last_tensor, AreReady};
ghost use Rattle.tensor_reduce.specs.private.Held.{AreHeld};

use crate::deadline::{Deadline, NoClock};
use crate::plan::Plan;
use crate::running::freeing::{free_unread, push_freed};
use crate::running::scheduled::of_stage;
use crate::running::workers::Workers;
use crate::schedule::stage::Stage;
use crate::step::Step;
use parallel_for::{ForFault, PoolFault, Setup};
use std::alloc::Global;
use std::sync::Wait;
use std::thread::Threads;
use std::time::Clock;
use tensor_ops::{Inputs, Tensor};

/// Returns the tensor of a plan's last step. The steps run one after the other. Each goes by blocks
/// of its places over workers of a pool that `setup` describes: as many workers as save time, given
/// what the step costs. If that is one worker, the calling thread evaluates the step and no pool is
/// opened. On several workers, more than 1,048,576 values go batch by batch, with a pool for each.
///
/// A reduction or a contraction of at most 64 values goes in shards, each a leaf of its own, if it
/// drops or pairs the first axes.
///
/// An operand that no other step reads may be fused into its reader, and is then no tensor:
/// - An operand of more than 4,096 values that combines nothing is fused into an inner product, or
///   into a reduction over at least four index lists a value, if the values that are combined lie
///   side by side or can be read in any order. They are computed a thousand at a time.
/// - An operand of more than 4,096 values is fused into a contraction of more than 64 values, with
///   four rows or more in both operands, in two cases. If it only broadcasts, slices, shuffles,
///   chips or strides a tensor, this is read where it lies. If it combines nothing and isn't worth
///   a second worker, the calling thread computes it as one list.
/// - A contraction is fused into a reduction of its first axes. The values of a leaf are combined
///   right after they are computed.
///
/// # Errors
///
/// The first by number: [`ForFault::BadBlock`] for a block of 0, [`ForFault::Pool`] for a setup
/// that makes no pool, then an allocation that failed.
pub fn run_plan<RT: Threads + Wait + Sync>(
    rt: &RT,
    alloc: Global,
    setup: &Setup,
    block: u64,
    plan: &Plan,
    inputs: &Inputs,
) -> Result<Tensor<'static>, ForFault>
    requires { AreReady (steps_in plan.now) inputs.now.tensors }
    ensures tensor { IfOk result (λ t.
        t ≡ last_tensor (worked_out (terms_in (steps_in plan.now)) inputs.now.tensors)) }

    ensures bad_block { IsErrOf result ForFault.BadBlock ↔ (block ≡ 0) }
    ensures bad_workers { IsErrOf result (ForFault.Pool PoolFault.BadWorkers)
        ↔ ((0 < block) × IsNoPoolSize setup.now.workers) }
    ensures bad_partition { IsErrOf result (ForFault.Pool PoolFault.BadPartition)
        ↔ ((0 < block) × IsPoolSize setup.now.workers
        × AreNoPartitions setup.now.workers setup.now.partitions.items) }
    ensures no_other { IsErrOf result (ForFault.Pool PoolFault.NoMemory) → ⊥ }
{
    let clock = NoClock;
    let never = Deadline::after(&clock, None);
    let run = PlanRun {
        setup,
        block,
        plan,
        inputs,
    };
    match run_plan_until(rt, alloc, &run, &never)? {
        Some(tensor) => Ok(tensor),
        None => unreachable!(),
    }
}

/// What [`run_plan`] takes: a plan, the inputs over which it is run, the setup of its pools, and the
/// size of a block.
#[derive(Clone, Copy, Drop)]
pub struct PlanRun<'a, 'i> {
    /// The setup of the pools.
    pub setup: &'a Setup,
    /// How many places a block has.
    pub block: u64,
    /// The plan.
    pub plan: &'a Plan,
    /// The inputs over which the plan is run.
    pub inputs: &'a Inputs<'i>,
}

/// Runs a plan as [`run_plan`] does, and returns `None` if the deadline passes before the last stage
/// begins. A stage is a step with the operands that are fused into it. The clock is read before
/// each stage, by the calling thread; a stage that has begun goes on to its end.
///
/// # Errors
///
/// The errors of [`run_plan`], whether the deadline has passed or not.
pub fn run_plan_until<RT: Threads + Wait + Sync, K: Clock>(
    rt: &RT,
    alloc: Global,
    run: &PlanRun<'_, '_>,
    deadline: &Deadline<'_, K>,
) -> Result<Option<Tensor<'static>>, ForFault>
    requires { AreReady (steps_in run.now.plan.now) run.now.inputs.now.tensors }
    ensures tensor { IfOk result (λ found. IfSome found (λ t. t ≡ last_tensor
        (worked_out (terms_in (steps_in run.now.plan.now)) run.now.inputs.now.tensors))) }
    ensures stopped { result ≡ Ok None → IsSome deadline.now.seconds }

    ensures bad_block { IsErrOf result ForFault.BadBlock ↔ (run.now.block ≡ 0) }
    ensures bad_workers { IsErrOf result (ForFault.Pool PoolFault.BadWorkers)
        ↔ ((0 < run.now.block) × IsNoPoolSize run.now.setup.now.workers) }
    ensures bad_partition { IsErrOf result (ForFault.Pool PoolFault.BadPartition)
        ↔ ((0 < run.now.block) × IsPoolSize run.now.setup.now.workers
        × AreNoPartitions run.now.setup.now.workers run.now.setup.now.partitions.items) }
    ensures no_other { IsErrOf result (ForFault.Pool PoolFault.NoMemory) → ⊥ }
{
    if run.block == 0 {
        return Err(ForFault::BadBlock);
    }
    if let Err(fault) = run.setup.check() {
        return Err(ForFault::Pool(fault));
    }
    let workers = Workers {
        rt,
        alloc,
        setup: run.setup,
        block: run.block,
        count: run.setup.workers,
    };
    work_out(&workers, run.plan.steps(), run.inputs, deadline)
}

/// Runs steps, of which there is at least one, unless the deadline passes first.
fn work_out<RT: Threads + Wait + Sync, K: Clock>(
    workers: &Workers<'_, RT>,
    steps: &[Step],
    inputs: &Inputs,
    deadline: &Deadline<'_, K>,
) -> Result<Option<Tensor<'static>>, ForFault>
    requires ready { AreReady steps.now inputs.now.tensors }
    requires some { 0 < length steps.now }
    ensures tensor { IfOk result (λ found. IfSome found (λ t.
        t ≡ last_tensor (worked_out (terms_in steps.now) inputs.now.tensors))) }
    ensures stopped { result ≡ Ok None → IsSome deadline.now.seconds }
    ensures faults { IfErr result (λ fault. fault ≡ ForFault.NoMemory) }
{
    let mut tensors = Vec::with_capacity(workers.alloc, steps.len())?;
    let mut done = 0;
    while done < steps.len() {
        if deadline.has_passed() {
            return Ok(None);
        }
        done = advance(workers, steps, done, inputs, &mut tensors)?;
        free_unread(workers.alloc, &steps[done..], inputs, &mut tensors);
    }
    let Some(last) = tensors.pop() else {
        unreachable!()
    };
    Ok(Some(last))
}

/// Runs the next stage of the steps left. Returns how many steps are done then.
fn advance<RT: Threads + Wait + Sync>(
    workers: &Workers<'_, RT>,
    steps: &[Step],
    done: usize,
    inputs: &Inputs,
    tensors: &mut Vec<Tensor<'static>>,
) -> Result<usize, ForFault>
    requires more { done < length steps.now }
    requires held { AreHeld (drop done steps.now)
        (worked_out (terms_in steps.now) inputs.now.tensors)
        (inputs.now.tensors ++ tensors.old.items) }
    requires room { length tensors.old.items + length steps.now ≤ vec_capacity tensors.old + done }
    ensures held { IfOk result (λ next. AreHeld (drop next steps.now)
        (worked_out (terms_in steps.now) inputs.now.tensors)
        (inputs.now.tensors ++ tensors.new.items)) }
    ensures more { IfOk result (λ next. done < next) }
    ensures within { IfOk result (λ next. next ≤ length steps.now) }
    ensures some { IfOk result (λ next. 0 < length tensors.new.items) }
    ensures room { IfOk result (λ next.
        length tensors.new.items + length steps.now ≤ vec_capacity tensors.new + next) }
    ensures faults { IfErr result (λ fault. fault ≡ ForFault.NoMemory) }
{
    let earlier: &[Tensor] = tensors;
    let stage = Stage::of(&steps[done..], inputs, earlier, workers.grain());
    let fused = stage.fused();
    let tensor = of_stage(workers, stage, inputs, earlier)?;
    push_freed(workers.alloc, tensors, fused);
    tensors.push_reserved(tensor);
    Ok(done + fused + 1)
}
