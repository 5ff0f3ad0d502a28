//! Evaluates a request to its tensor, for lines and for frames. A change here touches `answer.rt`,
//! frame_server, and the starts of threads that tests/test_starts.py counts.

ghost use Rattle.std.specs.Prelude.{◌≡◌, ◌+◌, ◌^◌, ◌<◌, length, Ok, None, IfOk, IsOk, IfSome, IsSome};
ghost use Rattle.std.specs.Prelude.{IsTrue};
ghost use Rattle.expr_reader.specs.Asked.{asked_under};
ghost use Rattle.expr_reader.specs.Request.{asked_tensor};
ghost use Rattle.expr_reader.specs.Result.{dims_of};
ghost use Rattle.expr_reader.specs.Term.{has_inputs, nodes_of};
ghost use Rattle.expr_reader.specs.Tree.{term_of};
ghost use Rattle.expr_reader.specs.Value.{tensor_of};
ghost use Rattle.tensor_runner.specs.Limited.{over_limits};

use crate::allowance::Allowance;
use crate::freeing::free_unread;
use crate::limits::Limits;
use crate::status::RunFault;
use expr_reader::{Expr, Inputs, Request, Tensor};
use std::alloc::{AllocError, Global};
use std::sync::Wait;
use std::thread::Threads;
use std::time::Clock;
use tensor_reduce::{Deadline, ForFault, NoClock, Plan, PlanRun, Setup, run_plan_until};

impl From<AllocError> for RunFault {
    ghost use Rattle.std.specs.Prelude.{◌≡◌};
    ghost use Rattle.tensor_runner.specs.declared.status.RunFault.TheVariants.{NoMemory};

    ghost from_gives = { λ _ fault. fault ≡ NoMemory };

    fn from(_error: AllocError) -> RunFault {
        RunFault::NoMemory
    }
}

/// What is needed to evaluate the expressions of a request.
#[derive(Drop)]
struct Evaluation<'a, 'i, 'k, RT, K: Clock> {
    rt: &'a RT,
    alloc: Global,
    request: &'a Request<'i>,
    deadline: &'a Deadline<'k, K>,
}

impl<RT: Threads + Wait + Sync, K: Clock> Evaluation<'_, '_, '_, RT, K> {
    /// Evaluates an expression over these tensors, by the workers and the block of the request.
    /// Returns `None` if the deadline passes first.
    fn tensor(&self, expr: &Expr, tensors: &Inputs<'_>) -> Result<Option<Tensor<'static>>, RunFault>
        requires inputs { IsTrue (has_inputs (term_of expr.now) (length tensors.now.tensors)) }
        requires dims { IsOk (dims_of tensors.now.bounds (term_of expr.now) tensors.now.tensors) }
        requires few { length tensors.now.tensors + nodes_of (term_of expr.now) < 2 ^ 32 }
        ensures tensor { IfOk result (λ found. IfSome found (λ t.
            t ≡ tensor_of (term_of expr.now) tensors.now.tensors)) }
        ensures stopped { result ≡ Ok None → IsSome self.now.deadline.now.seconds }
    {
        let plan = Plan::of(self.alloc, expr, tensors)?;
        let setup = Setup {
            workers: self.request.workers,
            partitions: Vec::new(self.alloc),
        };
        let run = PlanRun {
            setup: &setup,
            block: self.request.block,
            plan: &plan,
            inputs: tensors,
        };
        match run_plan_until(self.rt, self.alloc, &run, self.deadline) {
            Ok(found) => Ok(found),
            Err(ForFault::NoMemory) => Err(RunFault::NoMemory),
            Err(ForFault::BadBlock | ForFault::Pool(_)) => unreachable!(),
        }
    }
}

/// Returns the tensor that a request asks for, evaluated by the workers that it names, in blocks of
/// the size that it names. Neither changes the tensor. The bindings are evaluated first, one after
/// the other; the tensor of each is held as long as something still to be evaluated reads it.
///
/// # Errors
///
/// [`RunFault::NoMemory`] if an allocation fails.
pub fn eval<RT: Threads + Wait + Sync>(
    rt: &RT,
    alloc: Global,
    request: &Request,
) -> Result<Tensor<'static>, RunFault>
    ensures tensor { IfOk result (λ t. t ≡ asked_tensor (asked_under request.now)) }
{
    let clock = NoClock;
    let unlimited = Allowance::begin(Limits::none(), false, &clock);
    match eval_until(rt, alloc, request, &unlimited)? {
        Some(tensor) => Ok(tensor),
        None => unreachable!(),
    }
}

/// Evaluates a request as [`eval`] does, if the request is over no limit of what it is allowed. Returns
/// `None` if the deadline passes before the last part of the work begins. The calling thread reads the
/// clock before each part: a reduction, contraction, convolution, take or operation along an axis, an
/// operand of one of these, or the result.
///
/// # Errors
///
/// [`RunFault::NoMemory`] if an allocation fails.
pub fn eval_until<RT: Threads + Wait + Sync, K: Clock>(
    rt: &RT,
    alloc: Global,
    request: &Request,
    allowance: &Allowance<'_, K>,
) -> Result<Option<Tensor<'static>>, RunFault>
    requires allowed { over_limits allowance.now.limits (asked_under request.now) ≡ None }
    ensures tensor { IfOk result (λ found. IfSome found (λ t.
        t ≡ asked_tensor (asked_under request.now))) }
    ensures stopped { result ≡ Ok None → IsSome allowance.now.limits.seconds }
{
    let evaluation = Evaluation {
        rt,
        alloc,
        request,
        deadline: &allowance.deadline,
    };
    if request.bindings.is_empty() {
        return evaluation.tensor(&request.expr, &request.inputs);
    }
    // For the proof alone: the contract of this call says that the inputs' bounds are possible.
    let _limit = request.inputs.bounds();
    let mut tensors = request.inputs.lent(alloc)?.widened();
    for (done, binding) in request.bindings.iter().enumerate() {
        let found = evaluation.tensor(&binding.expr, &tensors)?;
        let Some(tensor) = found else {
            return Ok(None);
        };
        tensors.push(tensor)?;
        free_unread(request, done, &mut tensors);
    }
    evaluation.tensor(&request.expr, &tensors)
}
