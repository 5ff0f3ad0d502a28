//! `Plan`: the steps of an expression, in the order in which they run. What they give is defined in
//! specs/Plan.

ghost use Rattle.std.specs.Prelude.{◌≡◌, ◌+◌, ◌<◌, ◌≤◌, ◌^◌, ◌++◌, length, map, IsTrue, IsOk, IfOk};
ghost use Rattle.tensor_ops.specs.Legal.{widest};
ghost use Rattle.tensor_ops.specs.Result.{dims_of};
ghost use Rattle.tensor_ops.specs.Term.{has_inputs, nodes_of};
ghost use Rattle.tensor_ops.specs.Tree.{term_of};
ghost use Rattle.tensor_ops.specs.Value.{tensor_of};
ghost use Rattle.tensor_reduce.specs.Steps.{steps_of, step_nodes};

use crate::cutting::steps_of;
use crate::step::Step;
use std::alloc::{AllocError, Global};
use tensor_ops::{Expr, Inputs};

/// The steps of an expression, children first. There is at least one.
#[derive(Drop)]
pub struct Plan {
    steps: Vec<Step>,
    ghost some: { 0 < length steps.items },
}

impl Plan {
    ghost use Rattle.tensor_ops.specs.Sequence.{worked_out};
    ghost use Rattle.tensor_reduce.specs.Plan.{steps_in, terms_in, dims_in, AreReady};
    ghost use Rattle.tensor_reduce.specs.Plan.{last_tensor};

    /// Returns the plan of an expression over inputs, in time linear in the number of nodes.
    ///
    /// Tensors have numbers of 32 bits. So the plan can be run if there are at most 4,294,967,295
    /// inputs and steps together.
    pub fn of(alloc: Global, expr: &Expr, inputs: &Inputs) -> Result<Plan, AllocError>
        requires inputs { IsTrue (has_inputs (term_of expr.now) (length inputs.now.tensors)) }
        requires dims { IsOk (dims_of inputs.now.bounds (term_of expr.now) inputs.now.tensors) }

        // The steps are what the definition says, each with the dims of its node.
        ensures terms { IfOk result (λ plan.
            terms_in (steps_in plan) ≡ steps_of (length inputs.now.tensors) (term_of expr.now)) }
        ensures dims { IfOk result (λ plan. dims_in (steps_in plan)
            ≡ map (λ t. dims_of widest t inputs.now.tensors)
            (step_nodes (term_of expr.now))) }
        ensures few { IfOk result (λ plan. length (steps_in plan) ≤ nodes_of (term_of expr.now)) }

        // They can be evaluated one after the other, and give the tensors of their nodes. The last
        // one is the root's.
        ensures ready { IfOk result (λ plan.
            length inputs.now.tensors + length (steps_in plan) < 2 ^ 32
            → AreReady (steps_in plan) inputs.now.tensors) }
        ensures tensors { IfOk result (λ plan.
            length inputs.now.tensors + length (steps_in plan) < 2 ^ 32
            → worked_out (terms_in (steps_in plan)) inputs.now.tensors
            ≡ inputs.now.tensors
            ++ map (λ t. tensor_of t inputs.now.tensors) (step_nodes (term_of expr.now))) }
        ensures root { IfOk result (λ plan.
            length inputs.now.tensors + length (steps_in plan) < 2 ^ 32
            → last_tensor (worked_out (terms_in (steps_in plan)) inputs.now.tensors)
            ≡ tensor_of (term_of expr.now) inputs.now.tensors) }
    {
        // Called for its clause `limit`: the inputs' bounds are bounds of dims.
        let _limit = inputs.bounds();
        let steps = steps_of(alloc, inputs, expr)?;
        Ok(Plan { steps })
    }

    /// Returns the steps, in order.
    pub fn steps(&self) -> &[Step]
        ensures { result.now ≡ steps_in self.now }
    {
        &self.steps
    }
}
