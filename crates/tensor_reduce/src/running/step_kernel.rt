//! `StepKernel`: the kernel of a step, for `parallel_for`. specs/Kernels defines its items.

ghost use Rattle.std.specs.Prelude.{◌≡◌, ◌++◌, length, IfOk, IsOk, IsTrue};
ghost use Rattle.tensor_ops.specs.Legal.{widest};
ghost use Rattle.tensor_ops.specs.Result.{dims_of};
ghost use Rattle.tensor_ops.specs.Term.{has_inputs};
ghost use Rattle.tensor_ops.specs.Tree.{term_of};

use crate::step::Step;
use parallel_for::Kernel;
use std::alloc::{AllocError, Allocator, Global};
use tensor_ops::{Expr, Inputs, Tensor, TensorEvaluator};

/// Computes the values of a step by ranges of places. It is made once for a step. All workers read
/// the inputs and the tensors of earlier steps through it, and none of these is copied.
#[derive(Drop)]
pub struct StepKernel<'a> {
    evaluator: TensorEvaluator<'a>,
}

impl<'a> StepKernel<'a> {
    ghost use Rattle.tensor_reduce.specs.Kernels.{kernel_term, kernel_tensors};
    ghost use Rattle.tensor_reduce.specs.Plan.{IsReady, term_of_step};

    /// Returns the kernel of a step over inputs and the tensors of earlier steps.
    pub fn of(
        alloc: Global,
        step: &'a Step,
        inputs: &'a Inputs<'a>,
        earlier: &'a [Tensor<'a>],
    ) -> Result<StepKernel<'a>, AllocError>
        requires { IsReady step.now (inputs.now.tensors ++ earlier.now) }
        ensures term { IfOk result (λ kernel. kernel_term kernel ≡ term_of_step step.now) }
        ensures tensors { IfOk result (λ kernel.
            kernel_tensors kernel ≡ inputs.now.tensors ++ earlier.now) }
    {
        StepKernel::over(alloc, step.expr(), inputs, earlier)
    }

    /// Returns the kernel of an expression over inputs and the tensors of earlier steps.
    pub(crate) fn over(
        alloc: Global,
        expr: &'a Expr,
        inputs: &'a Inputs<'a>,
        earlier: &'a [Tensor<'a>],
    ) -> Result<StepKernel<'a>, AllocError>
        requires inputs { IsTrue (has_inputs (term_of expr.now)
            (length (inputs.now.tensors ++ earlier.now))) }
        requires dims { IsOk (dims_of widest (term_of expr.now)
            (inputs.now.tensors ++ earlier.now)) }
        ensures term { IfOk result (λ kernel. kernel_term kernel ≡ term_of expr.now) }
        ensures tensors { IfOk result (λ kernel.
            kernel_tensors kernel ≡ inputs.now.tensors ++ earlier.now) }
    {
        let evaluator = TensorEvaluator::over(alloc, expr, inputs, earlier)?;
        Ok(StepKernel { evaluator })
    }
}

// The items are the values of the step's expression, one for each place.
impl<'a> Kernel for StepKernel<'a> {
    ghost use Rattle.tensor_ops.specs.Value.{value_of_place};
    ghost use Rattle.tensor_reduce.specs.Kernels.{kernel_term, kernel_tensors, kernel_size};

    type Item = i64;

    ghost size = { kernel_size };

    ghost item_at = { λ kernel. value_of_place (kernel_term kernel) (kernel_tensors kernel) };

    fn fill<A: Allocator>(
        &self,
        alloc: A,
        first: u64,
        last: u64,
    ) -> Result<Vec<i64, A>, AllocError> {
        self.evaluator.values(alloc, first, last)
    }
}
