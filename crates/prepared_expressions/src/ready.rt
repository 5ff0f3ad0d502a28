//! An expression with all tensors that it is over. `of_request` makes one of a request, `read_over`
//! in `prepared.rt` one of a record; both are evaluated by the same function.

ghost use Rattle.std.specs.Prelude.{◌≡◌, ◌<◌, ◌≤◌, ◌+◌, ◌-◌, ◌^◌, min, length, Ok};
ghost use Rattle.std.specs.Prelude.{IsTrue, IfOk, OnOk};
ghost use Rattle.expr_reader.specs.Asked.{asked_under};
ghost use Rattle.expr_reader.specs.Request.{asked_tensor};
ghost use Rattle.tensor_ops.specs.Index.{size_of};
ghost use Rattle.tensor_ops.specs.Legal.{widest};
ghost use Rattle.tensor_ops.specs.Result.{dims_of, shape_of};
ghost use Rattle.tensor_ops.specs.Term.{has_inputs};
ghost use Rattle.tensor_ops.specs.Tree.{term_of};
ghost use Rattle.tensor_ops.specs.Value.{values_from};
ghost use Rattle.prepared_expressions.specs.Part.{IsPart};

use crate::by_runs::combines_an_operation;
use expr_reader::Request;
use std::alloc::{AllocError, Global};
use tensor_ops::{Dims, Expr, Inputs, PartEvaluator, TensorEvaluator, eval_plain};

/// An expression that has dims, and the tensors that it is over. Results over them may have as many
/// elements as any tensor may.
#[derive(Drop)]
pub struct Ready<'a> {
    /// The inputs, whose values may be borrowed, and after them the tensors of the bindings.
    pub tensors: Inputs<'a>,
    /// The expression whose tensor is the answer.
    pub expr: Expr,
    /// The dims of the answer.
    pub dims: Dims,
    pub ghost bounds: { tensors.bounds ≡ widest },
    pub ghost has_inputs: { IsTrue (has_inputs (term_of expr) (length tensors.tensors)) },
    pub ghost has_dims: { dims_of widest (term_of expr) tensors.tensors ≡ Ok dims },
}

impl<'a> Ready<'a> {
    ghost use Rattle.prepared_expressions.specs.Ready.{tensor_under};

    /// Evaluates each binding of a request once, over the inputs and the bindings before it.
    ///
    /// # Errors
    ///
    /// An allocation fails.
    pub fn of_request(alloc: Global, request: Request<'a>) -> Result<Ready<'a>, AllocError>
        ensures { IfOk result (λ r. tensor_under r ≡ asked_tensor (asked_under request.entry)) }
    {
        // Called for its clause: dims can go as far as the inputs' bounds.
        let _limit = request.inputs.bounds();
        let mut tensors = request.inputs.widened();
        for binding in &request.bindings {
            let tensor = eval_plain(alloc, &binding.expr, &tensors)?;
            tensors.push(tensor)?;
        }
        Ok(Ready {
            tensors,
            expr: request.expr,
            dims: request.dims,
        })
    }

    /// Writes values of the expression to `out`, the value at place `first` first. It writes as
    /// many as there are from there on, and as fit, and returns how many. Threads that call it with
    /// different places and lists share one answer.
    ///
    /// # Errors
    ///
    /// An allocation fails. Then `out` may have any values.
    pub fn fill(&self, alloc: Global, first: u64, out: &mut [i64]) -> Result<usize, AllocError>
        ensures len { length out.new ≡ length out.old }
        ensures part { IfOk result (λ count. IsPart (term_of self.now.expr)
            self.now.tensors.tensors first out.old count out.new) }
    {
        let count = count_from(self.dims.size(), first, out.len());
        if count == 0 {
            return Ok(0);
        }
        self.fill_all(alloc, first, &mut out[..count])?;
        Ok(count)
    }

    /// Writes `out.len()` values of the expression, from place `first` on; there are that many. A
    /// reduction that `by_runs.rt` chooses stores none of the values that it combines.
    fn fill_all(&self, alloc: Global, first: u64, out: &mut [i64]) -> Result<(), AllocError>
        requires within { first + length out.old
            ≤ size_of (shape_of (term_of self.now.expr) self.now.tensors.tensors) }
        requires fits { first + length out.old < 2 ^ 64 }
        ensures len { length out.new ≡ length out.old }
        ensures values { OnOk result (out.new ≡ values_from (term_of self.now.expr)
            self.now.tensors.tensors first (length out.old)) }
    {
        if combines_an_operation(&self.expr, &self.tensors) {
            let parts = PartEvaluator::over(alloc, &self.expr, &self.tensors, &[])?;
            let values = parts.wholes(alloc, first, first + out.len() as u64)?;
            out.copy_from_slice(values.as_slice());
            return Ok(());
        }
        let evaluator = TensorEvaluator::of(alloc, &self.expr, &self.tensors)?;
        evaluator.fill(first, out)
    }
}

/// Returns how many of `size` values lie from place `first` on, at most `room`.
fn count_from(size: u64, first: u64, room: usize) -> usize
    ensures count { result ≡ min (size - first) room }
    ensures room { result ≤ room }
    ensures inside { 0 < result → first + result ≤ size }
{
    size.saturating_sub(first).min(room as u64) as usize
}
