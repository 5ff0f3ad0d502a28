//! `eval_plain`: the whole tensor of an expression, on one thread. plain_run, uses and
//! prepared_expressions evaluate by it, and tests compare other ways of evaluation with it.

ghost use Rattle.std.specs.Prelude.{◌≡◌, List, ℕ, length, IsTrue, IsOk, IfOk};
ghost use Rattle.tensor_shape.specs.Index.{IsIndexOf};
ghost use Rattle.tensor_terms.specs.Contents.{value_at};
ghost use Rattle.tensor_terms.specs.Term.{has_inputs};
ghost use Rattle.tensor_terms.specs.Tree.{term_of};
ghost use Rattle.tensor_terms.specs.Result.{dims_of};
ghost use Rattle.tensor_terms.specs.Value.{value, tensor_of};

use crate::evaluator::TensorEvaluator;
use std::alloc::{AllocError, Global};
use tensor_terms::{Expr, Inputs, Tensor};

/// Returns the tensor whose value at each index list is the value of the expression. An error is an
/// allocation that failed.
pub fn eval_plain(
    alloc: Global,
    expr: &Expr,
    inputs: &Inputs,
) -> Result<Tensor<'static>, AllocError>
    requires inputs { IsTrue (has_inputs (term_of expr.now) (length inputs.now.tensors)) }
    requires dims { IsOk (dims_of inputs.now.bounds (term_of expr.now) inputs.now.tensors) }
    ensures tensor { IfOk result (λ t. t ≡ tensor_of (term_of expr.now) inputs.now.tensors) }
    ensures each { IfOk result (λ t. (index : List ℕ) → IsIndexOf t.dims index
        → value_at t index ≡ value (term_of expr.now) inputs.now.tensors index) }
{
    let evaluator = TensorEvaluator::of(alloc, expr, inputs)?;
    let dims = evaluator.dims().copied();
    let values = evaluator.values(alloc, 0, dims.size())?;
    Ok(Tensor::new(dims, values))
}
