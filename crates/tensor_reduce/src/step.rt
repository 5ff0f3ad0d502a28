//! `Step`: one step of a plan.

ghost use Rattle.std.specs.Prelude.{◌≡◌};
ghost use Rattle.tensor_ops.specs.Tree.{term_of};

use std::alloc::Global;
use tensor_ops::{Dims, Expr};

/// A part of an expression that becomes a tensor of its own, over the inputs and the tensors of
/// earlier steps.
#[derive(Drop)]
pub struct Step {
    expr: Expr,
    dims: Dims,
}

impl Step {
    ghost use Rattle.tensor_reduce.specs.Plan.{term_of_step, dims_of_step};

    /// Returns a step with the given expression and dims.
    pub(crate) fn new(expr: Expr, dims: Dims) -> Step
        ensures term { term_of_step result ≡ term_of expr }
        ensures dims { dims_of_step result ≡ dims }
    {
        Step { expr, dims }
    }

    /// Returns the expression, over the inputs and the tensors of earlier steps.
    pub fn expr(&self) -> &Expr
        ensures { term_of result.now ≡ term_of_step self.now }
    {
        &self.expr
    }

    /// Returns the expression and the dims.
    pub(crate) fn into_parts(self) -> (Expr, Dims)
        ensures expr { term_of result.0 ≡ term_of_step self }
        ensures dims { result.1 ≡ dims_of_step self }
    {
        (self.expr, self.dims)
    }

    /// Returns the dims of the step's tensor.
    pub fn dims(&self) -> &Dims
        ensures { result.now ≡ dims_of_step self.now }
    {
        &self.dims
    }
}
