//! `TensorEvaluator`: the values of an expression, by ranges of places. tensor_reduce and
//! prepared_expressions evaluate by it; specs/Evaluator defines what it evaluates.

pub(crate) mod plain;
pub(crate) mod root;

ghost use Rattle.std.specs.Prelude.{◌≡◌, ◌<◌, ◌≤◌, ◌+◌, ◌-◌, ◌++◌, ℕ, length, IsTrue, IsOk, IfOk};
ghost use Rattle.std.specs.Prelude.{OnOk};
ghost use Rattle.tensor_shape.specs.Legal.{widest};
ghost use Rattle.tensor_shape.specs.Index.{size_of};
ghost use Rattle.tensor_terms.specs.Result.{dims_of, shape_of};
ghost use Rattle.tensor_ops.specs.private.Root.{root_value, root_count, IsSoundRoot, IsSoundRoot-prop};
ghost use Rattle.tensor_terms.specs.Tensors.{tensors_in};
ghost use Rattle.tensor_terms.specs.Term.{has_inputs};
ghost use Rattle.tensor_terms.specs.Tree.{term_of};
ghost use Rattle.tensor_terms.specs.Value.{value_of_place, values_from};

use crate::evaluator::root::Root;
use std::alloc::{AllocError, Allocator, Global};
use tensor_shape::Dims;
use tensor_terms::{Expr, Inputs, Tensor, Tensors};

/// An expression that has result dims, with its inputs, made ready to be evaluated by ranges of
/// places, as by Eigen's evaluator of this name. It is made once. All threads that evaluate ranges
/// share it.
#[derive(Drop)]
pub struct TensorEvaluator<'a> {
    alloc: Global,
    expr: &'a Expr,
    tensors: Tensors<'a>,
    dims: Dims,
    root: Root<'a>,
    ghost has_shape: { dims ≡ shape_of (term_of expr.now) (tensors_in tensors) },
    ghost sound: { IsSoundRoot root } by { IsSoundRoot-prop root },
    ghost count: { root_count root ≡ size_of (shape_of (term_of expr.now) (tensors_in tensors)) },
    ghost means: { (p : ℕ) → p < size_of (shape_of (term_of expr.now) (tensors_in tensors))
        → root_value root p ≡ value_of_place (term_of expr.now) (tensors_in tensors) p },
}

impl<'a> TensorEvaluator<'a> {
    ghost use Rattle.tensor_ops.specs.Evaluator.{term_evaluated, inputs_evaluated};

    /// Returns an evaluator of an expression over inputs.
    ///
    /// What must be a list is evaluated here: reductions, contractions, convolutions, takes and
    /// operations along an axis below the last operation, and the operands of the last operation if
    /// it is one of these. A list that a contraction reads along a view is mostly read where it
    /// lies. Operands of broadcasts are evaluated here too, up to 32,768 values of all of them.
    pub fn of(
        alloc: Global,
        expr: &'a Expr,
        inputs: &'a Inputs<'a>,
    ) -> Result<TensorEvaluator<'a>, AllocError>
        requires inputs { IsTrue (has_inputs (term_of expr.now) (length inputs.now.tensors)) }
        requires dims { IsOk (dims_of inputs.now.bounds (term_of expr.now) inputs.now.tensors) }
        ensures term { IfOk result (λ e. term_evaluated e ≡ term_of expr.now) }
        ensures inputs { IfOk result (λ e. inputs_evaluated e ≡ inputs.now.tensors) }
    {
        // For the proof: the inputs' bounds are bounds of dims.
        let _limit = inputs.bounds();
        TensorEvaluator::over(alloc, expr, inputs, &[])
    }

    /// Returns an evaluator of an expression over inputs and other tensors. The other tensors are
    /// numbered after the inputs. What is evaluated here is as in [`TensorEvaluator::of`].
    pub fn over(
        alloc: Global,
        expr: &'a Expr,
        inputs: &'a Inputs<'a>,
        others: &'a [Tensor<'a>],
    ) -> Result<TensorEvaluator<'a>, AllocError>
        requires inputs { IsTrue (has_inputs (term_of expr.now)
            (length (inputs.now.tensors ++ others.now))) }
        requires dims { IsOk (dims_of widest (term_of expr.now)
            (inputs.now.tensors ++ others.now)) }
        ensures term { IfOk result (λ e. term_evaluated e ≡ term_of expr.now) }
        ensures inputs { IfOk result (λ e. inputs_evaluated e ≡ inputs.now.tensors ++ others.now) }
    {
        let tensors = Tensors::of(inputs, others);
        let (root, dims) = Root::of(alloc, expr, tensors)?;
        Ok(TensorEvaluator {
            alloc,
            expr,
            tensors,
            dims,
            root,
        })
    }

    /// Returns the result dims.
    pub fn dims(&self) -> &Dims
        ensures { result.now ≡ shape_of (term_evaluated self.now) (inputs_evaluated self.now) }
    {
        &self.dims
    }

    /// Returns the values of the expression at the places `[first, last)` of its result, in order.
    /// Memory for the values comes from `alloc`. A few pieces of 1,024 places come from the
    /// evaluator's own allocator.
    pub fn values<A: Allocator>(
        &self,
        alloc: A,
        first: u64,
        last: u64,
    ) -> Result<Vec<i64, A>, AllocError>
        requires order { first ≤ last }
        requires within { last
            ≤ size_of (shape_of (term_evaluated self.now) (inputs_evaluated self.now)) }
        ensures { IfOk result (λ v. v.items ≡ values_from
            (term_evaluated self.now) (inputs_evaluated self.now) first (last - first)) }
    {
        self.root
            .values(self.alloc, alloc, first as usize, last as usize)
    }

    /// Writes the values of the expression from place `first` of its result on, in order, as many
    /// as `out` has room for. They are the values that [`TensorEvaluator::values`] returns. Takes
    /// memory for pieces of 1,024 places and for what a contraction packs, none for the values.
    ///
    /// # Errors
    ///
    /// An allocation fails. Then `out` has any values.
    pub fn fill(&self, first: u64, out: &mut [i64]) -> Result<(), AllocError>
        requires within { first + length out.old
            ≤ size_of (shape_of (term_evaluated self.now) (inputs_evaluated self.now)) }
        ensures len { length out.new ≡ length out.old }
        ensures values { OnOk result (out.new ≡ values_from
            (term_evaluated self.now) (inputs_evaluated self.now) first (length out.old)) }
    {
        let left = self.dims.size() - first;
        let last = first + left.min(out.len() as u64);
        self.root
            .fill(self.alloc, first as usize, last as usize, out)
    }
}
