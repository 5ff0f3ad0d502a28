//! `PartEvaluator`: parts of the values of reductions and contractions. tensor_reduce combines
//! parts that several threads compute, and prepared_expressions uses it too; specs/Parts defines
//! what a part is.

pub(crate) mod contracted_runs;
pub(crate) mod in_runs;
pub(crate) mod value_runs;

ghost use Rattle.std.specs.Prelude.{◌≡◌, ◌<◌, ◌≤◌, ◌+◌, ◌-◌, ◌++◌, ℕ, length, map};
ghost use Rattle.std.specs.Prelude.{IsTrue, IsOk, IfOk};
ghost use Rattle.std.specs.List.{range_with_len};
ghost use Rattle.tensor_shape.specs.Legal.{widest};
ghost use Rattle.tensor_shape.specs.Index.{size_of};
ghost use Rattle.tensor_ops.specs.private.InRuns.{run_length, run_places, run_part};
ghost use Rattle.tensor_ops.specs.private.InRuns.{HaveOneLength, HaveOneLength-prop};
ghost use Rattle.tensor_ops.specs.Parts.{has_parts, inner_size, part_value, whole_value};
ghost use Rattle.tensor_terms.specs.Result.{dims_of, shape_of};
ghost use Rattle.tensor_terms.specs.Tensors.{tensors_in};
ghost use Rattle.tensor_terms.specs.Term.{has_inputs};
ghost use Rattle.tensor_terms.specs.Tree.{term_of};

use crate::part_evaluator::in_runs::InRuns;
use std::alloc::{AllocError, Allocator, Global};
use tensor_terms::{Expr, Inputs, Tensor, Tensors};

/// A reduction or a contraction with its inputs, made ready to be evaluated by parts of its values.
/// A part is what some of the index lists contribute to one value. All threads that evaluate parts
/// share it.
///
/// Operands are computed as parts are asked for, by pieces of 1,024 values. There is one exception:
/// if a reduction reads a contraction along its first axes, a call takes memory for all values of
/// the contraction that it combines.
#[derive(Drop)]
pub struct PartEvaluator<'a> {
    alloc: Global,
    expr: &'a Expr,
    tensors: Tensors<'a>,
    runs: InRuns<'a>,
    ghost lengths: { HaveOneLength runs } by { HaveOneLength-prop runs },
    ghost inner: { run_length runs ≡ inner_size (term_of expr.now) (tensors_in tensors) },
    ghost places: { run_places runs ≡ size_of (shape_of (term_of expr.now) (tensors_in tensors)) },
    ghost means: { (p first count : ℕ)
        → p < size_of (shape_of (term_of expr.now) (tensors_in tensors))
        → first + count ≤ inner_size (term_of expr.now) (tensors_in tensors)
        → run_part runs p first count
        ≡ part_value (term_of expr.now) (tensors_in tensors) p first count },
}

impl<'a> PartEvaluator<'a> {
    ghost use Rattle.tensor_ops.specs.PartEvaluator.{term_in_parts, inputs_in_parts};

    /// Returns an evaluator of the parts of a reduction or a contraction, over inputs and other
    /// tensors. The other tensors are numbered after the inputs.
    ///
    /// Reductions, contractions and other operations on lists below the last operation are
    /// evaluated here, and operands of broadcasts, up to 32,768 values of all of them. A
    /// contraction that a reduction reads along its first axes is only made ready here.
    pub fn over(
        alloc: Global,
        expr: &'a Expr,
        inputs: &'a Inputs<'a>,
        others: &'a [Tensor<'a>],
    ) -> Result<PartEvaluator<'a>, AllocError>
        requires inputs { IsTrue (has_inputs (term_of expr.now)
            (length (inputs.now.tensors ++ others.now))) }
        requires dims { IsOk (dims_of widest (term_of expr.now)
            (inputs.now.tensors ++ others.now)) }
        requires parts { IsTrue (has_parts (term_of expr.now)) }
        ensures term { IfOk result (λ e. term_in_parts e ≡ term_of expr.now) }
        ensures inputs { IfOk result (λ e. inputs_in_parts e ≡ inputs.now.tensors ++ others.now) }
    {
        let tensors = Tensors::of(inputs, others);
        let runs = InRuns::of(alloc, expr, tensors)?;
        Ok(PartEvaluator {
            alloc,
            expr,
            tensors,
            runs,
        })
    }

    /// Returns the number of index lists that contribute to a value: over the dropped axes of a
    /// reduction, or over the paired axes of a contraction.
    pub fn inner(&self) -> u64
        ensures { result ≡ inner_size (term_in_parts self.now) (inputs_in_parts self.now) }
    {
        self.runs.length() as u64
    }

    /// Returns what the index lists `[first, last)` contribute to the value at a place.
    pub fn part(&self, place: u64, first: u64, last: u64) -> Result<i64, AllocError>
        requires place { place
            < size_of (shape_of (term_in_parts self.now) (inputs_in_parts self.now)) }
        requires order { first ≤ last }
        requires within { last ≤ inner_size (term_in_parts self.now) (inputs_in_parts self.now) }
        ensures { IfOk result (λ v. v ≡ part_value
            (term_in_parts self.now) (inputs_in_parts self.now) place first (last - first)) }
    {
        self.runs
            .part(self.alloc, place as usize, first as usize, last as usize)
    }

    /// Returns the values at the places `[first, last)`, in order, each with all its index lists.
    /// `alloc` allocates the values. If few index lists contribute to a value, many values are
    /// computed at once. If a reduction reads a contraction along its first axes, all of them are,
    /// which takes memory for all values of the contraction that are combined.
    pub fn wholes<A: Allocator>(
        &self,
        alloc: A,
        first: u64,
        last: u64,
    ) -> Result<Vec<i64, A>, AllocError>
        requires order { first ≤ last }
        requires within { last
            ≤ size_of (shape_of (term_in_parts self.now) (inputs_in_parts self.now)) }
        ensures { IfOk result (λ v. v.items ≡ map (whole_value
            (term_in_parts self.now) (inputs_in_parts self.now))
            (range_with_len first (last - first))) }
    {
        self.runs
            .wholes(self.alloc, alloc, first as usize, last as usize)
    }
}
