//! Reductions and contractions whose operands lie in runs, so that a part of a value is computed
//! from parts of runs. specs/private/InRuns defines the parts.

ghost use Rattle.std.specs.Prelude.{◌≡◌, ◌<◌, ◌≤◌, ◌+◌, ◌-◌, ℕ, length, map, IsTrue, IsOk, IfOk};
ghost use Rattle.std.specs.List.{range_with_len};
ghost use Rattle.tensor_shape.specs.Index.{size_of};
ghost use Rattle.tensor_shape.specs.Legal.{widest};
ghost use Rattle.tensor_kernels.specs.Contracting.{contraction_count};
ghost use Rattle.tensor_ops.specs.private.Meaning.{count_of, IsSound};
ghost use Rattle.tensor_ops.specs.Parts.{has_parts};
ghost use Rattle.tensor_ops.specs.private.Lowering.{contraction_at, meaning_at};
ghost use Rattle.tensor_terms.specs.Result.{dims_of};
ghost use Rattle.tensor_terms.specs.Tensors.{tensors_in};
ghost use Rattle.tensor_terms.specs.Term.{has_inputs, unary, reduce};
ghost use Rattle.tensor_terms.specs.Tree.{term_of};

use crate::evaluator::root::MOST_STORED;
use crate::lowered::PIECE;
use crate::lowering::part::Part;
use crate::lowering::ready::{contraction_of, worked_out};
use crate::lowering::{lower, lower_two};
use crate::part_evaluator::contracted_runs::ContractedRuns;
use crate::part_evaluator::value_runs::{ValueRuns, come_first};
use std::alloc::{AllocError, Allocator, Global};
use tensor_kernels::Contraction;
use tensor_shape::Dims;
use tensor_terms::{Binary, Expr, Node, Tensors, Unary, all_among, paired_axes};
use tensor_values::Reducer;

/// A reduction or a contraction by runs of its operands.
#[derive(Drop)]
pub(crate) enum InRuns<'a> {
    /// A reduction: the values of a run are combined.
    Combined(Reducer, ValueRuns<'a>),
    /// A reduction of a contraction along its first axes: the values of a run of the contraction
    /// are combined.
    Contracted(Reducer, ContractedRuns<'a>),
    /// A contraction: the products of the values of two runs are added up.
    Multiplied(ValueRuns<'a>, ValueRuns<'a>),
}

impl<'a> InRuns<'a> {
    ghost use Rattle.tensor_ops.specs.private.InRuns.{run_length, run_places, run_part, run_whole};
    ghost use Rattle.tensor_ops.specs.private.InRuns.{HaveOneLength, GivesParts, GivesReduced};

    /// Returns a reduction or a contraction by its runs.
    pub(crate) fn of(
        alloc: Global,
        expr: &Expr,
        tensors: Tensors<'a>,
    ) -> Result<InRuns<'a>, AllocError>
        requires inputs { IsTrue (has_inputs (term_of expr.now) (length (tensors_in tensors))) }
        requires dims { IsOk (dims_of widest (term_of expr.now) (tensors_in tensors)) }
        requires parts { IsTrue (has_parts (term_of expr.now)) }
        ensures { IfOk result (λ r.
            GivesParts r (term_of expr.now) (tensors_in tensors.entry)) }
    {
        match expr.node() {
            Node::Unary(Unary::Reduce(reducer, axes), operand) => {
                InRuns::of_reduction(alloc, reducer, axes, operand, tensors)
            }
            Node::Binary(Binary::Contract(pairs), first, second) => {
                let mut room = MOST_STORED;
                let (first, second) = lower_two(alloc, first, second, tensors, &mut room)?;
                let (firsts, seconds) = paired_axes(pairs, &first.dims).unwrap();
                let left = ValueRuns::along(alloc, firsts.as_slice(), first, &mut room)?;
                let right = ValueRuns::along(alloc, seconds.as_slice(), second, &mut room)?;
                Ok(InRuns::Multiplied(left, right))
            }
            _ => unreachable!(),
        }
    }

    /// Returns a reduction by the runs of its operand.
    fn of_reduction(
        alloc: Global,
        reducer: Reducer,
        axes: &[u64],
        operand: &Expr,
        tensors: Tensors<'a>,
    ) -> Result<InRuns<'a>, AllocError>
        requires inputs { IsTrue (has_inputs (term_of operand.now) (length (tensors_in tensors))) }
        requires dims { IsOk (dims_of widest
            (unary (reduce reducer axes.now) (term_of operand.now)) (tensors_in tensors)) }
        ensures { IfOk result (λ r. GivesParts r
            (unary (reduce reducer axes.now) (term_of operand.now)) (tensors_in tensors.entry)) }
    {
        let mut room = MOST_STORED;
        match operand.node() {
            Node::Binary(Binary::Contract(pairs), first, second) => {
                let (first, second) = lower_two(alloc, first, second, tensors, &mut room)?;
                let (contraction, dims) = contraction_of(alloc, pairs, first, second)?;
                InRuns::of_contraction(alloc, reducer, axes, contraction, dims)
            }
            _ => {
                let operand = lower(alloc, operand, tensors, &mut room)?;
                InRuns::of_values(alloc, reducer, axes, operand, &mut room)
            }
        }
    }

    /// Returns a reduction of a contraction by runs. If the dropped axes are the first ones, the
    /// values of a run lie side by side and are computed as they are asked for. Or else the
    /// contraction is evaluated here.
    fn of_contraction(
        alloc: Global,
        reducer: Reducer,
        axes: &[u64],
        contraction: Contraction<'a>,
        dims: Dims,
    ) -> Result<InRuns<'a>, AllocError>
        requires { contraction_count contraction ≡ size_of dims }
        ensures { IfOk result (λ r. GivesReduced r reducer axes.now dims
            (contraction_at contraction.entry dims)) }
    {
        let rank = dims.rank();
        let dropped = all_among(axes, rank);
        if come_first(dropped.as_slice(), rank) {
            let runs = ContractedRuns::along(dropped.as_slice(), contraction, &dims);
            return Ok(InRuns::Contracted(reducer, runs));
        }
        let operand = worked_out(alloc, contraction, dims)?;
        // The operand is a list, which is read in any order, so it takes no room.
        let mut room = 0;
        InRuns::of_values(alloc, reducer, axes, operand, &mut room)
    }

    /// Returns a reduction of lowered values by their runs.
    fn of_values(
        alloc: Global,
        reducer: Reducer,
        axes: &[u64],
        operand: Part<'a>,
        room: &mut usize,
    ) -> Result<InRuns<'a>, AllocError>
        requires sound { IsSound operand.lowered }
        requires count { count_of operand.lowered ≡ size_of operand.dims }
        ensures { IfOk result (λ r. GivesReduced r reducer axes.now operand.entry.dims
            (meaning_at operand.entry.lowered operand.entry.dims)) }
    {
        let dropped = all_among(axes, operand.dims.rank());
        let runs = ValueRuns::along(alloc, dropped.as_slice(), operand, room)?;
        Ok(InRuns::Combined(reducer, runs))
    }

    /// Returns the number of values of a run.
    pub(crate) fn length(&self) -> usize
        ensures { result ≡ run_length self.now }
    {
        match self {
            InRuns::Combined(_, runs) => runs.length,
            InRuns::Contracted(_, runs) => runs.length,
            InRuns::Multiplied(first, _) => first.length,
        }
    }

    /// Returns what the values `[first, last)` of a place's runs contribute.
    pub(crate) fn part(
        &self,
        alloc: Global,
        place: usize,
        first: usize,
        last: usize,
    ) -> Result<i64, AllocError>
        requires lengths { HaveOneLength self.now }
        requires place { place < run_places self.now }
        requires order { first ≤ last }
        requires within { last ≤ run_length self.now }
        ensures { IfOk result (λ v. v ≡ run_part self.now place first (last - first)) }
    {
        match self {
            InRuns::Combined(reducer, runs) => runs.combined(alloc, *reducer, place, first, last),
            InRuns::Contracted(reducer, runs) => runs.combined(alloc, *reducer, place, first, last),
            InRuns::Multiplied(left, right) => {
                let (x, y) = (place % left.count, place / left.count);
                left.multiplied(alloc, x, right, y, first, last)
            }
        }
    }

    /// Returns the values of the places `[first, last)`, each with its whole runs, in order.
    /// `target` allocates them.
    pub(crate) fn wholes<A: Allocator>(
        &self,
        alloc: Global,
        target: A,
        first: usize,
        last: usize,
    ) -> Result<Vec<i64, A>, AllocError>
        requires lengths { HaveOneLength self.now }
        requires order { first ≤ last }
        requires within { last ≤ run_places self.now }
        ensures { IfOk result (λ v. v.items
            ≡ map (run_whole self.now) (range_with_len first (last - first))) }
    {
        match self {
            InRuns::Combined(reducer, runs) if runs.length <= PIECE => {
                runs.together(alloc, target, *reducer, first, last)
            }
            InRuns::Contracted(reducer, runs) => {
                runs.together(alloc, target, *reducer, first, last)
            }
            _ => self.one_by_one(alloc, target, first, last),
        }
    }

    /// Returns the values of the places `[first, last)`, in order, place by place.
    fn one_by_one<A: Allocator>(
        &self,
        alloc: Global,
        target: A,
        first: usize,
        last: usize,
    ) -> Result<Vec<i64, A>, AllocError>
        requires lengths { HaveOneLength self.now }
        requires order { first ≤ last }
        requires within { last ≤ run_places self.now }
        ensures { IfOk result (λ v. v.items
            ≡ map (run_whole self.now) (range_with_len first (last - first))) }
    {
        let mut values = Vec::with_capacity(target, last - first)?;
        for place in first..last {
            let value = self.part(alloc, place, 0, self.length())?;
            values.push(value)?;
        }
        Ok(values)
    }
}
