//! Schedules: how the tensor of a step is evaluated, and which steps before it are fused into it.
//! All choices that only change times are made here; the proofs hold for each of them.
//!
//! A step with few values is evaluated in shards of the index lists that contribute to each value,
//! others by ranges of places. A step is fused into its reader if that is faster than a tensor of
//! its own: its values are computed as they are read, or by one thread beforehand, or are read
//! along a strided view. A contraction is fused into a reduction leaf by leaf. As many workers take
//! part as save time, given the cost of all of it.

pub(crate) mod cost;
pub(crate) mod fusible;
pub(crate) mod grain;
pub(crate) mod next;
pub(crate) mod places_read;
pub(crate) mod readers;
pub(crate) mod rows;
pub(crate) mod sharding;
pub(crate) mod stage;
pub(crate) mod worth;

ghost use Rattle.std.specs.Prelude.{◌≡◌, IfSome, IsTrue};
ghost use Rattle.tensor_ops.specs.Parts.{has_parts};
ghost use Rattle.tensor_ops.specs.Tree.{term_of};
ghost use Rattle.tensor_reduce.specs.Plan.{term_of_step};
ghost use Rattle.tensor_reduce.specs.private.Schedules.{is_cumulative};

use crate::schedule::fusible::{
    SHORT, is_fusible, is_fusing_reduction, is_inner_product, is_strided_view,
};
use crate::schedule::grain::Grain;
use crate::schedule::rows::{is_tensor, row_width};
use crate::schedule::sharding::{FEW_VALUES, Sharding, has_contiguous_parts};
use crate::step::Step;
use tensor_ops::{Binary, Expr, Node, TILED_ROWS, Unary};

/// The fewest rows of both operands for which a contraction reads values wherever they lie. With
/// fewer rows it goes over rows that lie side by side.
const MANY_ROWS: u64 = TILED_ROWS as u64;

/// The fewest index lists of each value for which a reduction of many values reads its operand as
/// it is computed. A shuffled operand is read in rows of this length.
const LONG_RUN: u64 = 4;

/// How the values of a step are divided among workers.
#[derive(Clone, Copy, Drop)]
pub(crate) enum Schedule {
    /// In shards of the index lists that contribute to each value.
    Sharded(Sharding),
    /// By ranges of places: the number of workers, and the number of places of a leaf.
    Ranged(u32, u64),
}

/// A step, and its time on one thread in nanoseconds.
#[derive(Clone, Copy, Drop)]
pub(crate) struct Costed<'a> {
    pub(crate) step: &'a Step,
    pub(crate) cost: u64,
}

/// A step that may be fused into a later one.
#[derive(Clone, Copy, Drop)]
pub(crate) struct Operand<'a> {
    pub(crate) costed: Costed<'a>,
    /// The number of the step's tensor.
    pub(crate) number: u64,
}

impl Costed<'_> {
    ghost use Rattle.std.specs.Prelude.{◌≡◌, ◌≤◌};
    ghost use Rattle.tensor_ops.specs.Index.{size_of};
    ghost use Rattle.tensor_ops.specs.Legal.{most_elements};
    ghost use Rattle.tensor_reduce.specs.Plan.{dims_of_step};

    /// Returns the number of values of the step's tensor.
    fn size(self) -> u64
        ensures value { result ≡ size_of (dims_of_step self.entry.step.now) }
        ensures small { result ≤ most_elements }
    {
        self.step.dims().size()
    }

    /// Returns the time on one thread for this step and one that is fused into it.
    fn cost_with(self, operand: Costed<'_>) -> u64 {
        self.cost.saturating_add(operand.cost)
    }
}

impl Schedule {
    ghost use Rattle.tensor_ops.specs.Index.{size_of};
    ghost use Rattle.tensor_reduce.specs.Plan.{dims_of_step};
    ghost use Rattle.tensor_reduce.specs.private.Schedules.{IsScheduleFor, IsFusingFor, IsOneLeaf};

    /// Returns the schedule of a step by itself. It goes in shards of a block if it has few values
    /// and the parts of each lie side by side. Or else it goes by ranges of places, a contraction
    /// by whole columns of `rows` rows. `places` is the size of the larger operand. A cumulative
    /// operation has one worker, since each range of it would read all earlier values.
    pub(crate) fn of_step(
        step: Costed<'_>,
        places: u64,
        rows: Option<u64>,
        grain: Grain,
    ) -> Schedule
        ensures fits { IsScheduleFor result (term_of_step step.entry.step.now) }
        ensures one { IsTrue (is_cumulative (term_of_step step.entry.step.now))
            → IsOneLeaf (size_of (dims_of_step step.entry.step.now)) result }
    {
        let values = step.size();
        if is_cumulative(step.step.expr()) {
            return Schedule::Ranged(1, values.max(1));
        }
        if values <= FEW_VALUES && has_contiguous_parts(step.step.expr()) {
            let grain = grain.for_shards(values, places, step.cost);
            return Schedule::Sharded(Sharding::by_blocks(grain));
        }
        match rows {
            Some(rows) => {
                let grain = grain.for_columns(values, step.cost);
                Schedule::Ranged(grain.workers, grain.leaf_of_columns(values, places, rows))
            }
            None => {
                let grain = grain.for_values(values, step.cost);
                Schedule::Ranged(grain.workers, grain.leaf_size(values, places))
            }
        }
    }

    /// Returns the schedule of a step with one operand fused into it, if that is faster than a
    /// tensor of the operand. `in_any_order` says that the operand's values can be computed as fast
    /// in any order.
    pub(crate) fn of_fused(
        operand: Operand<'_>,
        in_any_order: bool,
        reader: Costed<'_>,
        grain: Grain,
    ) -> Option<Schedule>
        ensures { IfSome result (λ schedule.
            IsFusingFor schedule (term_of_step reader.entry.step.now)) }
    {
        let Operand { costed, .. } = operand;
        if is_fusible(costed.step) {
            if is_fusing_reduction(reader.step.expr(), in_any_order) {
                return Schedule::of_reduction(costed, reader, grain);
            }
            if reader.size() == 1 && has_contiguous_parts(reader.step.expr()) {
                let grain = grain.for_shards(1, costed.size(), reader.cost_with(costed));
                return Some(Schedule::Sharded(Sharding::by_blocks(grain)));
            }
        }
        if costed.size() <= SHORT || !is_taken(costed, grain) {
            return None;
        }
        Schedule::of_contraction(operand, reader, grain)
    }

    /// Returns the schedule of a step with both operands fused into it, if that is faster. The step
    /// is an inner product of values as they are computed, or a contraction that is as fast without
    /// tensors of its operands, one of which may have few values.
    pub(crate) fn of_both_fused(
        first: Operand<'_>,
        second: Costed<'_>,
        reader: Costed<'_>,
        grain: Grain,
    ) -> Option<Schedule>
        ensures { IfSome result (λ schedule.
            IsFusingFor schedule (term_of_step reader.entry.step.now)) }
    {
        let Operand { costed, .. } = first;
        if is_fusible(costed.step) && is_fusible(second.step) && is_inner_product(reader.step) {
            let cost = reader.cost_with(costed).saturating_add(second.cost);
            let grain = grain.for_shards(1, costed.size(), cost);
            return Some(Schedule::Sharded(Sharding::by_blocks(grain)));
        }
        let longer = costed.size().max(second.size());
        if longer <= SHORT || !is_taken(costed, grain) || !is_taken(second, grain) {
            return None;
        }
        Schedule::of_contraction(first, reader, grain)
    }

    /// Returns the schedule of a reduction that computes each value of its operand once. Few values
    /// go in shards of a block. Many values have one shard each, if as many workers have something
    /// to do as with a tensor of the operand.
    fn of_reduction(operand: Costed<'_>, reader: Costed<'_>, grain: Grain) -> Option<Schedule>
        requires { IsTrue (has_parts (term_of_step reader.step.now)) }
        ensures { IfSome result (λ schedule.
            IsFusingFor schedule (term_of_step reader.entry.step.now)) }
    {
        let (values, places) = (reader.size(), operand.size());
        let cost = reader.cost_with(operand);
        if values <= FEW_VALUES {
            let grain = grain.for_shards(values, places, cost);
            return Some(Schedule::Sharded(Sharding::by_blocks(grain)));
        }
        let grain = grain.for_values(values, cost);
        let leaf = grain.leaf_size(values, places);
        let blocks = places.div_ceil(grain.block);
        let all_work = values.div_ceil(leaf) >= blocks.min(u64::from(grain.workers));
        if !all_work || places < LONG_RUN * values {
            return None;
        }
        Some(Schedule::Sharded(Sharding::by_values(leaf, grain)))
    }

    /// Returns the schedule of a reduction of a contraction whose schedule this is, if it combines
    /// values in the order in which the leaves have them. A leaf then has as many values of the
    /// contraction.
    pub(crate) fn of_reduced(self, contraction: &Step, reduction: &Step) -> Option<Schedule>
        ensures { IfSome result (λ schedule. IsFusingFor schedule (term_of_step reduction.now)) }
    {
        let Schedule::Ranged(workers, leaf) = self else {
            return None;
        };
        let Node::Binary(Binary::Contract(_), _, _) = contraction.expr().node() else {
            return None;
        };
        if !is_fusing_reduction(reduction.expr(), false) {
            return None;
        }
        let run = contraction.dims().size() / reduction.dims().size().max(1);
        Some(Schedule::Sharded(Sharding::by_places(workers, leaf, run)))
    }

    /// Returns the schedule of a contraction of many values that reads this operand without a
    /// tensor, if both operands have many rows. An operand has a row for each index list of its
    /// axes that aren't paired. An operand that isn't a view is computed by one thread beforehand.
    fn of_contraction(operand: Operand<'_>, reader: Costed<'_>, grain: Grain) -> Option<Schedule>
        ensures { IfSome result (λ schedule.
            IsFusingFor schedule (term_of_step reader.entry.step.now)) }
    {
        let Node::Binary(Binary::Contract(pairs), first, _) = reader.step.expr().node() else {
            return None;
        };
        let is_first = is_tensor(first, operand.number);
        let width = row_width(operand.costed.step.dims(), pairs, is_first).max(1);
        let rows = (operand.costed.size() / width).max(1);
        let values = reader.size();
        let others = values / rows;
        if values <= FEW_VALUES || rows.min(others) < MANY_ROWS {
            return None;
        }
        let places = rows.max(others).saturating_mul(width);
        let column = if is_first { rows } else { others };
        let grain = grain.for_columns(values, reader.cost);
        let leaf = grain.leaf_of_columns(values, places, column);
        Some(Schedule::Ranged(grain.workers, leaf))
    }
}

/// Returns whether a contraction reads a step's values as fast without a tensor: along a strided
/// view, or computed by one thread if no second worker saves time.
fn is_taken(costed: Costed<'_>, grain: Grain) -> bool {
    if is_strided_view(costed.step.expr()) {
        return true;
    }
    is_fusible(costed.step) && grain.for_values(costed.size(), costed.cost).workers <= 1
}

/// Returns whether each value of an expression combines the value before it along an axis.
fn is_cumulative(expr: &Expr) -> bool
    ensures { result ≡ is_cumulative (term_of expr.now) }
{
    match expr.node() {
        Node::Unary(Unary::Along(operation, _), _) => operation.is_cumulative(),
        _ => false,
    }
}
