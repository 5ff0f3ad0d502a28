//! The next of the steps left, and the steps that are fused into it: if that is faster, and if no
//! other step left reads their tensors. specs/private/Next defines its term.

ghost use Rattle.std.specs.Prelude.{◌≡◌, ◌<◌, ◌++◌, length, IfSome};

use crate::cutting::NUMBERS;
use crate::schedule::cost::cost_of;
use crate::schedule::grain::Grain;
use crate::schedule::places_read::{is_read_in_any_order, places_combined, rows_of_column};
use crate::schedule::readers::{are_read_elsewhere, are_reading};
use crate::schedule::{Costed, Operand, Schedule};
use crate::step::Step;
use tensor_ops::{Inputs, Tensor};

/// The step that is evaluated next, with what is fused into it, and its schedule.
#[derive(Drop)]
pub(crate) enum Next<'a> {
    /// The first step.
    Alone(&'a Step, Schedule),
    /// The second step, with the first fused into it instead of the tensor of this number.
    Fused(u32, &'a Step, &'a Step, Schedule),
    /// The third step, with the first two fused into it instead of the tensors of this number and
    /// the next.
    BothFused(u32, &'a Step, &'a Step, &'a Step, Schedule),
}

impl<'a> Next<'a> {
    ghost use Rattle.tensor_reduce.specs.private.Next.{IsNextOf, fused_in, next_dims, next_schedule};
    ghost use Rattle.tensor_reduce.specs.Plan.{dims_of_step};

    /// Returns the next of the steps left, over inputs and the tensors of earlier steps: the third
    /// if both before it may be fused into it, or the second if the first may, or else the first.
    pub(crate) fn of(
        left: &'a [Step],
        inputs: &Inputs,
        earlier: &[Tensor],
        grain: Grain,
    ) -> Next<'a>
        requires { 0 < length left.now }
        ensures next { IsNextOf left.now (length (inputs.now.tensors ++ earlier.now)) result }
        ensures within { fused_in result < length left.now }
    {
        if let Some(next) = Next::with_both_fused(left, inputs, earlier, grain) {
            return next;
        }
        if let Some(next) = Next::with_one_fused(left, inputs, earlier, grain) {
            return next;
        }
        let step = &left[0];
        let places = places_combined(step.expr(), inputs, earlier);
        let rows = rows_of_column(step.expr(), inputs, earlier);
        let cost = cost_of(step, inputs, earlier, left);
        let schedule = Schedule::of_step(Costed { step, cost }, places, rows, grain);
        Next::Alone(step, schedule)
    }

    /// Returns the second of the steps left, with the first fused into it, if that is faster.
    fn with_one_fused(
        left: &'a [Step],
        inputs: &Inputs,
        earlier: &[Tensor],
        grain: Grain,
    ) -> Option<Next<'a>>
        ensures next { IfSome result
            (IsNextOf left.now (length (inputs.now.tensors ++ earlier.now))) }
        ensures within { IfSome result (λ next. fused_in next < length left.now) }
    {
        let [first, second, later @ ..] = left else {
            return None;
        };
        let number = u64::from(inputs.len()) + earlier.len() as u64;
        let costed = Costed {
            step: first,
            cost: cost_of(first, inputs, earlier, left),
        };
        let operand = Operand { costed, number };
        let in_any_order = is_read_in_any_order(first.expr(), inputs, earlier);
        let reader = Costed {
            step: second,
            cost: cost_of(second, inputs, earlier, left),
        };
        let Some(schedule) = Schedule::of_fused(operand, in_any_order, reader, grain) else {
            return None;
        };
        if number >= NUMBERS || are_reading(later, number as u32) {
            return None;
        }
        Some(Next::Fused(number as u32, first, second, schedule))
    }

    /// Returns the third of the steps left, with the first two fused into it, if that is faster.
    fn with_both_fused(
        left: &'a [Step],
        inputs: &Inputs,
        earlier: &[Tensor],
        grain: Grain,
    ) -> Option<Next<'a>>
        ensures next { IfSome result
            (IsNextOf left.now (length (inputs.now.tensors ++ earlier.now))) }
        ensures within { IfSome result (λ next. fused_in next < length left.now) }
    {
        let [first, second, third, later @ ..] = left else {
            return None;
        };
        let number = u64::from(inputs.len()) + earlier.len() as u64;
        let costed = Costed {
            step: first,
            cost: cost_of(first, inputs, earlier, left),
        };
        let operand = Operand { costed, number };
        let other = Costed {
            step: second,
            cost: cost_of(second, inputs, earlier, left),
        };
        let reader = Costed {
            step: third,
            cost: cost_of(third, inputs, earlier, left),
        };
        let Some(schedule) = Schedule::of_both_fused(operand, other, reader, grain) else {
            return None;
        };
        if number + 1 >= NUMBERS || are_read_elsewhere(number as u32, second, later) {
            return None;
        }
        Some(Next::BothFused(number as u32, first, second, third, schedule))
    }

    /// Returns how many steps are fused into the last one.
    pub(crate) fn fused(&self) -> usize
        ensures { result ≡ fused_in self.now }
    {
        match self {
            Next::Alone(_, _) => 0,
            Next::Fused(_, _, _, _) => 1,
            Next::BothFused(_, _, _, _, _) => 2,
        }
    }

    /// Returns the last step, into which the others are fused.
    pub(crate) fn step(&self) -> &'a Step
        ensures { dims_of_step result.now ≡ next_dims self.now }
    {
        match self {
            Next::Alone(step, _) | Next::Fused(_, _, step, _) | Next::BothFused(_, _, _, step, _) =>
                step,
        }
    }

    /// Returns the schedule.
    pub(crate) fn schedule(&self) -> Schedule
        ensures { result ≡ next_schedule self.now }
    {
        match self {
            Next::Alone(_, schedule)
            | Next::Fused(_, _, _, schedule)
            | Next::BothFused(_, _, _, _, schedule) => *schedule,
        }
    }
}
