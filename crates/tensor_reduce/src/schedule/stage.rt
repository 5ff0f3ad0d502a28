//! A stage: the steps that are evaluated together next. `running` evaluates it; specs/private/Stage
//! defines its term.

ghost use Rattle.std.specs.Prelude.{◌≡◌, ◌<◌, ◌++◌, length, IfSome};
ghost use Rattle.tensor_reduce.specs.private.Stage.{IsReducing};

use crate::cutting::NUMBERS;
use crate::schedule::Schedule;
use crate::schedule::grain::Grain;
use crate::schedule::next::Next;
use crate::schedule::readers::{are_reading, is_over};
use crate::step::Step;
use tensor_ops::{Inputs, Tensor};

/// The steps that are evaluated together, of the steps left.
#[derive(Drop)]
pub(crate) enum Stage<'a> {
    /// The next step with what is fused into it, by its own schedule.
    Plain(Next<'a>),
    /// A reduction, with the next step fused into it instead of the tensor of this number. The next
    /// step is a contraction, whose values are combined leaf by leaf.
    Reduced(Next<'a>, u32, &'a Step, Schedule),
}

impl<'a> Stage<'a> {
    ghost use Rattle.tensor_reduce.specs.private.Stage.{IsStageOf, fused_in_stage};

    /// Returns the next stage of the steps left, over inputs and the tensors of earlier steps.
    pub(crate) fn of(
        left: &'a [Step],
        inputs: &Inputs,
        earlier: &[Tensor],
        grain: Grain,
    ) -> Stage<'a>
        requires { 0 < length left.now }
        ensures stage { IsStageOf left.now (length (inputs.now.tensors ++ earlier.now)) result }
        ensures within { fused_in_stage result < length left.now }
    {
        let next = Next::of(left, inputs, earlier, grain);
        let behind = &left[next.fused() + 1..];
        let number = u64::from(inputs.len()) + earlier.len() as u64 + next.fused() as u64;
        match reduction_of(behind, number, next.step(), next.schedule()) {
            Some((reduction, schedule)) => {
                Stage::Reduced(next, number as u32, reduction, schedule)
            }
            None => Stage::Plain(next),
        }
    }

    /// Returns how many steps are fused into the stage's last one.
    pub(crate) fn fused(&self) -> usize
        ensures { result ≡ fused_in_stage self.now }
    {
        match self {
            Stage::Plain(next) => next.fused(),
            Stage::Reduced(next, _, _, _) => next.fused() + 1,
        }
    }
}

/// Returns the first step behind a contraction, with a schedule, if it is a reduction that combines
/// the contraction's values leaf by leaf and no other step reads them. `number` is the
/// contraction's tensor.
fn reduction_of<'a>(
    behind: &'a [Step],
    number: u64,
    contraction: &Step,
    schedule: Schedule,
) -> Option<(&'a Step, Schedule)>
    ensures { IfSome result (λ found. IsReducing behind.now number found.0.now found.1) }
{
    let [reduction, later @ ..] = behind else {
        return None;
    };
    let Some(schedule) = schedule.of_reduced(contraction, reduction) else {
        return None;
    };
    if number >= NUMBERS {
        return None;
    }
    let number = number as u32;
    if !is_over(reduction.expr(), number) || are_reading(later, number) {
        return None;
    }
    Some((reduction, schedule))
}
