//! What a server allows one request: its limits, the moment from which the request's seconds count, and
//! whether its steps are counted. A change here touches `answer.rt`, both protocols and frame_server.

ghost use Rattle.std.specs.Prelude.{◌≡◌};

use crate::limits::{LimitFault, Limits, is_over};
use crate::work::steps_of;
use expr_reader::Request;
use std::time::Clock;
use tensor_reduce::Deadline;

/// What a server allows one request.
#[derive(Drop)]
pub struct Allowance<'a, K: Clock> {
    /// The limits of the server.
    pub limits: Limits,
    /// Whether a journal notes the steps of the request.
    pub logs: bool,
    /// The moment until which the request may be evaluated, by the limit of seconds.
    pub deadline: Deadline<'a, K>,
    ghost limited: { deadline.seconds ≡ limits.seconds },
}

impl<'a, K: Clock> Allowance<'a, K> {
    ghost use Rattle.std.specs.Prelude.{◌≡◌};
    ghost use Rattle.expr_reader.specs.Asked.{asked_under};
    ghost use Rattle.tensor_runner.specs.Limited.{over_limits, steps_if};

    /// Returns what is allowed to a request that was wholly read just now. `logs` says whether a journal
    /// notes the steps of the request. The clock is read only if seconds are limited.
    pub fn begin(limits: Limits, logs: bool, clock: &'a K) -> Allowance<'a, K>
        ensures limits { result.limits ≡ limits }
        ensures logs { result.logs ≡ logs }
    {
        Allowance {
            limits,
            logs,
            deadline: Deadline::after(clock, limits.seconds),
        }
    }

    /// Returns the steps of a request, if steps are limited or noted in a journal.
    pub fn steps_of(&self, request: &Request<'_>) -> Option<u128>
        ensures { result ≡ steps_if self.now.limits self.now.logs (asked_under request.now) }
    {
        if self.limits.steps.is_some() || self.logs {
            Some(steps_of(request))
        } else {
            None
        }
    }

    /// Returns the limit that a request is over, if any, given its steps as `steps_of` returns them.
    /// The limit of workers comes first.
    pub fn over_limits(&self, request: &Request<'_>, steps: Option<u128>) -> Option<LimitFault>
        requires { steps ≡ steps_if self.now.limits self.now.logs (asked_under request.now) }
        ensures { result ≡ over_limits self.now.limits (asked_under request.now) }
    {
        if is_over(self.limits.workers, u128::from(request.workers)) {
            return Some(LimitFault::TooManyWorkers);
        }
        let Some(steps) = steps else {
            return None;
        };
        if is_over(self.limits.steps, steps) {
            return Some(LimitFault::TooManySteps);
        }
        None
    }
}
