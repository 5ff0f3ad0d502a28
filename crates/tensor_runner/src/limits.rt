//! The limits of a server, and the faults 19 to 21 for requests that are over them. A change here
//! touches `Allowance::over_limits`, the constant lines of `answer.rt`, the options, frame_server, and
//! docs/SERVE.md.

ghost use Rattle.std.specs.Prelude.{◌≡◌};
ghost use Rattle.tensor_runner.specs.Limited.{is_over};

use thiserror::Error;

/// The most that a server computes for one request. `None` is no limit.
#[derive(Clone, Copy, Debug, Drop, Eq, PartialEq)]
pub struct Limits {
    /// The most workers that a request may ask for.
    pub workers: Option<u64>,
    /// The most steps that a request may take, as `steps_of` counts them.
    pub steps: Option<u64>,
    /// The most bytes that a line, without its line feed, or a frame may have.
    pub bytes: Option<u64>,
    /// The seconds after which a request is evaluated no further, from the moment at which it was
    /// wholly read. For 0 no request is evaluated.
    pub seconds: Option<u64>,
}

/// The limit that a request is over.
#[derive(Clone, Copy, Debug, Drop, Eq, PartialEq, Error)]
pub enum LimitFault {
    /// The request asks for more workers.
    #[error("the request asks for more workers than are allowed here")]
    TooManyWorkers = 19,
    /// The request takes more steps.
    #[error("the request takes more steps than are allowed here")]
    TooManySteps = 20,
    /// The evaluation of the request takes more seconds.
    #[error("the request takes more seconds than are allowed here")]
    TooManySeconds = 21,
}

impl Limits {
    ghost use Rattle.tensor_runner.specs.Limited.{is_over, no_limits};

    /// Returns limits that refuse no request.
    pub fn none() -> Limits
        ensures { result ≡ no_limits }
    {
        Limits {
            workers: None,
            steps: None,
            bytes: None,
            seconds: None,
        }
    }

    /// Returns whether a request of the given number of bytes is longer than the limit of bytes.
    pub fn is_too_long(self, bytes: u128) -> bool
        ensures { result ≡ is_over self.bytes bytes }
    {
        is_over(self.bytes, bytes)
    }
}

impl LimitFault {
    ghost use Rattle.tensor_runner.specs.Status.{limit_number, limit_name};

    /// Returns the number of the fault, 19 to 21.
    pub fn number(self) -> u32
        ensures { result ≡ limit_number self }
    {
        self as u32
    }

    /// Returns the name of the fault, as the answer has it.
    pub fn name(self) -> &'static str
        ensures { result.now ≡ limit_name self }
    {
        match self {
            LimitFault::TooManyWorkers => "TooManyWorkers",
            LimitFault::TooManySteps => "TooManySteps",
            LimitFault::TooManySeconds => "TooManySeconds",
        }
    }
}

/// Returns whether a number is over a limit. `None` is no limit.
pub(crate) fn is_over(most: Option<u64>, number: u128) -> bool
    ensures { result ≡ is_over most number }
{
    match most {
        None => false,
        Some(most) => u128::from(most) < number,
    }
}
