//! How a server serves: its limits, its journal and its clock. Both servers, of lines and of frames,
//! take it.

use crate::journal::{Journal, Silent};
use crate::limits::Limits;
use std::time::Clock;
use tensor_reduce::NoClock;

/// The limits of a server, its journal, and its clock.
#[derive(Drop)]
pub struct Service<J: Journal + Drop, K: Clock + Drop> {
    /// The limits under which each request is answered.
    pub limits: Limits,
    /// The journal in which each request is noted.
    pub journal: J,
    /// The clock by which the seconds of a request count. It is not read without a limit of seconds.
    pub clock: K,
}

impl Service<Silent, NoClock> {
    ghost use Rattle.std.specs.Prelude.{◌≡◌};
    ghost use Rattle.tensor_runner.specs.Limited.{no_limits};

    /// Returns a service without limits, which notes nothing.
    pub fn plain() -> Service<Silent, NoClock>
        ensures { result.limits ≡ no_limits }
    {
        Service {
            limits: Limits::none(),
            journal: Silent,
            clock: NoClock,
        }
    }
}
