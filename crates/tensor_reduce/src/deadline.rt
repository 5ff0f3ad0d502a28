//! The time that a run may take. `work_out` in `running.rt` asks for it between two stages, and
//! nothing else does. tensor_runner makes the deadline of each request, and its documents say what
//! 0 seconds and a clock that fails mean.

ghost use Rattle.std.specs.Prelude.{◌≡◌, IsTrue, IsSome};

use std::io;
use std::io::ErrorKind;
use std::time::{Clock, Duration, Instant};

/// How long a run may take by a clock, or that it may take as long as it does.
#[derive(Drop)]
pub struct Deadline<'a, K: Clock> {
    clock: &'a K,
    /// The seconds after which the deadline has passed. `None` if it never passes.
    pub seconds: Option<u64>,
    begun: Option<Instant>,
}

impl<'a, K: Clock> Deadline<'a, K> {
    ghost use Rattle.std.specs.Prelude.{◌≡◌, IsTrue, IsSome};

    /// Returns the deadline that passes the given number of seconds from now. For `None` it never
    /// passes, and the clock is not read.
    pub fn after(clock: &'a K, seconds: Option<u64>) -> Deadline<'a, K>
        ensures { result.seconds ≡ seconds }
    {
        let begun = match seconds {
            Some(_) => Instant::now(clock).ok(),
            None => None,
        };
        Deadline {
            clock,
            seconds,
            begun,
        }
    }

    /// Returns whether the deadline has passed. A deadline after 0 seconds has passed at once. If a
    /// reading of the clock fails, the deadline has not passed; if the first one failed, it never
    /// passes.
    pub fn has_passed(&self) -> bool
        ensures { IsTrue result → IsSome self.now.seconds }
    {
        let Some(seconds) = self.seconds else {
            return false;
        };
        let Some(begun) = self.begun else {
            return false;
        };
        match begun.elapsed(self.clock) {
            Ok(passed) => passed.as_secs() >= seconds,
            Err(_) => false,
        }
    }
}

/// A clock that can't be read, for a deadline that never passes.
#[derive(Clone, Copy, Debug, Drop, Eq, PartialEq)]
pub struct NoClock;

impl Clock for NoClock {
    fn monotonic(&self) -> io::Result<Duration> {
        Err(io::Error::from(ErrorKind::Unsupported))
    }

    fn since_1970(&self) -> io::Result<Duration> {
        Err(io::Error::from(ErrorKind::Unsupported))
    }
}
