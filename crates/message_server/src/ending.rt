//! The ending of a program: its exit status, and its line on standard error. A change here touches
//! the mains tensor_run, tensor_lines and tensor_frames, and docs/REQUEST.md.

ghost use Rattle.std.specs.Prelude.{◌≡◌, MatchResult};
ghost use Rattle.message_server.specs.Ending.{IsQuiet, IsComplaint};

use crate::fault::StreamFault;

/// The exit status of a program, and what it writes on standard error.
#[derive(Clone, Copy, Debug, Drop, Eq, PartialEq)]
pub struct Ending {
    /// The exit status. It is 1 if a stream failed. Otherwise a program that answers one text ends
    /// with 0 for a tensor and 1 for a fault, and a program that answers many messages with 0.
    pub status: u8,
    /// The line for standard error, with its line feed, if a stream failed.
    pub complaint: Option<&'static str>,
}

impl Ending {
    ghost use Rattle.message_server.specs.Ending.{IsQuiet, IsComplaint};

    /// Returns an ending with this status and nothing on standard error.
    pub fn quiet(status: u8) -> Ending
        ensures { IsQuiet status result }
    {
        Ending {
            status,
            complaint: None,
        }
    }

    /// Returns the ending for a stream fault: its line on standard error, and status 1.
    pub fn complaining(fault: StreamFault) -> Ending
        ensures { IsComplaint fault result }
    {
        let line = match fault {
            StreamFault::ReadFault => "error 16 ReadFault\n",
            StreamFault::WriteFault => "error 17 WriteFault\n",
        };
        Ending {
            status: 1,
            complaint: Some(line),
        }
    }
}

/// Returns the ending of a program that answers many requests: status 0, or the ending for the
/// stream fault that stopped it.
pub fn ending_of(served: Result<(), StreamFault>) -> Ending
    ensures { MatchResult served (λ _. IsQuiet 0 result) (λ fault. IsComplaint fault result) }
{
    match served {
        Ok(()) => Ending::quiet(0),
        Err(fault) => Ending::complaining(fault),
    }
}
