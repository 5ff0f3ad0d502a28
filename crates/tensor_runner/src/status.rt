//! How a run ended: what its line says, and the fault of `eval`. A change here touches
//! specs/Status.antt and frame_server.

ghost use Rattle.std.specs.Prelude.{◌≡◌};

use thiserror::Error;

/// What the line that answers a text says.
#[derive(Clone, Copy, Debug, Drop, Eq, PartialEq)]
pub enum Status {
    /// The line has a tensor.
    Tensor,
    /// The line has a fault.
    Fault,
}

/// The reason why a request has no tensor.
#[derive(Clone, Copy, Debug, Drop, Eq, PartialEq, Error)]
pub enum RunFault {
    /// An allocation failed.
    #[error("error 15 NoMemory")]
    NoMemory = 15,
}

impl RunFault {
    ghost use Rattle.tensor_runner.specs.Status.{run_fault_number};

    /// Returns the number of the fault, 15. `NoMemory` as a fault of a text has this number too.
    pub fn number(self) -> u32
        ensures { result ≡ run_fault_number self }
    {
        self as u32
    }
}
