//! The faults of streams. Their numbers 16 and 17 stand in answers' lines on standard error
//! (`ending.rt`), in specs/Ending.antt and in docs/REQUEST.md.

ghost use Rattle.std.specs.Prelude.{◌≡◌};

use thiserror::Error;

/// The reason why an answer isn't written, or not wholly.
#[derive(Clone, Copy, Debug, Drop, Eq, PartialEq, Error)]
pub enum StreamFault {
    /// A read failed, or the bytes ended inside a message. Nothing was written for this message.
    #[error("a read failed")]
    ReadFault = 16,
    /// A write failed, or took no byte. What was written is a prefix of what was to be written.
    #[error("a write failed")]
    WriteFault = 17,
}

impl StreamFault {
    ghost use Rattle.message_server.specs.Ending.{stream_fault_number};

    /// Returns the number of the fault, 16 or 17.
    pub fn number(self) -> u32
        ensures { result ≡ stream_fault_number self }
    {
        self as u32
    }
}
