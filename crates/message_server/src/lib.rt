//! The loop of a server that answers many messages, for any kind of message: the client, the buffer
//! for its bytes, the loop over the messages, and the ending of the program. tensor_runner (lines)
//! and frame_server (frames) define the two kinds. README.md has the picture.
#![tactic(auto)]

mod answering;
mod buffer;
mod client;
mod ending;
mod fault;
mod protocol;
mod sink;
mod source;
mod uninterrupted;
mod writing;

pub use answering::answer_messages;
pub use buffer::InputBuffer;
pub use client::{Client, Connection};
pub use ending::{Ending, ending_of};
pub use fault::StreamFault;
pub use protocol::{Next, Protocol};
pub use sink::{CountedWriter, Sink};
pub use source::{CountedReader, Source};
pub use uninterrupted::Uninterrupted;
pub use writing::write_answer;
