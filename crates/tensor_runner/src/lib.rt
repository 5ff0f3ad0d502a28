//! The engine of the programs: it reads a request text and writes one line, or reads many texts,
//! one a line, and writes a line for each. A line has the tensor of the request, or its first
//! fault. frame_server uses `eval_until`, limits and journals of this crate. README.md has the
//! picture.
#![tactic(auto)]

mod allowance;
mod answer;
mod ending;
mod engine;
mod evaluation;
mod freeing;
mod journal;
mod kept;
mod known;
mod laws;
mod limits;
mod line_protocol;
mod options;
mod program;
mod reading;
mod server;
mod service;
mod stack;
mod status;
mod taking;
mod text;
mod work;
mod writing;

pub use allowance::Allowance;
pub use ending::{serve, serve_lines};
pub use engine::{MOST_READ, run};
pub use evaluation::{eval, eval_until};
pub use expr_reader::{Request, Tensor};
pub use journal::{AnyFault, Entry, Journal, LineJournal, Silent};
pub use laws::no_limits_change_no_line;
pub use limits::{LimitFault, Limits};
pub use message_server::{
    Client, Connection, CountedReader, CountedWriter, Ending, Sink, Source, StreamFault,
    Uninterrupted, ending_of, write_answer,
};
pub use options::{Command, OptionFault, RefusedOption, ServeOptions, VERSION, command_of};
pub use program::Program;
pub use server::answer_lines;
pub use service::Service;
pub use stack::grow_stack;
pub use status::{RunFault, Status};
pub use tensor_reduce::{Deadline, NoClock};
pub use text::unsigned_text;
pub use work::steps_of;
