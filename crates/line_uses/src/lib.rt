//! Uses of the servers of lines and of frames, by clients whose streams and history are known. They
//! show that the rules of `Client` and of `Journal` can be met, and what the servers' promises say
//! then. A change of `Client`, `answer_lines` or `answer_frames` touches this crate.
#![tactic(auto)]

ghost use Rattle.std.specs.Prelude.{◌≡◌, [], Some, IfOk};
ghost use Rattle.tensor_runner.specs.Limited.{no_limits, AnswersLinesWithin};
ghost use Rattle.tensor_runner.specs.Lines.{lines_of};

mod frame_uses;
mod journal_uses;
#[cfg(test)]
mod notes;
mod recorded;
#[cfg(test)]
mod streams;

pub use frame_uses::{ByFrames, frames_answering};
pub use journal_uses::{Kept, lines_noted};
pub use recorded::{Asking, Recorded};
use std::alloc::Global;
use std::marker::PhantomData;
use std::sync::Wait;
use std::thread::Threads;
use tensor_runner::{Service, StreamFault, answer_lines};

/// The rule of a client of lines: each line is a request.
#[derive(Drop)]
pub struct ByLines;

impl Asking for ByLines {
    ghost use Rattle.tensor_runner.specs.Serving.{OwesNothing};
    ghost use Rattle.tensor_runner.specs.Limited.{no_limits, lines_within};

    ghost owes_nothing = { λ h. OwesNothing (lines_within no_limits) h };
}

/// Returns the answers to the lines of a text, one behind the other.
///
/// # Errors
///
/// [`StreamFault::WriteFault`] if there is no memory for the answers.
pub fn answers_of<RT: Threads + Wait + Sync>(
    rt: &RT,
    alloc: Global,
    lines: Vec<u8>,
) -> Result<Vec<u8>, StreamFault>
    ensures { IfOk result (λ answers.
        AnswersLinesWithin no_limits (lines_of lines.items) [] (Some answers.items)) }
{
    let mut client: Recorded<ByLines> = Recorded {
        asked: lines,
        taken: 0,
        answers: Vec::new(alloc),
        write_failures: 0,
        writes: 0,
        asking: PhantomData,
    };
    let (_, ended) = answer_lines(rt, alloc, Service::plain(), &mut client);
    ended?;
    Ok(client.answers)
}
