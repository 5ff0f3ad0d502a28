//! The use of the server of frames, by a client in memory.

ghost use Rattle.std.specs.Prelude.{◌≡◌, [], Some, Err, OnOk};
ghost use Rattle.frame_server.specs.Limited.{AnswersFramesWithin, BreaksOffWithin};
ghost use Rattle.frame_server.specs.Limited.{CutsFramesShortWithin};
ghost use Rattle.tensor_runner.specs.Limited.{no_limits};

use crate::recorded::{Asking, Recorded};
use frame_server::answer_frames;
use std::alloc::Global;
use std::marker::PhantomData;
use std::sync::Wait;
use std::thread::Threads;
use tensor_runner::{Service, StreamFault};

/// The rule of a client of frames: each frame is a request.
#[derive(Drop)]
pub struct ByFrames;

impl Asking for ByFrames {
    ghost use Rattle.tensor_runner.specs.Serving.{OwesNothing};
    ghost use Rattle.frame_server.specs.Limited.{whole_frames_within};
    ghost use Rattle.tensor_runner.specs.Limited.{no_limits};

    ghost owes_nothing = { λ h. OwesNothing (whole_frames_within no_limits) h };
}

/// Returns the answers to these frames, one behind the other, and how the server ended. After a
/// read fault they are the answers to the whole frames, and after a write fault a prefix of the
/// answers.
pub fn frames_answering<RT: Threads + Wait + Sync>(
    rt: &RT,
    alloc: Global,
    frames: Vec<u8>,
) -> (Vec<u8>, Result<(), StreamFault>)
    ensures answered { OnOk result.1 (AnswersFramesWithin no_limits frames.items [] (Some result.0.items)) }
    // No read fails, so all was read. What wasn't answered is a prefix of a frame.
    ensures broken_off { result.1 ≡ Err StreamFault.ReadFault
        → BreaksOffWithin no_limits frames.items [] (Some []) (Some result.0.items) }
    ensures cut_short { result.1 ≡ Err StreamFault.WriteFault
        → CutsFramesShortWithin no_limits frames.items [] (Some result.0.items) }
{
    let mut client: Recorded<ByFrames> = Recorded {
        asked: frames,
        taken: 0,
        answers: Vec::new(alloc),
        write_failures: 0,
        writes: 0,
        asking: PhantomData,
    };
    let (_, ended) = answer_frames(rt, alloc, Service::plain(), &mut client);
    (client.answers, ended)
}
