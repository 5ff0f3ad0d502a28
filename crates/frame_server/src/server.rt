//! The server of frames. A change of `answer_frames` touches `serve_frames` in `ending.rt`, and
//! docs/HEADLINE.md, which prints its contract.

ghost use Rattle.std.specs.Prelude.{◌≡◌, ℕ, List, Some, Err, IfSome, OnOk};
ghost use Rattle.frame_server.specs.Limited.{GoesByFramesWithin, AnswersFramesWithin};
ghost use Rattle.frame_server.specs.Limited.{BreaksOffWithin, CutsFramesShortWithin};
ghost use Rattle.frame_server.specs.NotedFrames.{NotesFrames, NotesSomeFrames, NotesWholeFrames};
ghost use Rattle.frame_server.specs.Stream.{StopsReading};
ghost use Rattle.message_server.specs.History.{IsNew};
ghost use Rattle.message_server.specs.Streams.{HasFailed};

use crate::frame_protocol::FrameProtocol;
use crate::writing::OutputBuffer;
use message_server::{Client, StreamFault, answer_messages};
use std::alloc::Global;
use std::sync::Wait;
use std::thread::Threads;
use std::time::Clock;
use tensor_runner::{Journal, Service};

/// Answers each frame of a client, in order, until the client's bytes end. The answer is the frame
/// of the tensor that the request's workers compute, or of the request's first fault. A request
/// that is over a limit of the service is not evaluated, and is answered by the frame of this
/// limit; a request that takes more seconds than the service allows is evaluated no further. Each
/// answer is written before more is read, and is noted in the service's journal: `begin` once the
/// frame is read, `end` once its answer is written.
///
/// A frame that is too long is skipped and answered by `TooLong`. If an allocation fails, only the
/// frame that needed it is answered by `NoMemory`. Between two frames two buffers of 65,536 bytes
/// are kept, and nothing else. An answer of up to 8,192 values is one write. The journal is returned at
/// the end.
///
/// # Errors
///
/// [`StreamFault::ReadFault`] if a read fails or the client's bytes end inside a frame,
/// [`StreamFault::WriteFault`] if a write fails or takes no byte.
pub fn answer_frames<RT, C: Client, J: Journal + Drop, K: Clock + Drop>(
    rt: &RT,
    alloc: Global,
    service: Service<J, K>,
    client: &mut C,
) -> (J, Result<(), StreamFault>)
where
    RT: Threads + Wait + Sync,
    requires by_frames { GoesByFramesWithin service.limits C.owes_nothing }
    requires new { IfSome (C.history client.old) IsNew }

    ensures answered { (stream held : List ℕ) → C.remaining client.old ≡ Some stream
        → C.contents client.old ≡ Some held
        → OnOk result.1
        (AnswersFramesWithin service.limits stream held (C.contents client.new)) }
    // A frame that isn't whole gets no answer.
    ensures broken_off { (stream held : List ℕ) → C.remaining client.old ≡ Some stream
        → C.contents client.old ≡ Some held → result.1 ≡ Err StreamFault.ReadFault
        → BreaksOffWithin service.limits stream held (C.remaining client.new)
        (C.contents client.new) }
    ensures cut_short { (stream held : List ℕ) → C.remaining client.old ≡ Some stream
        → C.contents client.old ≡ Some held → result.1 ≡ Err StreamFault.WriteFault
        → CutsFramesShortWithin service.limits stream held (C.contents client.new) }

    ensures noted { (stream held : List ℕ) → C.remaining client.old ≡ Some stream
        → C.contents client.old ≡ Some held
        → OnOk result.1 (NotesFrames service.limits (J.logs service.journal) stream held
        (C.contents client.new) (J.noted service.journal) (J.noted result.0)) }
    ensures noted_whole { (stream held : List ℕ) → C.remaining client.old ≡ Some stream
        → C.contents client.old ≡ Some held → result.1 ≡ Err StreamFault.ReadFault
        → NotesWholeFrames service.limits (J.logs service.journal) stream held
        (C.remaining client.new) (C.contents client.new) (J.noted service.journal) (J.noted result.0) }
    // An answer that wasn't written whole is not noted.
    ensures noted_some { (stream held : List ℕ) → C.remaining client.old ≡ Some stream
        → C.contents client.old ≡ Some held → result.1 ≡ Err StreamFault.WriteFault
        → NotesSomeFrames service.limits (J.logs service.journal) stream held
        (C.contents client.new) (J.noted service.journal) (J.noted result.0) }

    ensures read_fault { result.1 ≡ Err StreamFault.ReadFault
        → StopsReading (C.read_failures client.old) (C.read_failures client.new)
        (C.remaining client.old) (C.remaining client.new)
        × (C.write_failures client.new ≡ C.write_failures client.old) }
    ensures write_fault { result.1 ≡ Err StreamFault.WriteFault
        → (C.read_failures client.new ≡ C.read_failures client.old)
        × HasFailed (C.write_failures client.old) (C.write_failures client.new) }
    ensures no_failure { OnOk result.1 ((C.read_failures client.new ≡ C.read_failures client.old)
        × (C.write_failures client.new ≡ C.write_failures client.old)) }
{
    let mut protocol = FrameProtocol {
        alloc,
        service,
        room: OutputBuffer::new(),
    };
    let ended = answer_messages(rt, client, &mut protocol);
    (protocol.service.journal, ended)
}
