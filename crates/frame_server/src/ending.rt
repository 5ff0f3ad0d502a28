//! The calls for a `main`: each answers frames, and returns what the program ends with. The main
//! tensor_frames is these calls on the standard streams.

ghost use Rattle.std.specs.Prelude.{IfSome};
ghost use Rattle.frame_server.specs.Limited.{GoesByFramesWithin};
ghost use Rattle.frame_server.specs.LimitedEnding.{EndsWithin};
ghost use Rattle.message_server.specs.History.{IsNew};

use crate::server::answer_frames;
use message_server::{Client, Ending, ending_of};
use std::alloc::Global;
use std::sync::Wait;
use std::thread::Threads;
use std::time::Clock;
use tensor_runner::{Journal, Service};

/// Answers the frames of a client, as [`answer_frames`] does, and returns what the program ends
/// with.
pub fn serve_frames<RT, C: Client, J: Journal + Drop, K: Clock + Drop>(
    rt: &RT,
    alloc: Global,
    service: Service<J, K>,
    client: &mut C,
) -> Ending
where
    RT: Threads + Wait + Sync,
    requires by_frames { GoesByFramesWithin service.limits C.owes_nothing }
    requires new { IfSome (C.history client.old) IsNew }
    // All frames were answered, or the reading stopped, or a write failed.
    ensures ended { EndsWithin service.limits (C.remaining client.old) (C.remaining client.new)
        (C.contents client.old) (C.contents client.new)
        (C.read_failures client.old, C.read_failures client.new)
        (C.write_failures client.old, C.write_failures client.new) result }
{
    let (_, ended) = answer_frames(rt, alloc, service, client);
    ending_of(ended)
}
