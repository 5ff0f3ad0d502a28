//! The calls for a `main`: each answers a text or lines, and returns what the program ends with.
//! The mains tensor_run and tensor_lines are these calls on the standard streams.

ghost use Rattle.std.specs.Prelude.{◌≡◌, ◌⊎◌, ◌+◌, ◌≤◌, Err, IfSome};
ghost use Rattle.tensor_runner.specs.Ending.{IsEndingOf, EndsAnswered, EndsCutShort};
ghost use Rattle.tensor_runner.specs.History.{IsNew};
ghost use Rattle.tensor_runner.specs.Limited.{GoesByLinesWithin};
ghost use Rattle.tensor_runner.specs.LimitedEnding.{EndsWithin};
ghost use Rattle.tensor_runner.specs.Run.{most_reads, TakesAtMost};
ghost use Rattle.message_server.specs.Streams.{HasFailed};

use crate::engine::run;
use crate::journal::Journal;
use crate::server::answer_lines;
use crate::service::Service;
use crate::status::Status;
use message_server::{Client, Ending, Sink, Source, StreamFault, ending_of};
use std::alloc::Global;
use std::sync::Wait;
use std::thread::Threads;
use std::time::Clock;

/// Answers the text of a stream on another stream, as [`run`] does, and returns what the program
/// ends with: status 0 for a tensor and 1 for a fault, or the ending for a stream fault.
pub fn serve<RT: Threads + Wait + Sync, R: Source, W: Sink>(
    rt: &RT,
    alloc: Global,
    reader: &mut R,
    writer: &mut W,
) -> Ending
    // A line was written whole, or the reader failed, or the writer.
    ensures ended { (EndsAnswered (R.remaining reader.old) (R.remaining reader.new)
        (W.contents writer.old) (W.contents writer.new) result
        × (R.failures reader.new ≡ R.failures reader.old)
        × (W.failures writer.new ≡ W.failures writer.old))
        ⊎ ((IsEndingOf (Err StreamFault.ReadFault) result
        × HasFailed (R.failures reader.old) (R.failures reader.new)
        × (writer.new ≡ writer.old))
        ⊎ (EndsCutShort (R.remaining reader.old) (R.remaining reader.new)
        (W.contents writer.old) (W.contents writer.new) result
        × (R.failures reader.new ≡ R.failures reader.old)
        × HasFailed (W.failures writer.old) (W.failures writer.new))) }
    ensures taken { TakesAtMost most_reads (R.remaining reader.old) (R.remaining reader.new) }
    ensures reads { R.calls reader.new ≤ R.calls reader.old + most_reads }
{
    match run(rt, alloc, reader, writer) {
        Ok(Status::Tensor) => Ending::quiet(0),
        Ok(Status::Fault) => Ending::quiet(1),
        Err(fault) => Ending::complaining(fault),
    }
}

/// Answers the lines of a client, as [`answer_lines`] does, and returns what the program ends with.
pub fn serve_lines<RT, C: Client, J: Journal + Drop, K: Clock + Drop>(
    rt: &RT,
    alloc: Global,
    service: Service<J, K>,
    client: &mut C,
) -> Ending
where
    RT: Threads + Wait + Sync,
    requires by_lines { GoesByLinesWithin service.limits C.owes_nothing }
    requires new { IfSome (C.history client.old) IsNew }
    // All lines were answered, or a read failed, or a write.
    ensures ended { EndsWithin service.limits (C.remaining client.old) (C.remaining client.new)
        (C.contents client.old) (C.contents client.new)
        (C.read_failures client.old, C.read_failures client.new)
        (C.write_failures client.old, C.write_failures client.new) result }
{
    let (_, ended) = answer_lines(rt, alloc, service, client);
    ending_of(ended)
}
