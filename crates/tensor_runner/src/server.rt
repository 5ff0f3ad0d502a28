//! The server of lines. A change of `answer_lines` touches `serve_lines` in `ending.rt`, and
//! docs/HEADLINE.md, which prints its contract.

ghost use Rattle.std.specs.Prelude.{◌≡◌, ℕ, List, Some, Err, IfSome, OnOk};
ghost use Rattle.tensor_runner.specs.History.{IsNew};
ghost use Rattle.tensor_runner.specs.Limited.{AnswersLinesWithin, BreaksOffWithin};
ghost use Rattle.tensor_runner.specs.Limited.{CutsLinesShortWithin, GoesByLinesWithin};
ghost use Rattle.tensor_runner.specs.Lines.{lines_of};
ghost use Rattle.tensor_runner.specs.NotedLines.{NotesLines, NotesWholeLines, NotesSomeLines};
ghost use Rattle.message_server.specs.Streams.{HasFailed};

use crate::journal::Journal;
use crate::line_protocol::LineProtocol;
use crate::service::Service;
use message_server::{Client, StreamFault, answer_messages};
use std::alloc::Global;
use std::sync::Wait;
use std::thread::Threads;
use std::time::Clock;

/// Answers each line of a client, in order, until the client's bytes end, by what
/// [`run`](crate::run) writes for this line alone. A request that is over a limit of the service is
/// not evaluated, and is answered by the line of this limit; a request that takes more seconds than
/// the service allows is evaluated no further. Each answer is written before more is read, and is
/// noted in the service's journal: `begin` once the line is read, `end` once its answer is written.
///
/// A line feed ends a line. The last line may lack it, and is answered unless it is empty. The rest
/// of a line that is too long is skipped. If an allocation fails, only the line that needed it is
/// answered by `NoMemory`. Between two lines a buffer of 65,536 bytes is kept, and nothing else.
/// The journal is returned at the end.
///
/// # Errors
///
/// [`StreamFault::ReadFault`] if a read fails, [`StreamFault::WriteFault`] if a write fails or
/// takes no byte.
pub fn answer_lines<RT, C: Client, J: Journal + Drop, K: Clock + Drop>(
    rt: &RT,
    alloc: Global,
    service: Service<J, K>,
    client: &mut C,
) -> (J, Result<(), StreamFault>)
where
    RT: Threads + Wait + Sync,
    requires by_lines { GoesByLinesWithin service.limits C.owes_nothing }
    requires new { IfSome (C.history client.old) IsNew }

    ensures answered { (text held : List ℕ) → C.remaining client.old ≡ Some text
        → C.contents client.old ≡ Some held
        → OnOk result.1
        (AnswersLinesWithin service.limits (lines_of text) held (C.contents client.new)) }
    // A line in which a read failed gets no answer.
    ensures broken_off { (text held : List ℕ) → C.remaining client.old ≡ Some text
        → C.contents client.old ≡ Some held → result.1 ≡ Err StreamFault.ReadFault
        → BreaksOffWithin service.limits text held (C.remaining client.new)
        (C.contents client.new) }
    ensures cut_short { (text held : List ℕ) → C.remaining client.old ≡ Some text
        → C.contents client.old ≡ Some held → result.1 ≡ Err StreamFault.WriteFault
        → CutsLinesShortWithin service.limits (lines_of text) held (C.contents client.new) }

    ensures noted { (text held : List ℕ) → C.remaining client.old ≡ Some text
        → C.contents client.old ≡ Some held
        → OnOk result.1 (NotesLines service.limits (J.logs service.journal) (lines_of text) held
        (C.contents client.new) (J.noted service.journal) (J.noted result.0)) }
    ensures noted_whole { (text held : List ℕ) → C.remaining client.old ≡ Some text
        → C.contents client.old ≡ Some held → result.1 ≡ Err StreamFault.ReadFault
        → NotesWholeLines service.limits (J.logs service.journal) text held
        (C.remaining client.new) (C.contents client.new) (J.noted service.journal) (J.noted result.0) }
    // An answer that wasn't written whole is not noted.
    ensures noted_some { (text held : List ℕ) → C.remaining client.old ≡ Some text
        → C.contents client.old ≡ Some held → result.1 ≡ Err StreamFault.WriteFault
        → NotesSomeLines service.limits (J.logs service.journal) (lines_of text) held
        (C.contents client.new) (J.noted service.journal) (J.noted result.0) }

    ensures read_fault { result.1 ≡ Err StreamFault.ReadFault
        → HasFailed (C.read_failures client.old) (C.read_failures client.new)
        × (C.write_failures client.new ≡ C.write_failures client.old) }
    ensures write_fault { result.1 ≡ Err StreamFault.WriteFault
        → (C.read_failures client.new ≡ C.read_failures client.old)
        × HasFailed (C.write_failures client.old) (C.write_failures client.new) }
    ensures no_failure { OnOk result.1 ((C.read_failures client.new ≡ C.read_failures client.old)
        × (C.write_failures client.new ≡ C.write_failures client.old)) }
{
    let mut protocol = LineProtocol { alloc, service };
    let ended = answer_messages(rt, client, &mut protocol);
    (protocol.service.journal, ended)
}
