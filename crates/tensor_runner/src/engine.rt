//! The engine for one text: `run` reads it from a stream and writes its answer to another. A change
//! here touches `serve`; the promises of `run` stand first in docs/HEADLINE.md.

ghost use Rattle.std.specs.Prelude.{◌≡◌, ◌+◌, ◌≤◌, List, ℕ, Some, Err, OnOk, IfOk, IfErr};
ghost use Rattle.tensor_runner.specs.Line.{IsLineOfRead};
ghost use Rattle.tensor_runner.specs.Run.{most_reads, TakesAtMost, Answers, CutsShort};
ghost use Rattle.message_server.specs.Streams.{HasFailed};

use crate::allowance::Allowance;
use crate::answer::{Line, answer};
use crate::limits::Limits;
use crate::reading::read_text;
use crate::status::Status;
use crate::writing::write_line;
use message_server::{Sink, Source, StreamFault};
use std::alloc::Global;
use std::sync::Wait;
use std::thread::Threads;
use tensor_reduce::NoClock;

/// The most bytes of a text that are read. It is one more than a text may have, so a text with this
/// many bytes is too long.
pub const MOST_READ: usize = 16_777_217;

/// Reads a request text to its end, or its first [`MOST_READ`] bytes, and writes the line that
/// answers it: the tensor that the request's workers compute, or the first fault. If an allocation
/// fails, the line is `error 15 NoMemory`. From the first write on nothing is allocated.
///
/// # Errors
///
/// [`StreamFault::ReadFault`] if a read fails; nothing was written then.
/// [`StreamFault::WriteFault`] if a write fails or takes no byte; what was written is then a prefix
/// of the line.
pub fn run<RT: Threads + Wait + Sync, R: Source, W: Sink>(
    rt: &RT,
    alloc: Global,
    reader: &mut R,
    writer: &mut W,
) -> Result<Status, StreamFault>
    ensures answered { (text held : List ℕ) → R.remaining reader.old ≡ Some text
        → W.contents writer.old ≡ Some held
        → IfOk result (Answers text held (R.remaining reader.new) (W.contents writer.new)) }
    ensures cut_short { (text held : List ℕ) → R.remaining reader.old ≡ Some text
        → W.contents writer.old ≡ Some held → result ≡ Err StreamFault.WriteFault
        → CutsShort text held (R.remaining reader.new) (W.contents writer.new) }
    // However the run ends.
    ensures taken { TakesAtMost most_reads (R.remaining reader.old) (R.remaining reader.new) }

    ensures read_fault { result ≡ Err StreamFault.ReadFault
        → HasFailed (R.failures reader.old) (R.failures reader.new) × (writer.new ≡ writer.old) }
    ensures write_fault { result ≡ Err StreamFault.WriteFault
        → (R.failures reader.new ≡ R.failures reader.old)
        × HasFailed (W.failures writer.old) (W.failures writer.new) }
    ensures no_failure { OnOk result ((R.failures reader.new ≡ R.failures reader.old)
        × (W.failures writer.new ≡ W.failures writer.old)) }
    ensures reads { R.calls reader.new ≤ R.calls reader.old + most_reads }
{
    let line = prepare(rt, alloc, reader)?;
    write_line(writer, line.bytes.as_slice())?;
    Ok(line.status)
}

/// Reads the text of a reader and returns the whole line that answers it.
fn prepare<RT: Threads + Wait + Sync, R: Source>(
    rt: &RT,
    alloc: Global,
    reader: &mut R,
) -> Result<Line, StreamFault>
    ensures line { IfOk result (λ line. (text : List ℕ) → R.remaining reader.old ≡ Some text
        → IsLineOfRead text (R.remaining reader.new) line) }
    ensures taken { TakesAtMost most_reads (R.remaining reader.old) (R.remaining reader.new) }
    ensures ok_failures { OnOk result (R.failures reader.new ≡ R.failures reader.old) }
    ensures err { IfErr result (λ fault. (fault ≡ StreamFault.ReadFault)
        × HasFailed (R.failures reader.old) (R.failures reader.new)) }
    ensures calls { R.calls reader.new ≤ R.calls reader.old + most_reads }
{
    let kept = read_text(alloc, reader)?;
    let clock = NoClock;
    let allowance = Allowance::begin(Limits::none(), false, &clock);
    Ok(answer(rt, alloc, &allowance, kept))
}
