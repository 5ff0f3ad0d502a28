//! Writes one line to a sink, for `run`. The servers of lines write by `write_answer` of
//! message_server, which does it to a client.

ghost use Rattle.std.specs.Prelude.{◌≡◌, ◌<◌, ℕ, List, length, take, OnOk, IfErr};
ghost use Rattle.std.specs.Io.KnownBytes.{Appends};
ghost use Rattle.message_server.specs.Pieces.{AppendsFront};
ghost use Rattle.message_server.specs.Streams.{HasFailed};

use message_server::{Sink, StreamFault};

/// Writes the whole line, by as many writes as are needed. Stops at the first write that fails or
/// takes no byte; what was written is then a prefix of the line.
pub(crate) fn write_line<W: Sink>(writer: &mut W, line: &[u8]) -> Result<(), StreamFault>
    ensures ok { OnOk result (Appends (W.contents writer.old) (W.contents writer.new) line.now) }
    ensures ok_failures { OnOk result (W.failures writer.new ≡ W.failures writer.old) }
    ensures err { IfErr result (λ fault. (fault ≡ StreamFault.WriteFault)
        × AppendsFront (W.contents writer.old) (W.contents writer.new) line.now
        × HasFailed (W.failures writer.old) (W.failures writer.new)) }
{
    let mut written = 0;
    while written < line.len() {
        match writer.write(&line[written..]) {
            Ok(count) if count > 0 => written += count,
            _ => return Err(StreamFault::WriteFault),
        }
    }
    Ok(())
}
