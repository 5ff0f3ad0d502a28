//! Reads one text from a stream, for `run`. A change here touches `run`'s promises on what was read
//! (specs/Run.antt).

ghost use Rattle.std.specs.Prelude.{◌≡◌, ◌+◌, ◌-◌, ◌≤◌, ◌<◌, IfOk, IfErr, IfSome, MatchResult};
ghost use Rattle.tensor_runner.specs.private.Kept.{kept_len};
ghost use Rattle.tensor_runner.specs.private.Pieces.{IsFrontOf, Takes};
ghost use Rattle.tensor_runner.specs.Run.{most_reads, TakesAtMost};
ghost use Rattle.message_server.specs.Streams.{HasFailed};

use crate::engine::MOST_READ;
use crate::kept::KeptText;
use message_server::{Source, StreamFault};
use std::alloc::Global;

/// The most bytes that one read asks for.
const CHUNK: usize = 65_536;

/// Reads a stream to its end, or its first [`MOST_READ`] bytes, and returns what is kept of them.
/// If an allocation fails, the rest is still read, to find out whether the text is too long.
///
/// # Errors
///
/// [`StreamFault::ReadFault`] if a read fails.
pub(crate) fn read_text<R: Source>(alloc: Global, reader: &mut R) -> Result<KeptText, StreamFault>
    ensures text { IfOk result (λ kept. IfSome (R.remaining reader.old)
        (λ all. IsFrontOf all kept (R.remaining reader.new))) }
    ensures taken { TakesAtMost most_reads (R.remaining reader.old) (R.remaining reader.new) }
    ensures calls { R.calls reader.new ≤ R.calls reader.old + most_reads }
    ensures err { IfErr result (λ fault. fault ≡ StreamFault.ReadFault) }
    ensures failures { MatchResult result (λ _. R.failures reader.new ≡ R.failures reader.old)
        (λ _. HasFailed (R.failures reader.old) (R.failures reader.new)) }
{
    let mut kept = KeptText::new(alloc);
    let mut buffer = [0u8; CHUNK];
    for _ in 0..MOST_READ {
        let count = read_some(reader, &mut buffer, &mut kept)?;
        if count == 0 {
            return Ok(kept);
        }
        if kept.len() == MOST_READ {
            return Ok(kept);
        }
    }
    unreachable!()
}

/// Makes one read, appends its bytes to the text, and returns how many they are.
fn read_some<R: Source>(
    reader: &mut R,
    buffer: &mut [u8; CHUNK],
    kept: &mut KeptText,
) -> Result<usize, StreamFault>
    requires { kept_len kept.old < most_reads }
    ensures taken { IfOk result (λ count.
        Takes (R.remaining reader.old) (R.remaining reader.new) kept.old kept.new count) }
    ensures at_most { TakesAtMost (most_reads - kept_len kept.old)
        (R.remaining reader.old) (R.remaining reader.new) }
    ensures calls { R.calls reader.new ≤ R.calls reader.old + 1 }
    ensures err { IfErr result (λ fault. fault ≡ StreamFault.ReadFault) }
    ensures failures { MatchResult result (λ _. R.failures reader.new ≡ R.failures reader.old)
        (λ _. HasFailed (R.failures reader.old) (R.failures reader.new)) }
{
    let room = (MOST_READ - kept.len()).min(CHUNK);
    let Ok(count) = reader.read(&mut buffer[..room]) else {
        return Err(StreamFault::ReadFault);
    };
    kept.keep(&buffer[..count], MOST_READ);
    Ok(count)
}
