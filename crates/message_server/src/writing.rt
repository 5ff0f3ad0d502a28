//! Writing an answer to a client. Both protocols write by it, so a change here touches the `write`
//! of tensor_runner and of frame_server.

ghost use Rattle.std.specs.Prelude.{◌≡◌, ◌<◌, length, take, IfErr, OnOk, option_map};
ghost use Rattle.std.specs.Io.KnownBytes.{Appends};
ghost use Rattle.message_server.specs.History.{writing, AddsAtMost};
ghost use Rattle.message_server.specs.Pieces.{AppendsFront};
ghost use Rattle.message_server.specs.Streams.{HasFailed};

use crate::client::Client;
use crate::fault::StreamFault;

/// Writes all of `bytes`, by one write if it takes all of them. Stops at the first write that fails or
/// takes no byte.
///
/// # Errors
///
/// [`StreamFault::WriteFault`] at that write. What was written is then a prefix of `bytes`.
#[tactic(auto, using(crate::proofs::Histories::adds_none))]
pub fn write_answer<C: Client>(client: &mut C, bytes: &[u8]) -> Result<(), StreamFault>
    ensures ok { OnOk result (Appends (C.contents client.old) (C.contents client.new) bytes.now) }
    ensures noted { OnOk result (C.history client.new
        ≡ option_map (writing bytes.now) (C.history client.old)) }
    ensures few { OnOk result (AddsAtMost 1 (C.writes client.old) (C.writes client.new)) }
    ensures ok_failures { OnOk result (C.write_failures client.new
        ≡ C.write_failures client.old) }
    ensures err { IfErr result (λ fault. (fault ≡ StreamFault.WriteFault)
        × AppendsFront (C.contents client.old) (C.contents client.new) bytes.now
        × HasFailed (C.write_failures client.old) (C.write_failures client.new)) }
    ensures remaining { C.remaining client.new ≡ C.remaining client.old }
    ensures read_failures { C.read_failures client.new ≡ C.read_failures client.old }
{
    let mut written = 0;
    while written < bytes.len() {
        match client.write(&bytes[written..]) {
            Ok(count) if count > 0 => written += count,
            _ => return Err(StreamFault::WriteFault),
        }
    }
    Ok(())
}
