//! Writes the frame of an answer to a client. How many writes a frame takes is in docs/FRAMES.md
//! and docs/SERVE.md, and tests/test_frames.py counts them.

ghost use Rattle.std.specs.Prelude.{◌≡◌, ◌≤◌, ◌+◌, ◌/◌, length, OnOk, OnErr, IfErr, option_map};
ghost use Rattle.std.specs.List.{flat_map};
ghost use Rattle.std.specs.Io.KnownBytes.{Appends};
ghost use Rattle.frame_server.specs.private.Answering.{bytes_in, most_writes};
ghost use Rattle.frame_server.specs.Frame.{value_bytes};
ghost use Rattle.message_server.specs.History.{writing, AddsAtMost};
ghost use Rattle.message_server.specs.Pieces.{AppendsFront};
ghost use Rattle.message_server.specs.Streams.{HasFailed};

use crate::frame::AnswerFrame;
use message_server::{Client, StreamFault, write_answer};

/// The most values that one write has.
pub(crate) const VALUES_AT_ONCE: usize = 8_192;

/// A buffer for the bytes of the values that are written next.
#[derive(Drop)]
pub(crate) struct OutputBuffer {
    cells: [[u8; 8]; VALUES_AT_ONCE],
    ghost whole: { length cells ≡ 8192 },
}

impl OutputBuffer {
    /// Returns a buffer of zeros.
    pub(crate) fn new() -> OutputBuffer {
        OutputBuffer {
            cells: [[0u8; 8]; VALUES_AT_ONCE],
        }
    }

    /// Fills the buffer with these values, and returns their bytes.
    fn fill(&mut self, values: &[i64]) -> &[u8]
        requires { length values.now ≤ 8192 }
        ensures { result.now ≡ flat_map value_bytes values.now }
    {
        for k in 0..values.len() {
            self.cells[k] = values[k].to_le_bytes();
        }
        self.cells[..values.len()].as_flattened()
    }
}

/// Writes a whole frame: the bytes of its front by one write, and then the values of its tensor, at
/// most [`VALUES_AT_ONCE`] by one write. Stops at the first write that fails or takes no byte.
///
/// # Errors
///
/// [`StreamFault::WriteFault`] at that write. What was written is then a prefix of the frame.
pub(crate) fn write_frame<C: Client>(
    client: &mut C,
    room: &mut OutputBuffer,
    frame: &AnswerFrame,
) -> Result<(), StreamFault>
    ensures ok { OnOk result
        (Appends (C.contents client.old) (C.contents client.new) (bytes_in frame.now)) }
    ensures noted { OnOk result (C.history client.new
        ≡ option_map (writing (bytes_in frame.now)) (C.history client.old)) }
    ensures few { OnOk result
        (AddsAtMost (most_writes frame.now) (C.writes client.old) (C.writes client.new)) }
    ensures ok_failures { OnOk result (C.write_failures client.new
        ≡ C.write_failures client.old) }
    ensures err { IfErr result (λ fault. fault ≡ StreamFault.WriteFault) }
    ensures front { OnErr result
        (AppendsFront (C.contents client.old) (C.contents client.new) (bytes_in frame.now)) }
    ensures failed { OnErr result
        (HasFailed (C.write_failures client.old) (C.write_failures client.new)) }
    ensures remaining { C.remaining client.new ≡ C.remaining client.old }
    ensures read_failures { C.read_failures client.new ≡ C.read_failures client.old }
{
    write_answer(client, frame.front.as_slice())?;
    match &frame.tensor {
        Some(tensor) => write_values(client, room, tensor.values()),
        None => Ok(()),
    }
}

/// Writes values, at most [`VALUES_AT_ONCE`] at a time.
fn write_values<C: Client>(
    client: &mut C,
    room: &mut OutputBuffer,
    values: &[i64],
) -> Result<(), StreamFault>
    ensures ok { OnOk result (Appends (C.contents client.old) (C.contents client.new)
        (flat_map value_bytes values.now)) }
    ensures noted { OnOk result (C.history client.new
        ≡ option_map (writing (flat_map value_bytes values.now)) (C.history client.old)) }
    ensures few { OnOk result (AddsAtMost ((length values.now + 8191) / 8192)
        (C.writes client.old) (C.writes client.new)) }
    ensures ok_failures { OnOk result (C.write_failures client.new
        ≡ C.write_failures client.old) }
    ensures err { IfErr result (λ fault. fault ≡ StreamFault.WriteFault) }
    ensures front { OnErr result (AppendsFront (C.contents client.old) (C.contents client.new)
        (flat_map value_bytes values.now)) }
    ensures failed { OnErr result
        (HasFailed (C.write_failures client.old) (C.write_failures client.new)) }
    ensures remaining { C.remaining client.new ≡ C.remaining client.old }
    ensures read_failures { C.read_failures client.new ≡ C.read_failures client.old }
{
    let mut written = 0;
    let mut writes = 0usize;
    while written < values.len() {
        let end = (values.len() - written).min(VALUES_AT_ONCE) + written;
        write_answer(client, room.fill(&values[written..end]))?;
        written = end;
        writes += 1;
    }
    Ok(())
}
