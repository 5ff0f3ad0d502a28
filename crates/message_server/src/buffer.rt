//! The input buffer of a client: bytes that were read and belong to no message yet. A change here
//! touches the code that takes messages out of it, `taking.rt` of tensor_runner and of
//! frame_server, and specs/Pieces.antt.

ghost use Rattle.std.specs.Prelude.{◌≤◌};

use crate::client::Client;
use crate::fault::StreamFault;

/// The number of bytes that the buffer holds, and the most that one read asks for.
const CHUNK: usize = 65_536;

/// A buffer of bytes that were read and belong to no message yet.
#[derive(Drop)]
pub struct InputBuffer {
    bytes: [u8; CHUNK],
    start: usize,
    end: usize,
    ghost ordered: { start ≤ end },
    ghost in_room: { end ≤ 65536 },
}

impl InputBuffer {
    ghost use Rattle.std.specs.Prelude.{◌≡◌, ◌<◌, ◌≤◌, [], length, drop};
    ghost use Rattle.std.specs.Prelude.{IfOk, IfSome, IfErr, OnOk, MatchBool, MatchResult};
    ghost use Rattle.std.specs.Io.KnownBytes.{Keeps, IsAtEnd};
    ghost use Rattle.message_server.specs.Pieces.{pending_bytes, IsBelow, OwesNothingWhile};
    ghost use Rattle.message_server.specs.Pieces.{Takes, FailsIn};
    ghost use Rattle.message_server.specs.Streams.{HasFailed};

    /// Returns an empty buffer.
    pub fn new() -> InputBuffer
        ensures { pending_bytes result ≡ [] }
    {
        InputBuffer {
            bytes: [0u8; CHUNK],
            start: 0,
            end: 0,
        }
    }

    /// Returns the bytes that were read and not yet skipped.
    pub fn pending(&self) -> &[u8]
        ensures { result.now ≡ pending_bytes self.now }
    {
        &self.bytes[self.start..self.end]
    }

    /// Removes the first `count` pending bytes.
    pub fn skip(&mut self, count: usize)
        requires { count ≤ length (pending_bytes self.old) }
        ensures { pending_bytes self.new ≡ drop count (pending_bytes self.old) }
    {
        self.start += count;
    }

    /// Moves the pending bytes to the front of the array.
    fn settle(&mut self)
        ensures pending { pending_bytes self.new ≡ pending_bytes self.old }
        ensures start { self.new.start ≡ 0 }
        ensures room { length self.new.bytes ≡ 65536 }
    {
        self.bytes.copy_within(self.start..self.end, 0);
        self.end -= self.start;
        self.start = 0;
    }

    /// Makes one read behind the pending bytes. Returns whether it read any; if not, the client's
    /// bytes are at their end.
    fn refill<C: Client>(&mut self, client: &mut C) -> Result<bool, StreamFault>
        requires room { IsBelow 65536 (pending_bytes self.old) }
        requires owes { IfSome (C.history client.old) C.owes_nothing }
        ensures read { OnOk result (Takes (C.remaining client.old) (C.remaining client.new)
            (C.history client.old) (C.history client.new)
            (pending_bytes self.old) (pending_bytes self.new) []) }
        ensures more { IfOk result (λ more. MatchBool more
            (length (pending_bytes self.old) < length (pending_bytes self.new))
            ((pending_bytes self.new ≡ pending_bytes self.old) × IsAtEnd (C.remaining client.new))) }
        ensures err { IfErr result (λ fault. (fault ≡ StreamFault.ReadFault)
            × Keeps (C.remaining client.old) (C.remaining client.new)) }
        ensures contents { C.contents client.new ≡ C.contents client.old }
        ensures read_failures { MatchResult result
            (λ _. C.read_failures client.new ≡ C.read_failures client.old)
            (λ _. HasFailed (C.read_failures client.old) (C.read_failures client.new)) }
        ensures write_failures { C.write_failures client.new ≡ C.write_failures client.old }
    {
        self.settle();
        match client.read(&mut self.bytes[self.end..]) {
            Ok(count) => {
                self.end += count;
                Ok(count > 0)
            }
            Err(_) => Err(StreamFault::ReadFault),
        }
    }

    /// Reads until at least `count` bytes are pending. Returns false if the client's bytes end
    /// before.
    ///
    /// # Errors
    ///
    /// [`StreamFault::ReadFault`] if a read fails.
    pub fn wait_for<C: Client>(&mut self, client: &mut C, count: usize) -> Result<bool, StreamFault>
        requires room { count ≤ 16 }
        requires owes { IfSome (C.history client.old)
            (OwesNothingWhile (IsBelow count) C.owes_nothing (pending_bytes self.old)) }
        ensures read { OnOk result (Takes (C.remaining client.old) (C.remaining client.new)
            (C.history client.old) (C.history client.new)
            (pending_bytes self.old) (pending_bytes self.new) []) }
        ensures enough { IfOk result (λ enough. MatchBool enough
            (count ≤ length (pending_bytes self.new))
            (IsBelow count (pending_bytes self.new) × IsAtEnd (C.remaining client.new))) }
        ensures err { IfErr result (λ fault. (fault ≡ StreamFault.ReadFault)
            × FailsIn (IsBelow count) (C.remaining client.old) (C.remaining client.new)
            (pending_bytes self.old)) }
        ensures contents { C.contents client.new ≡ C.contents client.old }
        ensures read_failures { MatchResult result
            (λ _. C.read_failures client.new ≡ C.read_failures client.old)
            (λ _. HasFailed (C.read_failures client.old) (C.read_failures client.new)) }
        ensures write_failures { C.write_failures client.new ≡ C.write_failures client.old }
    {
        while self.pending().len() < count {
            if !self.refill(client)? {
                return Ok(false);
            }
        }
        Ok(true)
    }
}
