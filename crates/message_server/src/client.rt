//! The trait `Client`, the other side of a server, and `Connection`, a client made of two streams.
//! A change here touches the contracts of every server, and the clients of line_uses.

ghost use Rattle.std.specs.Prelude.{◌≡◌, ℕ, List, Option, None, IfSome, is_ok, ⊤};
ghost use Rattle.std.specs.Io.{ReadsAtMost, WritesAtMost};
ghost use Rattle.std.specs.Io.KnownBytes.{ReadConsumes, WriteAppends};
ghost use Rattle.message_server.specs.History.{History, after_read, after_write, writes_after};
ghost use Rattle.message_server.specs.Streams.{took_some, failures_after};

use crate::sink::Sink;
use crate::source::Source;
use std::io;

/// The other side of a server: it sends requests, and gets their answers. A read may block until
/// the client sends more, and the client may first wait for an answer. So nothing may be read while
/// an answer is owed: `read` requires `owes_nothing` if the history is known. The client defines
/// `owes_nothing`, since it knows what a request is. Code that is generic over clients can't know
/// whether the history is known, so it keeps this rule for all of them.
pub trait Client {
    ghost remaining: { Self → Option (List ℕ) };

    ghost contents: { Self → Option (List ℕ) };

    ghost history: { Self → Option History };

    ghost owes_nothing: { History → Type 0 };

    ghost read_failures: { Self → ℕ };

    ghost write_failures: { Self → ℕ };

    // How many writes took all that they were given, if that is known.
    ghost writes: { Self → Option ℕ };

    /// Reads some bytes into the start of `buffer`, and returns how many. 0 means the end of the
    /// client's bytes, unless `buffer` is empty.
    ///
    /// # Errors
    ///
    /// The error of the stream. No byte is lost then.
    fn read(&mut self, buffer: &mut [u8]) -> io::Result<usize>
        requires { IfSome (history self.old) owes_nothing }
        ensures bound { ReadsAtMost result buffer.new }
        ensures bytes { ReadConsumes (remaining self.old) (remaining self.new) result buffer.new }
        ensures contents { contents self.new ≡ contents self.old }
        ensures history { history self.new ≡ after_read result buffer.new (history self.old) }
        ensures failures { read_failures self.new
            ≡ failures_after (is_ok result) (read_failures self.old) }
        ensures no_write_failure { write_failures self.new ≡ write_failures self.old }
        ensures no_write { writes self.new ≡ writes self.old };

    /// Writes some of the first bytes of `bytes`, so that the client can read them at once, and
    /// returns how many. A write of 0 bytes counts as a failure.
    ///
    /// # Errors
    ///
    /// The error of the stream. No byte was written then.
    fn write(&mut self, bytes: &[u8]) -> io::Result<usize>
        ensures bound { WritesAtMost result bytes.now }
        ensures bytes { WriteAppends (contents self.old) (contents self.new) result bytes.now }
        ensures remaining { remaining self.new ≡ remaining self.old }
        ensures history { history self.new ≡ after_write result bytes.now (history self.old) }
        ensures failures { write_failures self.new
            ≡ failures_after (took_some result) (write_failures self.old) }
        ensures writes { writes self.new ≡ writes_after result bytes.now (writes self.old) }
        ensures no_read_failure { read_failures self.new ≡ read_failures self.old };
}

/// A client made of a source of requests and a sink for their answers. Its history isn't known.
#[derive(Drop)]
pub struct Connection<R: Source + Drop, W: Sink + Drop> {
    /// The stream that requests are read from.
    pub source: R,
    /// The stream that answers are written to.
    pub sink: W,
}

impl<R: Source + Drop, W: Sink + Drop> Client for Connection<R, W> {
    ghost remaining = { λ s. R.remaining s.source };

    ghost contents = { λ s. W.contents s.sink };

    ghost history = { λ s. None };

    ghost owes_nothing = { λ h. ⊤ };

    ghost read_failures = { λ s. R.failures s.source };

    ghost write_failures = { λ s. W.failures s.sink };

    ghost writes = { λ s. None };

    fn read(&mut self, buffer: &mut [u8]) -> io::Result<usize> {
        self.source.read(buffer)
    }

    fn write(&mut self, bytes: &[u8]) -> io::Result<usize> {
        self.sink.write(bytes)
    }
}
