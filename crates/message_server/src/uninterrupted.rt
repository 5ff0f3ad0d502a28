//! A stream that repeats a read or a write that a signal interrupted. The mains put it around
//! standard input and output; without it a signal would end a server with a stream fault.

ghost use Rattle.std.specs.Prelude.{◌≡◌, ◌≢◌, ◌↔◌, IsTrue, IfErr};
ghost use Rattle.std.specs.Io.{ReadsAtMost, WritesAtMost};
ghost use Rattle.std.specs.Io.KnownBytes.{Keeps, ReadConsumes, WriteAppends};
ghost use Rattle.std.specs.IoError.{error_kind};
ghost use Rattle.message_server.specs.Streams.{most_calls};

use std::io;
use std::io::{ErrorKind, Read, Write};

/// The calls that are made for one read or write before it fails with `TimedOut`.
const MOST_CALLS: u64 = u64::MAX;

/// A stream that repeats a read or a write that a signal interrupted, for example the signal of a
/// timer or a debugger. The engine takes any error of a stream as a fault, and so needs this.
#[derive(Drop)]
pub struct Uninterrupted<S: Drop> {
    /// The stream itself.
    pub stream: S,
}

impl<R: Read + Drop> Read for Uninterrupted<R> {
    ghost remaining = { λ s. R.remaining s.stream };

    fn read(&mut self, buf: &mut [u8]) -> io::Result<usize>
        ensures bound { ReadsAtMost result buf.new }
        ensures bytes { ReadConsumes (R.remaining self.old.stream) (R.remaining self.new.stream)
            result buf.new }
        ensures again { IfErr result (λ e. error_kind e ≢ ErrorKind.Interrupted) }
    {
        let mut interrupted = 0;
        while interrupted < MOST_CALLS {
            match self.stream.read(buf) {
                Err(error) if was_interrupted(&error) => interrupted += 1,
                result => return result,
            }
        }
        Err(timed_out(interrupted))
    }
}

impl<W: Write + Drop> Write for Uninterrupted<W> {
    ghost contents = { λ s. W.contents s.stream };

    fn write(&mut self, buf: &[u8]) -> io::Result<usize>
        ensures bound { WritesAtMost result buf.now }
        ensures bytes { WriteAppends (W.contents self.old.stream) (W.contents self.new.stream)
            result buf.now }
        ensures again { IfErr result (λ e. error_kind e ≢ ErrorKind.Interrupted) }
    {
        let mut interrupted = 0;
        while interrupted < MOST_CALLS {
            match self.stream.write(buf) {
                Err(error) if was_interrupted(&error) => interrupted += 1,
                result => return result,
            }
        }
        Err(timed_out(interrupted))
    }

    fn flush(&mut self) -> io::Result<()> {
        self.stream.flush()
    }
}

/// Returns whether a call failed because a signal interrupted it.
fn was_interrupted(error: &io::Error) -> bool
    ensures { IsTrue result ↔ (error_kind error.now ≡ ErrorKind.Interrupted) }
{
    error.kind() == ErrorKind::Interrupted
}

/// Returns the error of a read or write that signals interrupted `calls` times.
fn timed_out(calls: u64) -> io::Error
    requires { calls ≡ most_calls }
    ensures { error_kind result ≢ ErrorKind.Interrupted }
{
    ErrorKind::TimedOut.into()
}
