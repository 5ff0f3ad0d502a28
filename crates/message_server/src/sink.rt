//! The trait `Sink`, a stream for answers, and `CountedWriter`, its impl over a writer of std. A
//! change here touches `Connection`, `run` of tensor_runner, and specs/Streams.antt.

ghost use Rattle.std.specs.Prelude.{◌≡◌, ℕ, List, Option};
ghost use Rattle.std.specs.Io.{WritesAtMost};
ghost use Rattle.std.specs.Io.KnownBytes.{WriteAppends};
ghost use Rattle.message_server.specs.Streams.{one_more, took_some, failures_after};

use std::io;
use std::io::Write;

/// A stream that answers are written to, which counts its calls and failures.
pub trait Sink {
    ghost contents: { Self → Option (List ℕ) };

    ghost calls: { Self → ℕ };

    ghost failures: { Self → ℕ };

    /// Writes some of the first bytes of `bytes`, and returns how many. A write of 0 bytes counts
    /// as a failure.
    ///
    /// # Errors
    ///
    /// The error of the stream. No byte was written then.
    fn write(&mut self, bytes: &[u8]) -> io::Result<usize>
        ensures bound { WritesAtMost result bytes.now }
        ensures bytes { WriteAppends (contents self.old) (contents self.new) result bytes.now }
        ensures calls { calls self.new ≡ one_more (calls self.old) }
        ensures failures { failures self.new
            ≡ failures_after (took_some result) (failures self.old) };
}

/// A sink over any writer of std, for example a list of bytes or the standard output.
#[derive(Drop)]
pub struct CountedWriter<W: Write + Drop> {
    /// The writer itself.
    pub writer: W,
    /// How many writes were made. The count stops at the greatest `u64`.
    pub calls: u64,
    /// How many writes failed or took no byte. The count stops at the greatest `u64`.
    pub failures: u64,
}

impl<W: Write + Drop> CountedWriter<W> {
    /// Returns a sink over this writer, with no calls and no failures yet.
    pub fn new(writer: W) -> CountedWriter<W>
        ensures { result ≡ record { writer = writer; calls = 0; failures = 0 } }
    {
        CountedWriter {
            writer,
            calls: 0,
            failures: 0,
        }
    }
}

impl<W: Write + Drop> Sink for CountedWriter<W> {
    ghost contents = { λ s. W.contents s.writer };

    ghost calls = { λ s. s.calls };

    ghost failures = { λ s. s.failures };

    fn write(&mut self, bytes: &[u8]) -> io::Result<usize> {
        let result = self.writer.write(bytes);
        self.calls = self.calls.saturating_add(1);
        if !matches!(result, Ok(count) if count > 0) {
            self.failures = self.failures.saturating_add(1);
        }
        result
    }
}
