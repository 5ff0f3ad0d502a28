//! The trait `Source`, a stream of requests, and `CountedReader`, its impl over a reader of std. A
//! change here touches `Connection`, `run` of tensor_runner, and specs/Streams.antt.

ghost use Rattle.std.specs.Prelude.{◌≡◌, ℕ, List, Option, is_ok};
ghost use Rattle.std.specs.Io.{ReadsAtMost};
ghost use Rattle.std.specs.Io.KnownBytes.{ReadConsumes};
ghost use Rattle.message_server.specs.Streams.{one_more, failures_after};

use std::io;
use std::io::Read;

/// A stream that requests are read from, which counts its calls and failures.
pub trait Source {
    ghost remaining: { Self → Option (List ℕ) };

    ghost calls: { Self → ℕ };

    ghost failures: { Self → ℕ };

    /// Reads some bytes into the start of `buffer`, and returns how many. 0 means the end of the
    /// stream, unless `buffer` is empty.
    ///
    /// # Errors
    ///
    /// The error of the stream. No byte is lost then.
    fn read(&mut self, buffer: &mut [u8]) -> io::Result<usize>
        ensures bound { ReadsAtMost result buffer.new }
        ensures bytes { ReadConsumes (remaining self.old) (remaining self.new) result buffer.new }
        ensures calls { calls self.new ≡ one_more (calls self.old) }
        ensures failures { failures self.new ≡ failures_after (is_ok result) (failures self.old) };
}

/// A source over any reader of std, for example a slice of bytes or the standard input.
#[derive(Drop)]
pub struct CountedReader<R: Read + Drop> {
    /// The reader itself.
    pub reader: R,
    /// How many reads were made. The count stops at the greatest `u64`.
    pub calls: u64,
    /// How many reads failed. The count stops at the greatest `u64`.
    pub failures: u64,
}

impl<R: Read + Drop> CountedReader<R> {
    /// Returns a source over this reader, with no calls and no failures yet.
    pub fn new(reader: R) -> CountedReader<R>
        ensures { result ≡ record { reader = reader; calls = 0; failures = 0 } }
    {
        CountedReader {
            reader,
            calls: 0,
            failures: 0,
        }
    }
}

impl<R: Read + Drop> Source for CountedReader<R> {
    ghost remaining = { λ s. R.remaining s.reader };

    ghost calls = { λ s. s.calls };

    ghost failures = { λ s. s.failures };

    fn read(&mut self, buffer: &mut [u8]) -> io::Result<usize> {
        let result = self.reader.read(buffer);
        self.calls = self.calls.saturating_add(1);
        if result.is_err() {
            self.failures = self.failures.saturating_add(1);
        }
        result
    }
}
