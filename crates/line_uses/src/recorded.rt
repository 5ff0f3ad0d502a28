//! A client in memory whose streams and history are known, an impl of `Client` of message_server.

ghost use Rattle.std.specs.Prelude.{◌≡◌, ◌≤◌, Some, length, take, drop};
ghost use Rattle.tensor_runner.specs.History.{History};

use std::io;
use std::io::ErrorKind;
use std::marker::PhantomData;
use tensor_runner::Client;

/// What a client takes for a request: it says for which histories the client is owed no answer.
pub trait Asking {
    ghost use Rattle.tensor_runner.specs.History.{History};

    ghost owes_nothing: { History → Type 0 };
}

/// A client whose requests are given, and whose answers are kept.
#[derive(Drop)]
pub struct Recorded<K: Asking> {
    /// All bytes that the client sends.
    pub asked: Vec<u8>,
    /// How many bytes of `asked` were read.
    pub taken: usize,
    /// All bytes that were written to the client.
    pub answers: Vec<u8>,
    /// How many writes had no byte or found no memory. The count stops at the greatest `u64`.
    pub write_failures: u64,
    /// How many writes took all that they were given.
    pub writes: u64,
    /// The rule that says what the client takes for a request.
    pub asking: PhantomData<K>,
    ghost in_range: { taken ≤ length asked.items },
}

impl<K: Asking> Client for Recorded<K> {
    ghost remaining = { λ r. Some (drop r.taken r.asked.items) };

    ghost contents = { λ r. Some r.answers.items };

    ghost history = { λ r. Some (record {
      taken = take r.taken r.asked.items;
      written = r.answers.items;
    }) };

    ghost owes_nothing = { λ h. K.owes_nothing h };

    ghost read_failures = { λ r. 0 };

    ghost write_failures = { λ r. r.write_failures };

    ghost writes = { λ r. Some r.writes };

    fn read(&mut self, buffer: &mut [u8]) -> io::Result<usize> {
        let count = buffer.len().min(self.asked.len() - self.taken);
        buffer[..count].copy_from_slice(&self.asked[self.taken..self.taken + count]);
        self.taken += count;
        Ok(count)
    }

    fn write(&mut self, bytes: &[u8]) -> io::Result<usize> {
        if self.writes == u64::MAX {
            self.write_failures = self.write_failures.saturating_add(1);
            return Err(ErrorKind::QuotaExceeded.into());
        }
        match self.answers.extend_from_slice(bytes) {
            Ok(()) => {
                self.writes += 1;
                if bytes.is_empty() {
                    self.write_failures = self.write_failures.saturating_add(1);
                }
                Ok(bytes.len())
            }
            Err(error) => {
                self.write_failures = self.write_failures.saturating_add(1);
                Err(error.into())
            }
        }
    }
}
