//! Streams in memory that give or take few bytes a call, or fail.

use std::alloc::Global;
use std::io;
use std::io::{Read, Write};

/// A reader that gives at most `most_a_call` bytes a call, and fails after `good_calls` calls.
#[derive(Drop)]
pub(crate) struct Giving<'t> {
    pub(crate) rest: &'t [u8],
    pub(crate) most_a_call: usize,
    pub(crate) good_calls: u64,
    pub(crate) kind: io::ErrorKind,
}

impl<'t> Giving<'t> {
    /// Returns a reader of a text that gives at most `most_a_call` bytes a call and never fails.
    pub(crate) fn by(most_a_call: usize, text: &'t [u8]) -> Giving<'t> {
        Giving {
            rest: text,
            most_a_call,
            good_calls: u64::MAX,
            kind: io::ErrorKind::Other,
        }
    }
}

impl<'t> Read for Giving<'t> {
    fn read(&mut self, buf: &mut [u8]) -> io::Result<usize> {
        match self.good_calls.checked_sub(1) {
            Some(good_calls) => self.good_calls = good_calls,
            None => return Err(io::Error::from(self.kind)),
        }
        let count = self.rest.len().min(self.most_a_call).min(buf.len());
        let (given, rest) = self.rest.split_at(count);
        buf[..count].copy_from_slice(given);
        self.rest = rest;
        Ok(count)
    }
}

/// What a writer does if its room is full: it fails, or takes 0 bytes.
#[derive(Clone, Copy, Debug, PartialEq)]
pub(crate) enum Full {
    Fails,
    TakesNone,
}

/// A writer that takes at most `most_a_call` bytes a call, until it has taken `room` bytes.
#[derive(Drop)]
pub(crate) struct Taking {
    pub(crate) taken: Vec<u8>,
    pub(crate) most_a_call: usize,
    pub(crate) room: usize,
    pub(crate) full: Full,
}

impl Taking {
    /// Returns a writer that takes all bytes.
    pub(crate) fn all(alloc: Global) -> Taking {
        Taking {
            taken: Vec::new(alloc),
            most_a_call: usize::MAX,
            room: usize::MAX,
            full: Full::Fails,
        }
    }
}

impl Write for Taking {
    fn write(&mut self, buf: &[u8]) -> io::Result<usize> {
        let left = self.room.saturating_sub(self.taken.len());
        if left == 0 && self.full == Full::Fails {
            return Err(io::Error::from(io::ErrorKind::BrokenPipe));
        }
        let count = buf.len().min(self.most_a_call).min(left);
        self.taken.extend_from_slice(&buf[..count])?;
        Ok(count)
    }

    fn flush(&mut self) -> io::Result<()> {
        Ok(())
    }
}
