//! The journal of a server: what it notes of each request, and the log line that `--log` writes. A
//! change of the line touches docs/SERVE.md and its tests; a change of `Entry` touches `entry_of`
//! here and in frame_server, and specs/Journal.antt.

use crate::limits::LimitFault;
use expr_reader::Fault;
use std::io::Write;
use std::time::{Clock, Instant};
use std::{fmt, io};

/// The reason why a request was not answered by a tensor.
#[derive(Clone, Copy, Debug, Drop, Eq, PartialEq)]
pub enum AnyFault {
    /// A fault of the request's text or frame, or running out of memory.
    Request(Fault),
    /// A limit that the request is over.
    Limit(LimitFault),
}

/// The note on a request that was answered.
#[derive(Clone, Copy, Debug, Drop, Eq, PartialEq)]
pub struct Entry {
    /// The number of bytes of the request, without the line feed of a line. For a text that is too
    /// long it is 16,777,217, the number of bytes that were counted.
    pub bytes: u128,
    /// The number of bytes of the answer, with the line feed of a line.
    pub answered: u128,
    /// The fault that the answer says, or `None` if the answer is a tensor.
    pub fault: Option<AnyFault>,
    /// The steps that the request takes. `None` if there is no valid request, if an allocation failed
    /// while it was read, or if steps are neither limited nor noted.
    pub steps: Option<u128>,
}

/// A journal, in which a server notes its requests.
pub trait Journal {
    ghost use Rattle.std.specs.Prelude.{◌≡◌, ◌∷◌, [], List, Option, Bool};
    ghost use Rattle.message_server.specs.Notes.{Adds};
    ghost use Rattle.tensor_runner.specs.declared.journal.Entry.{Entry};

    // The entries that were noted, if they are known.
    ghost noted: { Self → Option (List Entry) };

    ghost logs: { Self → Bool };

    /// Returns whether the journal notes the steps of requests. If it doesn't, a server need not count
    /// them.
    fn notes_steps(&self) -> bool
        ensures { result ≡ logs self.now };

    /// Notes that a request was wholly read.
    fn begin(&mut self)
        ensures noted { noted self.new ≡ noted self.old }
        ensures logs { logs self.new ≡ logs self.old };

    /// Notes that the answer of the request that began last was written.
    fn end(&mut self, entry: &Entry)
        ensures noted { Adds (entry.now ∷ []) (noted self.old) (noted self.new) }
        ensures logs { logs self.new ≡ logs self.old };
}

/// A journal that notes nothing.
#[derive(Clone, Copy, Debug, Drop, Eq, PartialEq)]
pub struct Silent;

impl Journal for Silent {
    ghost use Rattle.std.specs.Prelude.{None, false};

    ghost noted = { λ s. None };

    ghost logs = { λ s. false };

    fn notes_steps(&self) -> bool {
        false
    }

    fn begin(&mut self) {}

    fn end(&mut self, _entry: &Entry) {}
}

/// A journal that may be absent, and notes nothing then.
impl<J: Journal> Journal for Option<J> {
    ghost use Rattle.tensor_runner.specs.Journal.{noted_by, logs_by};

    ghost noted = { λ s. noted_by J.noted s };

    ghost logs = { λ s. logs_by J.logs s };

    fn notes_steps(&self) -> bool {
        match self {
            Some(journal) => journal.notes_steps(),
            None => false,
        }
    }

    fn begin(&mut self) {
        if let Some(journal) = self {
            journal.begin();
        }
    }

    fn end(&mut self, entry: &Entry) {
        if let Some(journal) = self {
            journal.end(entry);
        }
    }
}

/// A journal that writes one line for each request. A line that can't be written is lost, and its
/// write isn't tried again.
#[derive(Drop)]
pub struct LineJournal<W: Write + Drop, K: Clock + Drop> {
    writer: W,
    clock: K,
    requests: u64,
    begun: Option<Instant>,
}

impl<W: Write + Drop, K: Clock + Drop> LineJournal<W, K> {
    /// Returns a journal on this writer, which is flushed after each line. `clock` measures the
    /// time of each request.
    pub fn new(writer: W, clock: K) -> LineJournal<W, K> {
        LineJournal {
            writer,
            clock,
            requests: 0,
            begun: None,
        }
    }

    /// Returns how many microseconds have passed since the request was read, or `None` if the clock
    /// failed.
    fn passed(&self) -> Option<u128> {
        let begun = self.begun?;
        match begun.elapsed(&self.clock) {
            Ok(passed) => Some(passed.as_micros()),
            Err(_) => None,
        }
    }

    /// Writes the line of a request and flushes the writer.
    fn write_entry(&mut self, entry: &Entry) -> io::Result<()> {
        let Entry {
            bytes,
            answered,
            ..
        } = *entry;
        let (fault, name) = match entry.fault {
            Some(fault) => (fault.number(), fault.name()),
            None => (0, "ok"),
        };
        let steps = Known(entry.steps);
        let passed = Known(self.passed());
        let request = self.requests;
        write!(
            self.writer,
            "request={request} bytes={bytes} answered={answered} "
        )?;
        writeln!(
            self.writer,
            "fault={fault} name={name} steps={steps} us={passed}"
        )?;
        self.writer.flush()
    }
}

impl<W: Write + Drop, K: Clock + Drop> Journal for LineJournal<W, K> {
    ghost use Rattle.std.specs.Prelude.{None, true};

    ghost noted = { λ s. None };

    ghost logs = { λ s. true };

    fn notes_steps(&self) -> bool {
        true
    }

    fn begin(&mut self) {
        self.requests = self.requests.saturating_add(1);
        self.begun = Instant::now(&self.clock).ok();
    }

    fn end(&mut self, entry: &Entry) {
        let _ = self.write_entry(entry);
    }
}

impl AnyFault {
    ghost use Rattle.std.specs.Prelude.{◌≡◌};
    ghost use Rattle.tensor_runner.specs.Journal.{any_number, any_name};

    /// Returns the number of the fault, as the answer has it.
    pub fn number(self) -> u32
        ensures { result ≡ any_number self }
    {
        match self {
            AnyFault::Request(fault) => fault.number(),
            AnyFault::Limit(fault) => fault.number(),
        }
    }

    /// Returns the name of the fault, as the answer has it.
    pub fn name(self) -> &'static str
        ensures { result.now ≡ any_name self }
    {
        match self {
            AnyFault::Request(fault) => fault.name(),
            AnyFault::Limit(fault) => fault.name(),
        }
    }
}

/// A number that is printed as `-` if it is unknown.
#[derive(Clone, Copy, Drop)]
struct Known(Option<u128>);

impl fmt::Display for Known {
    fn fmt<W: fmt::Write>(&self, f: &mut fmt::Formatter<W>) -> fmt::Result {
        match self.0 {
            Some(number) => write!(f, "{number}"),
            None => f.write_str("-"),
        }
    }
}
