//! The use of a journal whose entries are known, an impl of `Journal` of tensor_runner.

ghost use Rattle.std.specs.Prelude.{◌≡◌, [], Some, true, false};
ghost use Rattle.tensor_runner.specs.Limited.{no_limits};
ghost use Rattle.tensor_runner.specs.Lines.{lines_of};
ghost use Rattle.tensor_runner.specs.NotedLines.{NotesLines};
ghost use Rattle.std.specs.Prelude.{OnOk};

use crate::ByLines;
use crate::recorded::Recorded;
use std::alloc::Global;
use std::marker::PhantomData;
use std::sync::Wait;
use std::thread::Threads;
use tensor_runner::{Entry, Journal, Limits, NoClock, Service, StreamFault, answer_lines};

/// A journal that keeps its entries in memory.
#[derive(Drop)]
pub struct Kept {
    /// The entries, without those that were lost.
    pub entries: Vec<Entry>,
    /// Whether an entry was lost, because there was no memory for it.
    pub lost: bool,
}

impl Journal for Kept {
    ghost use Rattle.std.specs.Prelude.{Some, None, true, if◌then◌else◌};

    ghost noted = { λ s. if s.lost then None else Some s.entries.items };

    ghost logs = { λ s. true };

    fn notes_steps(&self) -> bool {
        true
    }

    fn begin(&mut self) {}

    fn end(&mut self, entry: &Entry) {
        if self.entries.push(*entry).is_err() {
            self.lost = true;
        }
    }
}

/// Returns the answers to the lines of a text, one behind the other, the journal with an entry on each
/// answer, and how the server ended.
pub fn lines_noted<RT: Threads + Wait + Sync>(
    rt: &RT,
    alloc: Global,
    lines: Vec<u8>,
) -> (Vec<u8>, Kept, Result<(), StreamFault>)
    ensures { result.1.lost ≡ false → OnOk result.2 (NotesLines no_limits true (lines_of lines.items) []
        (Some result.0.items) (Some []) (Some result.1.entries.items)) }
{
    let mut client: Recorded<ByLines> = Recorded {
        asked: lines,
        taken: 0,
        answers: Vec::new(alloc),
        write_failures: 0,
        writes: 0,
        asking: PhantomData,
    };
    let service = Service {
        limits: Limits::none(),
        journal: Kept {
            entries: Vec::new(alloc),
            lost: false,
        },
        clock: NoClock,
    };
    let (journal, ended) = answer_lines(rt, alloc, service, &mut client);
    (client.answers, journal, ended)
}
