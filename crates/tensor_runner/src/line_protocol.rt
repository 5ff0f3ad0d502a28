//! Lines as messages: each line is a request, and is answered by a line. It is the `Protocol` that
//! `answer_lines` hands to `answer_messages` of message_server; its laws stand in
//! specs/private/Laws.antt.

ghost use Rattle.std.specs.Thread.{IsSync};
ghost use Rattle.std.specs.Cow.{cow_slice_items};
ghost use Rattle.tensor_runner.specs.Journal.{IsEntry};
ghost use Rattle.tensor_runner.specs.Limited.{lines_within};
ghost use Rattle.tensor_runner.specs.private.Kept.{IsKept};
ghost use Rattle.tensor_runner.specs.private.Laws.{laws};
ghost use Rattle.tensor_runner.specs.private.Parting.{by_feeds};

use crate::allowance::Allowance;
use crate::answer::{Line, answer, entry_of};
use crate::journal::{Entry, Journal};
use crate::kept::{KeptText, Room};
use crate::limits::Limits;
use crate::service::Service;
use crate::taking::next_line;
use message_server::{Client, InputBuffer, Next, Protocol, StreamFault, write_answer};
use std::alloc::Global;
use std::sync::Wait;
use std::thread::Threads;
use std::time::Clock;

/// The protocol of lines, answered as a service says.
#[derive(Drop)]
pub(crate) struct LineProtocol<J: Journal + Drop, K: Clock + Drop> {
    pub(crate) alloc: Global,
    pub(crate) service: Service<J, K>,
}

/// The line that answers a request, and the note that the journal gets once the line is written.
#[derive(Drop)]
pub(crate) struct NotedLine {
    line: Line,
    entry: Entry,
}

impl<RT: Threads + Wait + Sync, J: Journal + Drop, K: Clock + Drop> Protocol<RT>
    for LineProtocol<J, K> {
    // The limits, and whether the journal notes steps.
    type Rules = (Limits, bool);

    type Message = KeptText;

    type Answer = NotedLine;

    type Note = Entry;

    ghost rules = { λ s. (s.service.limits, J.logs s.service.journal) };

    ghost framing = { λ rules. lines_within rules.0 };

    ghost parting = { by_feeds };

    ghost is_kept = { IsKept };

    ghost told = { λ answer. cow_slice_items answer.line.bytes };

    ghost notes = { λ s. J.noted s.service.journal };

    ghost note_on = { λ answer. answer.entry };

    ghost is_note = { λ rules. IsEntry rules.0 rules.1 };

    ghost most_writes = { λ answer. 1 };

    ghost can_answer = { IsSync RT.row };

    ghost laws = { λ rules. laws rules.0 };

    fn take<C: Client>(
        &mut self,
        rt: &RT,
        client: &mut C,
        buffer: &mut InputBuffer,
    ) -> Result<Next<KeptText>, StreamFault> {
        let room = Room::of(self.alloc, self.service.limits);
        next_line(rt, room, client, buffer)
    }

    fn answer(&mut self, rt: &RT, kept: KeptText) -> NotedLine {
        self.service.journal.begin();
        let length = kept.len();
        let logs = self.service.journal.notes_steps();
        let allowance = Allowance::begin(self.service.limits, logs, &self.service.clock);
        let line = answer(rt, self.alloc, &allowance, kept);
        let entry = entry_of(length, &line);
        NotedLine { line, entry }
    }

    fn write<C: Client>(&mut self, client: &mut C, answer: NotedLine) -> Result<(), StreamFault> {
        write_answer(client, answer.line.bytes.as_slice())?;
        self.service.journal.end(&answer.entry);
        Ok(())
    }
}
