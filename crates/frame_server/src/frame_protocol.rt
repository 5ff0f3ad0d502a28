//! Frames as messages: each frame is a request, and is answered by a frame. It is the `Protocol`
//! that `answer_frames` hands to `answer_messages` of message_server; its laws stand in
//! specs/private/Laws.antt.

ghost use Rattle.std.specs.Thread.{IsSync};
ghost use Rattle.frame_server.specs.Frame.{IsWhole};
ghost use Rattle.frame_server.specs.Limited.{whole_frames_within};
ghost use Rattle.frame_server.specs.NotedFrames.{IsEntry};
ghost use Rattle.frame_server.specs.private.Answering.{bytes_in, most_writes};
ghost use Rattle.frame_server.specs.private.Laws.{laws};
ghost use Rattle.frame_server.specs.private.Parting.{by_sizes};
ghost use Rattle.frame_server.specs.private.Taking.{IsKept};

use crate::answer::{answer, entry_of};
use crate::frame::{AnswerFrame, NextFrame};
use crate::room::Room;
use crate::taking::next_frame;
use crate::writing::{OutputBuffer, write_frame};
use message_server::{Client, InputBuffer, Next, Protocol, StreamFault};
use std::alloc::Global;
use std::sync::Wait;
use std::thread::Threads;
use std::time::Clock;
use tensor_runner::{Allowance, Entry, Journal, Limits, Service};

/// The protocol of frames, answered as a service says.
#[derive(Drop)]
pub(crate) struct FrameProtocol<J: Journal + Drop, K: Clock + Drop> {
    pub(crate) alloc: Global,
    pub(crate) service: Service<J, K>,
    /// The buffer for the values of answers, used again for each answer.
    pub(crate) room: OutputBuffer,
}

/// The frame that answers a request, and the note that the journal gets once the frame is written.
#[derive(Drop)]
pub(crate) struct NotedFrame {
    frame: AnswerFrame,
    entry: Entry,
}

impl<RT: Threads + Wait + Sync, J: Journal + Drop, K: Clock + Drop> Protocol<RT>
    for FrameProtocol<J, K> {
    // The limits, and whether the journal notes steps.
    type Rules = (Limits, bool);

    type Message = NextFrame;

    type Answer = NotedFrame;

    type Note = Entry;

    ghost rules = { λ s. (s.service.limits, J.logs s.service.journal) };

    ghost framing = { λ rules. whole_frames_within rules.0 };

    ghost parting = { by_sizes };

    ghost is_kept = { λ bytes kept. IsWhole bytes × IsKept bytes kept };

    ghost told = { λ answer. bytes_in answer.frame };

    ghost notes = { λ s. J.noted s.service.journal };

    ghost note_on = { λ answer. answer.entry };

    ghost is_note = { λ rules. IsEntry rules.0 rules.1 };

    ghost most_writes = { λ answer. most_writes answer.frame };

    ghost can_answer = { IsSync RT.row };

    ghost laws = { λ rules. laws rules.0 };

    fn take<C: Client>(
        &mut self,
        rt: &RT,
        client: &mut C,
        buffer: &mut InputBuffer,
    ) -> Result<Next<NextFrame>, StreamFault> {
        let room = Room {
            alloc: self.alloc,
            limits: self.service.limits,
        };
        match next_frame(room, client, buffer)? {
            Some(frame) => Ok(Next::Message(frame)),
            None => Ok(Next::End),
        }
    }

    fn answer(&mut self, rt: &RT, next: NextFrame) -> NotedFrame {
        self.service.journal.begin();
        let length = next.len();
        let logs = self.service.journal.notes_steps();
        let allowance = Allowance::begin(self.service.limits, logs, &self.service.clock);
        let frame = answer(rt, self.alloc, &allowance, next);
        let entry = entry_of(length, &frame);
        NotedFrame { frame, entry }
    }

    fn write<C: Client>(&mut self, client: &mut C, answer: NotedFrame) -> Result<(), StreamFault> {
        write_frame(client, &mut self.room, &answer.frame)?;
        self.service.journal.end(&answer.entry);
        Ok(())
    }
}
