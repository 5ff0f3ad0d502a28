//! The loop over the messages of a client. A change here touches the servers of tensor_runner and
//! frame_server, whose promises are this contract for one kind of message.

ghost use Rattle.std.specs.Prelude.{◌≡◌, ℕ, List, Some, Err, IfSome, OnOk};
ghost use Rattle.message_server.specs.History.{IsNew};
ghost use Rattle.message_server.specs.Notes.{noting, NotesAll, NotesSome, NotesWhole};
ghost use Rattle.message_server.specs.Parting.{AnswersAll, CutsSome, StopsReading};
ghost use Rattle.message_server.specs.Serving.{BreaksOff, GoesBy};
ghost use Rattle.message_server.specs.Streams.{HasFailed};

use crate::buffer::InputBuffer;
use crate::client::Client;
use crate::fault::StreamFault;
use crate::protocol::{Next, Protocol};
use std::sync::Wait;

/// Answers each message of a client, in order, until the client's bytes end. Each answer is written
/// before more is read, and is then noted.
///
/// # Errors
///
/// [`StreamFault::ReadFault`] if a read fails or the bytes end inside a message,
/// [`StreamFault::WriteFault`] if a write fails or takes no byte.
pub fn answer_messages<RT: Wait, C: Client, P: Protocol<RT>>(
    rt: &RT,
    client: &mut C,
    protocol: &mut P,
) -> Result<(), StreamFault>
    requires by_messages { GoesBy (P.framing (P.rules protocol.old)) C.owes_nothing }
    requires new { IfSome (C.history client.old) IsNew }
    requires can_answer { P.can_answer }

    ensures answered { (stream held : List ℕ) → C.remaining client.old ≡ Some stream
        → C.contents client.old ≡ Some held
        → OnOk result (AnswersAll P.parting (P.framing (P.rules protocol.old))
        stream held (C.contents client.new)) }
    // A message that isn't whole gets no answer.
    ensures broken_off { (stream held : List ℕ) → C.remaining client.old ≡ Some stream
        → C.contents client.old ≡ Some held → result ≡ Err StreamFault.ReadFault
        → BreaksOff (P.framing (P.rules protocol.old))
        stream held (C.remaining client.new) (C.contents client.new) }
    ensures cut_short { (stream held : List ℕ) → C.remaining client.old ≡ Some stream
        → C.contents client.old ≡ Some held → result ≡ Err StreamFault.WriteFault
        → CutsSome P.parting (P.framing (P.rules protocol.old))
        stream held (C.contents client.new) }

    ensures noted { (stream held : List ℕ) → C.remaining client.old ≡ Some stream
        → C.contents client.old ≡ Some held → OnOk result (NotesAll
        (noting (P.framing (P.rules protocol.old)) (P.is_note (P.rules protocol.old))) P.parting
        stream held (C.contents client.new) (P.notes protocol.old) (P.notes protocol.new)) }
    ensures noted_whole { (stream held : List ℕ) → C.remaining client.old ≡ Some stream
        → C.contents client.old ≡ Some held → result ≡ Err StreamFault.ReadFault → NotesWhole
        (noting (P.framing (P.rules protocol.old)) (P.is_note (P.rules protocol.old))) stream held
        (C.remaining client.new) (C.contents client.new) (P.notes protocol.old) (P.notes protocol.new) }
    // An answer that wasn't written whole gets no note.
    ensures noted_some { (stream held : List ℕ) → C.remaining client.old ≡ Some stream
        → C.contents client.old ≡ Some held → result ≡ Err StreamFault.WriteFault → NotesSome
        (noting (P.framing (P.rules protocol.old)) (P.is_note (P.rules protocol.old))) P.parting
        stream held (C.contents client.new) (P.notes protocol.old) (P.notes protocol.new) }

    ensures read_fault { result ≡ Err StreamFault.ReadFault
        → StopsReading P.parting (C.read_failures client.old) (C.read_failures client.new)
        (C.remaining client.old) (C.remaining client.new)
        × (C.write_failures client.new ≡ C.write_failures client.old) }
    ensures write_fault { result ≡ Err StreamFault.WriteFault
        → (C.read_failures client.new ≡ C.read_failures client.old)
        × HasFailed (C.write_failures client.old) (C.write_failures client.new) }
    ensures no_failure { OnOk result ((C.read_failures client.new ≡ C.read_failures client.old)
        × (C.write_failures client.new ≡ C.write_failures client.old)) }
{
    let mut buffer = InputBuffer::new();
    for turn in rt.forever() {
        match protocol.take(rt, client, &mut buffer)? {
            Next::Message(message) => {
                let answer = protocol.answer(rt, message);
                protocol.write(client, answer)?;
            }
            Next::Last(message) => {
                let answer = protocol.answer(rt, message);
                return protocol.write(client, answer);
            }
            Next::End => return Ok(()),
        }
    }
    unreachable!()
}
