//! The trait `Protocol`, which defines one kind of message: how messages stand in a client's bytes,
//! and how each is answered. A change here touches `answer_messages` and both impls: `LineProtocol`
//! of tensor_runner and `FrameProtocol` of frame_server, with their `laws`.

ghost use Rattle.std.specs.Prelude.{◌≡◌, ℕ, List, [], ◌∷◌, Option, IfOk, IfSome, IfErr, OnOk, OnErr};
ghost use Rattle.std.specs.Prelude.{option_map};
ghost use Rattle.std.specs.Io.KnownBytes.{Appends};
ghost use Rattle.message_server.specs.History.{writing, AddsAtMost};
ghost use Rattle.message_server.specs.Notes.{Adds};
ghost use Rattle.message_server.specs.Parting.{Parting, Laws};
ghost use Rattle.message_server.specs.Pieces.{pending_bytes, AppendsFront, OwesNothingWhile};
ghost use Rattle.message_server.specs.Serving.{Framing};
ghost use Rattle.message_server.specs.Streams.{HasFailed};
ghost use Rattle.message_server.specs.Taking.{TakesNext, StopsIn};

use crate::buffer::InputBuffer;
use crate::client::Client;
use crate::fault::StreamFault;

/// What comes next in a client's bytes. `M` is what is kept of a message.
#[derive(Drop)]
pub enum Next<M> {
    /// A message with its end. More messages may follow.
    Message(M),
    /// The last message, which only the end of the client's bytes ends.
    Last(M),
    /// The end of the client's bytes, with no message before it.
    End,
}

/// One kind of message: how messages stand in a client's bytes, and how each is answered.
pub trait Protocol<RT> {
    /// The rules by which messages are answered, for example the limits of a server.
    type Rules;
    /// What is kept of a message until it is answered.
    type Message;
    /// The answer to a message, before it is written.
    type Answer;
    /// What is noted of a message once its answer was written.
    type Note;

    ghost rules: { Self → Self.Rules };

    ghost framing: { Self.Rules → Framing (List ℕ) };

    ghost parting: { Parting };

    ghost is_kept: { List ℕ → Self.Message → Type 0 };

    ghost told: { Self.Answer → List ℕ };

    // The notes that were made, if they are known.
    ghost notes: { Self → Option (List Self.Note) };

    ghost note_on: { Self.Answer → Self.Note };

    // Which note a message gets that was answered by these bytes.
    ghost is_note: { Self.Rules → List ℕ → List ℕ → Self.Note → Type 0 };

    // The most writes that the answer is written by, if each takes all that it is given.
    ghost most_writes: { Self.Answer → ℕ };

    // The condition on the runtime `RT` under which `answer` may be called, for example that
    // threads may share the runtime.
    ghost can_answer: { Type 0 };

    /// Takes the next message, or reports the end of the client's bytes.
    ///
    /// # Errors
    ///
    /// [`StreamFault::ReadFault`] if a read fails, or if the client's bytes end inside a message.
    fn take<C: Client>(
        &mut self,
        rt: &RT,
        client: &mut C,
        buffer: &mut InputBuffer,
    ) -> Result<Next<Self::Message>, StreamFault>
        requires { IfSome (C.history client.old)
            (OwesNothingWhile parting.IsUnfinished C.owes_nothing (pending_bytes buffer.old)) }
        ensures next { IfOk result (TakesNext parting is_kept
            (C.remaining client.old) (C.remaining client.new)
            (C.history client.old) (C.history client.new)
            (pending_bytes buffer.old) (pending_bytes buffer.new)) }
        ensures err { IfErr result (λ fault. fault ≡ StreamFault.ReadFault) }
        ensures stops { OnErr result (StopsIn parting
            (C.remaining client.old) (C.remaining client.new)
            (C.read_failures client.old) (C.read_failures client.new) (pending_bytes buffer.old)) }
        ensures contents { C.contents client.new ≡ C.contents client.old }
        ensures read_failures { OnOk result
            (C.read_failures client.new ≡ C.read_failures client.old) }
        ensures write_failures { C.write_failures client.new ≡ C.write_failures client.old }
        ensures rules { rules self.new ≡ rules self.old }
        ensures notes { notes self.new ≡ notes self.old };

    /// Computes the answer to a message, and writes nothing.
    fn answer(&mut self, rt: &RT, message: Self::Message) -> Self::Answer
        requires { can_answer }
        ensures answer { (bytes : List ℕ) → is_kept bytes message
            → (framing (rules self.old)).IsAnswer bytes (told result) }
        ensures note { (bytes : List ℕ) → is_kept bytes message
            → is_note (rules self.old) bytes (told result) (note_on result) }
        ensures rules { rules self.new ≡ rules self.old }
        ensures notes { notes self.new ≡ notes self.old };

    /// Writes the whole answer, and then makes its note. Stops at the first write that fails or
    /// takes no byte, without a note.
    ///
    /// # Errors
    ///
    /// [`StreamFault::WriteFault`] at that write. What was written is then a prefix of the answer.
    fn write<C: Client>(&mut self, client: &mut C, answer: Self::Answer) -> Result<(), StreamFault>
        ensures ok { OnOk result (Appends (C.contents client.old) (C.contents client.new)
            ((framing (rules self.old)).bytes_of (told answer))) }
        ensures noted { OnOk result (C.history client.new
            ≡ option_map (writing ((framing (rules self.old)).bytes_of (told answer)))
            (C.history client.old)) }
        ensures few { OnOk result
            (AddsAtMost (most_writes answer) (C.writes client.old) (C.writes client.new)) }
        ensures ok_failures { OnOk result (C.write_failures client.new
            ≡ C.write_failures client.old) }
        ensures err { IfErr result (λ fault. fault ≡ StreamFault.WriteFault) }
        ensures front { OnErr result (AppendsFront (C.contents client.old) (C.contents client.new)
            ((framing (rules self.old)).bytes_of (told answer))) }
        ensures failed { OnErr result
            (HasFailed (C.write_failures client.old) (C.write_failures client.new)) }
        ensures remaining { C.remaining client.new ≡ C.remaining client.old }
        ensures read_failures { C.read_failures client.new ≡ C.read_failures client.old }
        ensures rules { rules self.new ≡ rules self.old }
        ensures one_note { OnOk result
            (Adds (note_on answer ∷ []) (notes self.old) (notes self.new)) }
        ensures no_note { OnErr result (notes self.new ≡ notes self.old) };

    ghost laws: { (rules : Self.Rules) → Laws parting (framing rules) };
}
