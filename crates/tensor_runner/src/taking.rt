//! Takes the lines of a client out of its input buffer. A change here touches `LineProtocol` and
//! specs/private/Taking.antt.

ghost use Rattle.std.specs.Prelude.{◌≡◌, IfOk, IfSome, IfErr, OnOk, OnErr};
ghost use Rattle.message_server.specs.Pieces.{pending_bytes, OwesNothingWhile};
ghost use Rattle.message_server.specs.Taking.{TakesNext, StopsIn};
ghost use Rattle.tensor_runner.specs.private.Kept.{IsKept};
ghost use Rattle.tensor_runner.specs.private.Parting.{by_feeds};
ghost use Rattle.tensor_runner.specs.private.Taking.{HasNoFeed, TakesPiece};

use crate::kept::{KeptText, Room};
use memchr::memchr;
use message_server::{Client, InputBuffer, Next, StreamFault};
use std::sync::Wait;

/// Takes the pending bytes up to the first line feed, and the line feed; or all of them if there is
/// none. At most `most` bytes of a line are kept. Returns whether there was a line feed.
fn take_piece(buffer: &mut InputBuffer, kept: &mut KeptText, most: usize) -> bool
    ensures { TakesPiece (pending_bytes buffer.old) (pending_bytes buffer.new) result
        kept.old kept.new }
{
    let pending = buffer.pending();
    match memchr(b'\n', pending) {
        Some(place) => {
            kept.keep(&pending[..place], most);
            buffer.skip(place + 1);
            true
        }
        None => {
            kept.keep(pending, most);
            let count = pending.len();
            buffer.skip(count);
            false
        }
    }
}

/// Takes the next line. When the client's bytes end, the bytes behind the last line feed are a line
/// too, unless there are none. The rest of a line that is longer than a text may be is skipped, and
/// of a line that is longer than the room nothing is kept.
///
/// # Errors
///
/// [`StreamFault::ReadFault`] if a read fails.
pub(crate) fn next_line<RT: Wait, C: Client>(
    rt: &RT,
    room: Room,
    client: &mut C,
    buffer: &mut InputBuffer,
) -> Result<Next<KeptText>, StreamFault>
    requires { IfSome (C.history client.old)
        (OwesNothingWhile HasNoFeed C.owes_nothing (pending_bytes buffer.old)) }
    ensures next { IfOk result (TakesNext by_feeds IsKept
        (C.remaining client.old) (C.remaining client.new)
        (C.history client.old) (C.history client.new)
        (pending_bytes buffer.old) (pending_bytes buffer.new)) }
    ensures err { IfErr result (λ fault. fault ≡ StreamFault.ReadFault) }
    ensures stops { OnErr result (StopsIn by_feeds
        (C.remaining client.old) (C.remaining client.new)
        (C.read_failures client.old) (C.read_failures client.new) (pending_bytes buffer.old)) }
    ensures contents { C.contents client.new ≡ C.contents client.old }
    ensures read_failures { OnOk result (C.read_failures client.new ≡ C.read_failures client.old) }
    ensures write_failures { C.write_failures client.new ≡ C.write_failures client.old }
{
    let mut kept = KeptText::new(room.alloc);
    for turn in rt.forever() {
        if take_piece(buffer, &mut kept, room.most) {
            return Ok(Next::Message(kept));
        }
        let more = buffer.wait_for(client, 1)?;
        if !more {
            if kept.len() == 0 {
                return Ok(Next::End);
            }
            return Ok(Next::Last(kept));
        }
    }
    unreachable!()
}
