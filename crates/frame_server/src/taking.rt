//! Takes the frames of a client out of its input buffer. A change here touches `FrameProtocol` and
//! specs/private/Taking.antt.

ghost use Rattle.std.specs.Prelude.{◌≡◌, ◌+◌, ◌*◌, ◌≤◌, [], length, IfOk, IfSome, IfErr, OnOk, OnErr};
ghost use Rattle.std.specs.Prelude.{MatchOption, vec_capacity};
ghost use Rattle.frame_server.specs.Frame.{IsUnfinished};
ghost use Rattle.message_server.specs.Pieces.{pending_bytes, IsBelow, OwesNothingWhile, FailsIn};
ghost use Rattle.message_server.specs.Pieces.{Takes};
ghost use Rattle.frame_server.specs.private.Taking.{IsCutOff, StopsInFrame, TakesCount, TakesHead};
ghost use Rattle.frame_server.specs.private.Taking.{TakesValues, TakesRest, TakesFrame, Ends};

use crate::frame::{Head, NextFrame, WholeFrame};
use crate::reading::{HEAD, VALUE, head_of, move_bytes, move_values};
use crate::room::{Room, header_room, values_room};
use message_server::{Client, InputBuffer, StreamFault};

/// Takes the next frame, or returns `None` at the end of the client's bytes. A frame that is too
/// long, also by a limit, or for which an allocation fails, is skipped.
///
/// # Errors
///
/// [`StreamFault::ReadFault`] if a read fails, or if the client's bytes end inside a frame.
pub(crate) fn next_frame<C: Client>(
    room: Room,
    client: &mut C,
    buffer: &mut InputBuffer,
) -> Result<Option<NextFrame>, StreamFault>
    requires { IfSome (C.history client.old)
        (OwesNothingWhile IsUnfinished C.owes_nothing (pending_bytes buffer.old)) }
    ensures frame { IfOk result (λ next. MatchOption next
        (Ends (C.remaining client.old) (C.remaining client.new) (C.history client.old)
        (C.history client.new) (pending_bytes buffer.old) (pending_bytes buffer.new))
        (TakesFrame (C.remaining client.old) (C.remaining client.new) (C.history client.old)
        (C.history client.new) (pending_bytes buffer.old) (pending_bytes buffer.new))) }
    ensures err { IfErr result (λ fault. fault ≡ StreamFault.ReadFault) }
    ensures stops { OnErr result (StopsInFrame (C.remaining client.old) (C.remaining client.new)
        (C.read_failures client.old) (C.read_failures client.new) (pending_bytes buffer.old)) }
    ensures contents { C.contents client.new ≡ C.contents client.old }
    ensures read_failures { OnOk result (C.read_failures client.new ≡ C.read_failures client.old) }
    ensures write_failures { C.write_failures client.new ≡ C.write_failures client.old }
{
    let Some(head) = take_head(client, buffer)? else {
        return Ok(None);
    };
    let next = take_rest(room, client, buffer, head)?;
    Ok(Some(next))
}

/// Takes the head of the next frame, or returns `None` at the end of the client's bytes.
fn take_head<C: Client>(
    client: &mut C,
    buffer: &mut InputBuffer,
) -> Result<Option<Head>, StreamFault>
    requires { IfSome (C.history client.old)
        (OwesNothingWhile IsUnfinished C.owes_nothing (pending_bytes buffer.old)) }
    ensures head { IfOk result (λ head. MatchOption head
        (Ends (C.remaining client.old) (C.remaining client.new) (C.history client.old)
        (C.history client.new) (pending_bytes buffer.old) (pending_bytes buffer.new))
        (TakesHead (C.remaining client.old) (C.remaining client.new) (C.history client.old)
        (C.history client.new) (pending_bytes buffer.old) (pending_bytes buffer.new))) }
    ensures err { IfErr result (λ fault. fault ≡ StreamFault.ReadFault) }
    ensures stops { OnErr result (StopsInFrame (C.remaining client.old) (C.remaining client.new)
        (C.read_failures client.old) (C.read_failures client.new) (pending_bytes buffer.old)) }
    ensures contents { C.contents client.new ≡ C.contents client.old }
    ensures read_failures { OnOk result (C.read_failures client.new ≡ C.read_failures client.old) }
    ensures write_failures { C.write_failures client.new ≡ C.write_failures client.old }
{
    if buffer.wait_for(client, HEAD)? {
        return Ok(Some(head_of(buffer)));
    }
    if buffer.pending().is_empty() {
        return Ok(None);
    }
    Err(StreamFault::ReadFault)
}

/// Takes or skips the header and the values behind a frame's head. The header is read before memory
/// for the values is allocated, since its version says how many values there may be.
fn take_rest<C: Client>(
    room: Room,
    client: &mut C,
    buffer: &mut InputBuffer,
    head: Head,
) -> Result<NextFrame, StreamFault>
    requires { IfSome (C.history client.old)
        (OwesNothingWhile (IsBelow (head.header_len + 8 * head.value_count)) C.owes_nothing
        (pending_bytes buffer.old)) }
    ensures rest { IfOk result (TakesRest (C.remaining client.old) (C.remaining client.new)
        (C.history client.old) (C.history client.new)
        (pending_bytes buffer.old) (pending_bytes buffer.new) head) }
    ensures err { IfErr result (λ fault. fault ≡ StreamFault.ReadFault) }
    ensures fails { OnErr result (FailsIn (IsBelow (head.header_len + 8 * head.value_count))
        (C.remaining client.old) (C.remaining client.new) (pending_bytes buffer.old)) }
    ensures cut_off { OnErr result (IsCutOff (C.read_failures client.old)
        (C.read_failures client.new) (C.remaining client.new)) }
    ensures contents { C.contents client.new ≡ C.contents client.old }
    ensures read_failures { OnOk result (C.read_failures client.new ≡ C.read_failures client.old) }
    ensures write_failures { C.write_failures client.new ≡ C.write_failures client.old }
{
    let mut header = match header_room(room, head) {
        Ok(header) => header,
        Err(fault) => {
            pass_over(client, buffer, head.rest_len())?;
            return Ok(NextFrame::Passed(fault, head.frame_len()));
        }
    };
    take_header(client, buffer, &mut header, head.header_len as usize)?;
    let mut values = match values_room(room.alloc, &header, head.value_count) {
        Ok(values) => values,
        Err(fault) => {
            pass_over(client, buffer, head.values_len())?;
            return Ok(NextFrame::Passed(fault, head.frame_len()));
        }
    };
    take_values(client, buffer, &mut values, head.value_count as usize)?;
    Ok(NextFrame::Whole(WholeFrame { header, values }))
}

/// Takes a header of `count` bytes. `header` has capacity for them.
fn take_header<C: Client>(
    client: &mut C,
    buffer: &mut InputBuffer,
    header: &mut Vec<u8>,
    count: usize,
) -> Result<(), StreamFault>
    requires new { header.old.items ≡ [] }
    requires room { count ≤ vec_capacity header.old }
    requires owes { IfSome (C.history client.old)
        (OwesNothingWhile (IsBelow count) C.owes_nothing (pending_bytes buffer.old)) }
    ensures taken { OnOk result (Takes (C.remaining client.old) (C.remaining client.new)
        (C.history client.old) (C.history client.new)
        (pending_bytes buffer.old) (pending_bytes buffer.new) header.new.items) }
    ensures counted { OnOk result (length header.new.items ≡ count) }
    ensures err { IfErr result (λ fault. fault ≡ StreamFault.ReadFault) }
    ensures fails { OnErr result (FailsIn (IsBelow count)
        (C.remaining client.old) (C.remaining client.new) (pending_bytes buffer.old)) }
    ensures cut_off { OnErr result (IsCutOff (C.read_failures client.old)
        (C.read_failures client.new) (C.remaining client.new)) }
    ensures contents { C.contents client.new ≡ C.contents client.old }
    ensures read_failures { OnOk result (C.read_failures client.new ≡ C.read_failures client.old) }
    ensures write_failures { C.write_failures client.new ≡ C.write_failures client.old }
{
    while header.len() < count {
        if !buffer.wait_for(client, 1)? {
            return Err(StreamFault::ReadFault);
        }
        let most = count - header.len();
        move_bytes(buffer, header, most);
    }
    Ok(())
}

/// Takes `count` values. `values` has capacity for them.
fn take_values<C: Client>(
    client: &mut C,
    buffer: &mut InputBuffer,
    values: &mut Vec<i64>,
    count: usize,
) -> Result<(), StreamFault>
    requires new { values.old.items ≡ [] }
    requires room { count ≤ vec_capacity values.old }
    requires owes { IfSome (C.history client.old)
        (OwesNothingWhile (IsBelow (8 * count)) C.owes_nothing (pending_bytes buffer.old)) }
    ensures taken { OnOk result (TakesValues (C.remaining client.old) (C.remaining client.new)
        (C.history client.old) (C.history client.new)
        (pending_bytes buffer.old) (pending_bytes buffer.new) values.new.items) }
    ensures counted { OnOk result (length values.new.items ≡ count) }
    ensures err { IfErr result (λ fault. fault ≡ StreamFault.ReadFault) }
    ensures fails { OnErr result (FailsIn (IsBelow (8 * count))
        (C.remaining client.old) (C.remaining client.new) (pending_bytes buffer.old)) }
    ensures cut_off { OnErr result (IsCutOff (C.read_failures client.old)
        (C.read_failures client.new) (C.remaining client.new)) }
    ensures contents { C.contents client.new ≡ C.contents client.old }
    ensures read_failures { OnOk result (C.read_failures client.new ≡ C.read_failures client.old) }
    ensures write_failures { C.write_failures client.new ≡ C.write_failures client.old }
{
    while values.len() < count {
        if !buffer.wait_for(client, VALUE)? {
            return Err(StreamFault::ReadFault);
        }
        let most = count - values.len();
        move_values(buffer, values, most);
    }
    Ok(())
}

/// Skips `count` bytes.
fn pass_over<C: Client>(
    client: &mut C,
    buffer: &mut InputBuffer,
    count: u128,
) -> Result<(), StreamFault>
    requires { IfSome (C.history client.old)
        (OwesNothingWhile (IsBelow count) C.owes_nothing (pending_bytes buffer.old)) }
    ensures taken { OnOk result (TakesCount count (C.remaining client.old) (C.remaining client.new)
        (C.history client.old) (C.history client.new)
        (pending_bytes buffer.old) (pending_bytes buffer.new)) }
    ensures err { IfErr result (λ fault. fault ≡ StreamFault.ReadFault) }
    ensures fails { OnErr result (FailsIn (IsBelow count)
        (C.remaining client.old) (C.remaining client.new) (pending_bytes buffer.old)) }
    ensures cut_off { OnErr result (IsCutOff (C.read_failures client.old)
        (C.read_failures client.new) (C.remaining client.new)) }
    ensures contents { C.contents client.new ≡ C.contents client.old }
    ensures read_failures { OnOk result (C.read_failures client.new ≡ C.read_failures client.old) }
    ensures write_failures { C.write_failures client.new ≡ C.write_failures client.old }
{
    let mut left = count;
    while left > 0 {
        if !buffer.wait_for(client, 1)? {
            return Err(StreamFault::ReadFault);
        }
        let there = buffer.pending().len();
        let most = left.min(there as u128) as usize;
        buffer.skip(most);
        left -= most as u128;
    }
    Ok(())
}
