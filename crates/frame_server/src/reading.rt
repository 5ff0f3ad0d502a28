//! Takes heads, bytes and values out of the input buffer of a client. `taking.rt` uses it;
//! specs/Frame.antt defines how sizes and values stand in bytes.

ghost use Rattle.std.specs.Prelude.{◌≡◌, ◌+◌, ◌/◌, ◌<◌, ◌≤◌, ◌++◌, length, take, drop, vec_capacity};
ghost use Rattle.frame_server.specs.private.Taking.{values_of, IsHeadOf, MovesBytes, MovesValues};
ghost use Rattle.message_server.specs.Pieces.{pending_bytes};

use crate::frame::Head;
use message_server::InputBuffer;

/// The number of bytes of a head, the two sizes at the beginning of a frame.
pub(crate) const HEAD: usize = 16;

/// The number of bytes of a value.
pub(crate) const VALUE: usize = 8;

/// Takes the head of a frame out of the buffer.
pub(crate) fn head_of(buffer: &mut InputBuffer) -> Head
    requires { 16 ≤ length (pending_bytes buffer.old) }
    ensures head { IsHeadOf (take 16 (pending_bytes buffer.old)) result }
    ensures left { pending_bytes buffer.new ≡ drop 16 (pending_bytes buffer.old) }
{
    let head = head_in(&buffer.pending()[..HEAD]);
    buffer.skip(HEAD);
    head
}

/// Moves up to `most` pending bytes to the end of `header`, which has capacity for them.
pub(crate) fn move_bytes(buffer: &mut InputBuffer, header: &mut Vec<u8>, most: usize)
    requires some { 0 < length (pending_bytes buffer.old) }
    requires any { 0 < most }
    requires room { length header.old.items + most ≤ vec_capacity header.old }
    ensures moved { MovesBytes most (pending_bytes buffer.old) (pending_bytes buffer.new)
        header.old.items header.new.items }
    ensures capacity { vec_capacity header.old ≤ vec_capacity header.new }
{
    let pending = buffer.pending();
    let count = pending.len().min(most);
    let Ok(()) = header.extend_from_slice(&pending[..count]) else {
        unreachable!()
    };
    buffer.skip(count);
}

/// Moves up to `most` pending values to the end of `values`, which has capacity for them. A value
/// of which not all 8 bytes are pending stays.
pub(crate) fn move_values(buffer: &mut InputBuffer, values: &mut Vec<i64>, most: usize)
    requires some { 8 ≤ length (pending_bytes buffer.old) }
    requires any { 0 < most }
    requires room { length values.old.items + most ≤ vec_capacity values.old }
    ensures moved { MovesValues most (pending_bytes buffer.old) (pending_bytes buffer.new)
        values.old.items values.new.items }
    ensures capacity { vec_capacity values.new ≡ vec_capacity values.old }
{
    let pending = buffer.pending();
    let count = (pending.len() / VALUE).min(most);
    push_values(values, &pending[..VALUE * count]);
    buffer.skip(VALUE * count);
}

/// Reads a head from its 16 bytes.
fn head_in(bytes: &[u8]) -> Head
    requires { length bytes.now ≡ 16 }
    ensures { IsHeadOf bytes.now result }
{
    let (numbers, _) = bytes.as_chunks::<8>();
    Head {
        header_len: u64::from_le_bytes(numbers[0]),
        value_count: u64::from_le_bytes(numbers[1]),
    }
}

/// Appends the values that stand in `bytes` to `values`, which has capacity for them.
fn push_values(values: &mut Vec<i64>, bytes: &[u8])
    requires { length values.old.items + length bytes.now / 8 ≤ vec_capacity values.old }
    ensures values { values.new.items
        ≡ values.old.items ++ values_of (length bytes.now / 8) bytes.now }
    ensures capacity { vec_capacity values.new ≡ vec_capacity values.old }
{
    let (chunks, _) = bytes.as_chunks::<8>();
    for chunk in chunks {
        values.push_reserved(i64::from_le_bytes(*chunk));
    }
}
