//! Allocates memory for a frame's header and values, or says why the frame is skipped. The limits
//! come from expr_reader; specs/private/Taking.antt says when a frame is refused.

ghost use Rattle.std.specs.Prelude.{◌≡◌, ◌≤◌, ◌+◌, ◌*◌, ℕ, List, [], IfOk, IfErr, OnOk, vec_capacity};
ghost use Rattle.std.specs.Prelude.{false};
ghost use Rattle.expr_reader.specs.Frame.{values_limit};
ghost use Rattle.frame_server.specs.Answer.{IsShort};
ghost use Rattle.frame_server.specs.private.Taking.{IsPassed, IsRefused};
ghost use Rattle.tensor_runner.specs.Limited.{is_over};

use crate::frame::Head;
use expr_reader::{Fault, MAX_TEXT, MAX_VALUES, WIDEST_VALUES, values_limit};
use std::alloc::Global;
use tensor_runner::Limits;

/// Where a frame is kept, and the limits of the server.
#[derive(Clone, Copy, Drop)]
pub(crate) struct Room {
    pub(crate) alloc: Global,
    pub(crate) limits: Limits,
}

/// Returns memory for the header of a frame. A frame that is longer than the limit of bytes gets
/// none; its length is what answers it.
///
/// # Errors
///
/// [`Fault::TooLong`] if the frame is too long for any version, and [`Fault::NoMemory`] if it is
/// longer than the limit of bytes, or if the allocation fails.
pub(crate) fn header_room(room: Room, head: Head) -> Result<Vec<u8>, Fault>
    ensures room { IfOk result (λ header.
        (header.items ≡ []) × (head.header_len ≤ vec_capacity header)) }
    ensures short { OnOk result (IsShort head.header_len head.value_count) }
    ensures allowed { OnOk result (is_over room.limits.bytes
        (16 + (head.header_len + 8 * head.value_count)) ≡ false) }
    ensures passed { IfErr result (λ fault. (header : List ℕ)
        → IsPassed header head.header_len head.value_count fault) }
{
    if head.header_len > MAX_TEXT as u64 || head.value_count > WIDEST_VALUES as u64 {
        return Err(Fault::TooLong);
    }
    if room.limits.is_too_long(head.frame_len()) {
        return Err(Fault::NoMemory);
    }
    match Vec::with_capacity(room.alloc, head.header_len as usize) {
        Ok(header) => Ok(header),
        Err(_) => Err(Fault::NoMemory),
    }
}

/// Returns memory for the values behind a header.
///
/// # Errors
///
/// [`Fault::TooLong`] if there are more values than the version of the header allows, and
/// [`Fault::NoMemory`] if an allocation fails.
pub(crate) fn values_room(alloc: Global, header: &[u8], count: u64) -> Result<Vec<i64>, Fault>
    ensures room { IfOk result (λ values. (values.items ≡ []) × (count ≤ vec_capacity values)) }
    ensures few { OnOk result (count ≤ values_limit header.now) }
    ensures refused { IfErr result (IsRefused header.now count) }
{
    check_count(alloc, header, count)?;
    match Vec::with_capacity(alloc, count as usize) {
        Ok(values) => Ok(values),
        Err(_) => Err(Fault::NoMemory),
    }
}

/// Refuses more values than the version of the header allows. The header is read only if there are
/// more values than every version allows.
fn check_count(alloc: Global, header: &[u8], count: u64) -> Result<(), Fault>
    ensures few { OnOk result (count ≤ values_limit header.now) }
    ensures refused { IfErr result (IsRefused header.now count) }
{
    if count <= MAX_VALUES as u64 {
        return Ok(());
    }
    let limit = values_limit(alloc, header)?;
    if count > limit {
        Err(Fault::TooLong)
    } else {
        Ok(())
    }
}
