//! What is on standard input: a text, or the header of a frame and the number of its values.

use std::io::{ErrorKind, Read};
use tensor_runner::{MOST_READ, StreamFault};

/// The number of bytes of each of the two numbers at the beginning of a frame.
const NUMBER: usize = 8;

/// A text, or what a frame has before its values.
#[derive(Drop)]
pub(crate) enum Input {
    Text(Vec<u8>),
    Frame { header: Vec<u8>, count: u64 },
}

/// Why the input was not read.
pub(crate) enum Unread {
    NoMemory,
    Stream(StreamFault),
}

/// Reads what is on standard input. Of a text it reads at most one byte more than a text may have. Of
/// a frame it reads at most one byte of the header more than a header may have, and no value.
pub(crate) fn read_input(rt: &HostRuntime) -> Result<Input, Unread> {
    let alloc = rt.alloc();
    let mut first = Vec::new(alloc);
    read(rt, &mut first, NUMBER)?;
    let Some(len) = header_len(first.as_slice()) else {
        read(rt, &mut first, MOST_READ - NUMBER)?;
        return Ok(Input::Text(first));
    };
    let mut count = Vec::new(alloc);
    let mut header = Vec::new(alloc);
    let is_whole = read(rt, &mut count, NUMBER)? && read(rt, &mut header, len.min(MOST_READ))?;
    match first_number(count.as_slice()) {
        Some(count) if is_whole => Ok(Input::Frame { header, count }),
        _ => Err(Unread::Stream(StreamFault::ReadFault)),
    }
}

/// Reads up to `most` bytes to the end of a list. Returns whether there were as many.
fn read(rt: &HostRuntime, bytes: &mut Vec<u8>, most: usize) -> Result<bool, Unread> {
    match rt.stdin().take(most as u64).read_to_end(bytes) {
        Ok(count) => Ok(count >= most),
        Err(error) if error.kind() == ErrorKind::OutOfMemory => Err(Unread::NoMemory),
        Err(_) => Err(Unread::Stream(StreamFault::ReadFault)),
    }
}

/// Returns the length of a frame's header, if the bytes begin a frame. Then they are a number whose
/// upper half is 0, and no text begins so.
fn header_len(bytes: &[u8]) -> Option<usize> {
    let len = first_number(bytes)?;
    if 0 < len && len <= u64::from(u32::MAX) {
        Some(len as usize)
    } else {
        None
    }
}

/// Returns the number of 64 bits, least byte first, with which the bytes begin.
fn first_number(bytes: &[u8]) -> Option<u64> {
    let (numbers, _) = bytes.as_chunks::<NUMBER>();
    Some(u64::from_le_bytes(*numbers.first()?))
}
