//! Grows the stack of a program before its first request. The mains call it; `STACK` has to cover
//! the deepest request, so a change of a recursion, or of the limit of nested nodes, touches it.

ghost use Rattle.std.specs.Io.KnownBytes.{Keeps};

use std::alloc::Alloc;
use std::fs;
use std::fs::Files;
use std::io::Read;

/// How many bytes the stack is grown by: more than the deepest request needs.
const STACK: u64 = 1_048_576;

/// How many bytes of the system's limit are left alone, for the frames that are on the stack
/// already and for the calls that `grow` makes.
const LEFT: u64 = 262_144;

/// How many bytes of stack one call of `grow` takes.
const PIECE: usize = 65_536;

/// Grows the stack now by up to 1 MiB, by reads of 0 bytes into arrays on it; nothing of the reader
/// is consumed. Under a limit of memory a request may take all memory, and a stack that can't grow
/// then would end the program. If the system limits the stack itself to less, the stack grows to
/// 256 KiB below that limit.
pub fn grow_stack<F: Files + Alloc, R: Read>(files: &F, reader: &mut R)
    ensures { Keeps (R.remaining reader.old) (R.remaining reader.new) }
{
    let most = stack_limit(files).saturating_sub(LEFT).min(STACK);
    grow(reader, most / PIECE as u64);
}

/// Grows the stack by the given number of pieces of [`PIECE`] bytes, and by one if that is 0.
#[inline(never)]
fn grow<R: Read>(reader: &mut R, pieces: u64)
    ensures { Keeps (R.remaining reader.old) (R.remaining reader.new) }
{
    let mut room = [0u8; PIECE];
    if pieces > 1 {
        grow(reader, pieces - 1);
    }
    let _none = reader.read(&mut room[..0]);
}

/// Returns how many bytes the stack may have, from `/proc/self/limits`. If that can't be read, the
/// number is as large as `grow_stack` needs.
fn stack_limit<F: Files + Alloc>(files: &F) -> u64 {
    let Ok(limits) = fs::read_to_string(files, "/proc/self/limits") else {
        return STACK + LEFT;
    };
    for line in limits.lines() {
        if let Some(limit) = line.strip_prefix("Max stack size") {
            return limit_of(limit);
        }
    }
    STACK + LEFT
}

/// Returns the first word of a limit as a number of bytes. A word that isn't a number is no limit,
/// and gives the greatest `u64`.
fn limit_of(limit: &str) -> u64 {
    let Some(word) = limit.split_whitespace().next() else {
        return STACK + LEFT;
    };
    word.parse().unwrap_or(u64::MAX)
}
