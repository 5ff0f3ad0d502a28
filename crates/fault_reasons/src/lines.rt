//! The two lines about a fault. `specs/Explained` and `specs/Pointer` say byte by byte what they
//! are, except the reason.

ghost use Rattle.std.specs.Prelude.{◌≡◌, ◌<◌, ◌++◌, flat_map, IfOk, OnOk};
ghost use Rattle.std.specs.Char.{digit_char};
ghost use Rattle.expr_reader.specs.Located.{steps_under};
ghost use Rattle.fault_reasons.specs.Explained.{fault_lines, IsOneLine};
ghost use Rattle.fault_reasons.specs.Pointer as text;
ghost use Rattle.fault_reasons.specs.Pointer.{is_hidden, shown};

use crate::pointers::pointer;
use expr_reader::{Fault, Place};
use std::alloc::{AllocError, Global};

/// The words for the place of a fault that the whole text has.
pub(crate) const WHOLE: &[u8] = b"the whole text";

/// Returns a place as it is printed: its pointer, with some bytes escaped, or [`WHOLE`].
pub(crate) fn place_text(alloc: Global, place: &Place<'_>) -> Result<Vec<u8>, AllocError>
    ensures { IfOk result (λ place_bytes.
        place_bytes.items ≡ text.place_text (steps_under place.now)) }
{
    match place {
        Place::Whole => Vec::from_slice(alloc, WHOLE),
        Place::Field(_) | Place::Input(_) | Place::Node(_) => {
            let pointer = pointer(alloc, place)?;
            shown(alloc, pointer.as_slice())
        }
    }
}

/// Returns a pointer as it is printed. Bytes that could be mistaken for the end of the place are
/// escaped as in JSON.
fn shown(alloc: Global, pointer: &[u8]) -> Result<Vec<u8>, AllocError>
    ensures { IfOk result (λ place. place.items ≡ flat_map shown pointer.now) }
{
    let mut place = Vec::new(alloc);
    for byte in pointer {
        push_shown(&mut place, *byte)?;
    }
    Ok(place)
}

/// Appends one byte of a pointer, escaped as `\u00` and two digits if it must be.
fn push_shown(place: &mut Vec<u8>, byte: u8) -> Result<(), AllocError>
    ensures { OnOk result (place.new.items ≡ place.old.items ++ shown byte) }
{
    if !is_hidden(byte) {
        place.push(byte)?;
        return Ok(());
    }
    place.extend_from_slice(b"\\u00")?;
    place.push(digit(byte / 16))?;
    place.push(digit(byte % 16))?;
    Ok(())
}

/// Returns the hexadecimal digit of a number below 16.
fn digit(value: u8) -> u8
    requires { value < 16 }
    ensures { result ≡ digit_char value }
{
    if value < 10 {
        b'0' + value
    } else {
        b'a' - 10 + value
    }
}

/// Returns whether a byte of a pointer is escaped: a control byte, a quotation mark, a backslash or
/// a colon.
fn is_hidden(byte: u8) -> bool
    ensures { result ≡ is_hidden byte }
{
    byte < 32 || byte == b'"' || byte == b'\\' || byte == b':'
}

/// Returns the lines `error NUMBER NAME` and `at PLACE: REASON`.
pub(crate) fn fault_lines(
    alloc: Global,
    fault: Fault,
    place: &[u8],
    reason: &[u8],
) -> Result<Vec<u8>, AllocError>
    ensures { IfOk result (λ lines. lines.items ≡ fault_lines fault place.now reason.now) }
{
    let error = format!(in alloc; "error {} {}\nat ", fault.number(), fault.name())?;
    let mut lines = error.into_bytes();
    lines.extend_from_slice(place)?;
    lines.extend_from_slice(b": ")?;
    lines.extend_from_slice(reason)?;
    lines.push(b'\n')?;
    Ok(lines)
}

/// Returns the bytes of a text, with a space in place of each line feed.
pub(crate) fn one_line(alloc: Global, text: &str) -> Result<Vec<u8>, AllocError>
    ensures { IfOk result (λ line. IsOneLine line.items) }
{
    let mut line = Vec::new(alloc);
    for byte in text.as_bytes() {
        line.push(if *byte == b'\n' { b' ' } else { *byte })?;
    }
    Ok(line)
}
