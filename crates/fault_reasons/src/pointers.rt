//! Places as JSON pointers (RFC 6901). `specs/Pointer` defines them; `lines.rt` escapes them once
//! more.

ghost use Rattle.std.specs.Prelude.{◌≡◌, ◌++◌, map, reverse, OnOk, IfOk};
ghost use Rattle.expr_reader.specs.Place.{index, field};
ghost use Rattle.expr_reader.specs.Located.{steps_under};
ghost use Rattle.fault_reasons.specs.Pointer.{escaped, step_text, pointer_of};

use expr_reader::Place;
use std::alloc::{AllocError, Global};

/// Returns the JSON pointer of a place. The pointer of the whole value is empty.
pub fn pointer(alloc: Global, place: &Place<'_>) -> Result<Vec<u8>, AllocError>
    ensures { IfOk result (λ text. text.items ≡ pointer_of (steps_under place.now)) }
{
    let mut text = Vec::new(alloc);
    match place {
        Place::Whole => {}
        Place::Field(name) => push_name(&mut text, name)?,
        Place::Input(name) => {
            push_name(&mut text, "inputs")?;
            push_name(&mut text, name)?;
        }
        Place::Node(indices) => {
            push_name(&mut text, "expr")?;
            push_indices(alloc, &mut text, indices.as_slice())?;
        }
    }
    Ok(text)
}

/// Appends the step to the member with this name.
fn push_name(text: &mut Vec<u8>, name: &str) -> Result<(), AllocError>
    ensures { OnOk result (text.new.items ≡ text.old.items ++ step_text (field name.now)) }
{
    text.push(b'/')?;
    for byte in name.as_bytes() {
        push_escaped(text, *byte)?;
    }
    Ok(())
}

/// Appends a byte of a name: `~` as `~0`, `/` as `~1`.
fn push_escaped(text: &mut Vec<u8>, byte: u8) -> Result<(), AllocError>
    ensures { OnOk result (text.new.items ≡ text.old.items ++ escaped byte) }
{
    if byte == b'~' {
        return text.extend_from_slice(b"~0");
    }
    if byte == b'/' {
        return text.extend_from_slice(b"~1");
    }
    text.push(byte)?;
    Ok(())
}

/// Appends the steps to the elements with these indices; the innermost index is the first.
fn push_indices(alloc: Global, text: &mut Vec<u8>, indices: &[u8]) -> Result<(), AllocError>
    ensures { OnOk result
        (text.new.items ≡ text.old.items ++ pointer_of (map index (reverse indices.now))) }
{
    if indices.is_empty() {
        return Ok(());
    }
    push_indices(alloc, text, &indices[1..])?;
    let last = indices[0];
    let step = format!(in alloc; "/{last}")?;
    text.extend_from_slice(step.as_bytes())?;
    Ok(())
}
