//! The line of a tensor, as compact JSON (RFC 8259). A change of the format touches
//! specs/Answer.antt, docs/REQUEST.md and the Python client; frame_server writes the dims of its
//! headers by `unsigned_text`.

ghost use Rattle.std.specs.Prelude.{◌≡◌, ℤ, pos, ◌++◌, map, IfOk, OnOk};
ghost use Rattle.serde_json.specs.View.{view};
ghost use Rattle.tensor_runner.specs.Answer.{numbers_text, tensor_line};
ghost use Rattle.tensor_runner.specs.Line.{bracketed, integer};

use expr_reader::Tensor;
use serde_json::Value;
use std::alloc::{AllocError, Global};

/// How many numbers are printed at a time. Their values and their text then stay in a few pages of
/// memory, which are used again.
const NUMBERS_AT_ONCE: usize = 4_096;

/// Appends the line of a tensor, `{"data":[..],"dims":[..]}` and a line feed.
pub(crate) fn push_tensor(
    alloc: Global,
    tensor: &Tensor,
    line: &mut Vec<u8>,
) -> Result<(), AllocError>
    ensures { OnOk result (line.new.items ≡ line.old.items ++ tensor_line tensor.now) }
{
    line.extend_from_slice(b"{\"data\":[")?;
    push_data(alloc, tensor.values(), line)?;
    line.extend_from_slice(b"],\"dims\":")?;
    line.extend_from_slice(&unsigned_text(alloc, tensor.dims().as_slice())?)?;
    line.extend_from_slice(b"}\n")
}

/// Appends numbers with commas between them, [`NUMBERS_AT_ONCE`] at a time.
fn push_data(alloc: Global, numbers: &[i64], line: &mut Vec<u8>) -> Result<(), AllocError>
    ensures { OnOk result (line.new.items ≡ line.old.items ++ numbers_text numbers.now) }
{
    let (first, rest) = numbers.split_at(numbers.len().min(NUMBERS_AT_ONCE));
    push_piece(alloc, first, line)?;
    for piece in rest.chunks(NUMBERS_AT_ONCE) {
        line.push(b',')?;
        push_piece(alloc, piece, line)?;
    }
    Ok(())
}

/// Appends numbers with commas between them. This is the text of their array without the brackets.
fn push_piece(alloc: Global, numbers: &[i64], line: &mut Vec<u8>) -> Result<(), AllocError>
    ensures { OnOk result (line.new.items ≡ line.old.items ++ numbers_text numbers.now) }
{
    let text = signed_text(alloc, numbers)?;
    line.extend_from_slice(&text[1..text.len() - 1])
}

/// Returns the text of an array of signed numbers.
fn signed_text(alloc: Global, numbers: &[i64]) -> Result<Vec<u8>, AllocError>
    ensures { IfOk result (λ text. text.items ≡ bracketed numbers.now) }
{
    array_text(alloc, numbers)
}

/// Returns the text of an array of unsigned numbers.
///
/// # Errors
///
/// [`AllocError`] if an allocation fails.
pub fn unsigned_text(alloc: Global, numbers: &[u64]) -> Result<Vec<u8>, AllocError>
    ensures { IfOk result (λ text. text.items ≡ bracketed (map pos numbers.now)) }
{
    array_text(alloc, numbers)
}

/// Returns the text of an array of numbers of any type that converts to a JSON value.
fn array_text<N: Copy + Into<Value>>(alloc: Global, numbers: &[N]) -> Result<Vec<u8>, AllocError>
    ensures { (f : N → ℤ) → ((x : N) (v : Value) → N.converts x v → view v ≡ integer (f x))
        → IfOk result (λ text. text.items ≡ bracketed (map f numbers.now)) }
{
    let mut values = Vec::with_capacity(alloc, numbers.len())?;
    for number in numbers {
        values.push_reserved((*number).into());
    }
    Value::Array(values).to_vec(alloc)
}
