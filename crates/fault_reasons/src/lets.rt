//! The `let`s of version 3: reasons for their faults, and the `let`s around an operand. An operand
//! is read again inside them, since it may have the names that they give.

use crate::found::{found, quoted};
use serde_json::Value;
use std::alloc::{AllocError, Global};

/// The first element of a `let`.
pub(crate) const LET: &str = "let";

/// The index of the element of a `let` in which the name is known.
const BODY: u8 = 3;

/// Returns the elements of a `let` after its first, or `None` if the value is no `let`.
pub(crate) fn let_elements(value: &Value) -> Option<&[Value]> {
    match value.as_array()?.as_slice() {
        [head, elements @ ..] if head.as_str() == Some(LET) => Some(elements),
        _ => None,
    }
}

/// Says why a `let` is not allowed at its place, or in this version of headers.
pub(crate) fn why_let(alloc: Global, version: u64) -> Result<String, AllocError> {
    if version == 3 {
        return format!(in alloc;
            "a \"let\" may be the whole expression, or the last element of a \"let\""
        );
    }
    format!(in alloc; "\"let\" is an operation of version 3; this is a header of version {version}")
}

/// Says why a value is not the name that a `let` gives.
pub(crate) fn why_let_name(alloc: Global, value: &Value) -> Result<String, AllocError> {
    let Some(name) = value.as_str() else {
        let what = found(alloc, value)?;
        return format!(in alloc; "NAME of \"let\" must be a string; this is {what}");
    };
    let name = quoted(alloc, name)?;
    format!(in alloc; "NAME of \"let\" must be new; an input or an earlier \"let\" is named {name}")
}

/// Returns an operand inside copies of the `let`s on the way to it, or `None` if there are none. The
/// way leads down from the expression by indices, the innermost first.
pub(crate) fn inside_lets(
    alloc: Global,
    expr: &Value,
    way: &[u8],
    operand: &Value,
) -> Result<Option<Value>, AllocError> {
    let lets = lets_on(alloc, expr, way)?;
    if lets.is_empty() {
        return Ok(None);
    }
    let mut inside = operand.clone()?;
    for (name, tensor) in lets.iter().rev() {
        inside = let_of(alloc, name, tensor, inside)?;
    }
    Ok(Some(inside))
}

/// Returns the names and tensors of the `let`s on a way down, the outermost first.
fn lets_on<'v>(
    alloc: Global,
    expr: &'v Value,
    way: &[u8],
) -> Result<Vec<(&'v Value, &'v Value)>, AllocError> {
    let mut lets = Vec::new(alloc);
    let mut value = expr;
    for index in way.iter().rev() {
        let Some([name, tensor, body]) = let_elements(value) else {
            break;
        };
        if *index != BODY {
            break;
        }
        lets.push((name, tensor))?;
        value = body;
    }
    Ok(lets)
}

/// Returns the `let` of a name, a tensor and a body.
fn let_of(alloc: Global, name: &Value, tensor: &Value, body: Value) -> Result<Value, AllocError> {
    let mut elements = Vec::with_capacity(alloc, 4)?;
    elements.push(Value::String(String::from_str(alloc, LET)?))?;
    elements.push(name.clone()?)?;
    elements.push(tensor.clone()?)?;
    elements.push(body)?;
    Ok(Value::Array(elements))
}
