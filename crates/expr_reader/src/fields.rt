//! Parses a text into a JSON value, and takes the five fields out of it. `specs/Fields` defines
//! both; a new field changes `Fields` in both places and `fields_asked` in `specs/Request`.

ghost use Rattle.std.specs.Prelude.{◌≡◌, ◌≤◌, IfSome, option_map};
ghost use Rattle.serde_json.specs.View.{view};
ghost use Rattle.expr_reader.specs.Fields.{reading, has_members, within, fields_of};
ghost use Rattle.expr_reader.specs.private.Outcome.{IsReadOr};

use crate::fault::Fault;
use serde_json::Value;
use std::alloc::Global;

/// Parses a text as one JSON value.
pub(crate) fn parse(alloc: Global, text: &[u8]) -> Result<Value, Fault>
    ensures { IsReadOr Fault.NotJson view (reading text.now) result }
{
    let Ok(text) = str::from_utf8(text) else {
        return Err(Fault::NotJson);
    };
    match Value::from_str(alloc, text) {
        Ok(value) => Ok(value),
        Err(error) if error.is_memory() => Err(Fault::NoMemory),
        Err(_) => Err(Fault::NotJson),
    }
}

/// Returns whether a value is an object with `count` members.
pub(crate) fn has_members(value: &Value, count: usize) -> bool
    ensures { result ≡ has_members count (view value.now) }
{
    match value.as_object() {
        Some(members) => members.len() == count,
        None => false,
    }
}

/// Returns a whole number in `[least, most]`, or `None` if the value is no such number.
pub(crate) fn within(value: &Value, least: u64, most: u64) -> Option<u64>
    ensures value { result ≡ within least most (view value.now) }
    ensures bounds { IfSome result (λ number. (least ≤ number) × (number ≤ most)) }
{
    let number = value.as_u64()?;
    if least <= number && number <= most {
        Some(number)
    } else {
        None
    }
}

/// The values of the five fields of a request, as JSON.
#[derive(Drop)]
pub(crate) struct Fields<'v> {
    pub(crate) version: &'v Value,
    pub(crate) workers: &'v Value,
    pub(crate) block: &'v Value,
    pub(crate) inputs: &'v Value,
    pub(crate) expr: &'v Value,
}

impl<'v> Fields<'v> {
    ghost use Rattle.expr_reader.specs.private.Shown.{fields_under};

    /// Returns the fields of an object that has exactly these five.
    pub(crate) fn of(value: &'v Value) -> Option<Fields<'v>>
        ensures { option_map fields_under result ≡ fields_of (view value.now) }
    {
        if !has_members(value, 5) {
            return None;
        }
        let version = value.get("version")?;
        let workers = value.get("workers")?;
        let block = value.get("block")?;
        let inputs = value.get("inputs")?;
        let expr = value.get("expr")?;
        Some(Fields {
            version,
            workers,
            block,
            inputs,
            expr,
        })
    }
}
