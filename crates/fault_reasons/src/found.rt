//! Describes a JSON value in a few words. All reasons use it, so a change here changes most
//! reasons.

use serde_json::Value;
use std::alloc::{AllocError, Global};

/// The most bytes of a string that a reason repeats.
const MOST_SHOWN: usize = 60;

/// Describes a value: as JSON if it is short, otherwise by its kind and its length.
pub(crate) fn found(alloc: Global, value: &Value) -> Result<String, AllocError> {
    match value {
        Value::Array(list) if !list.is_empty() => {
            format!(in alloc; "a list of length {}", list.len())
        }
        Value::Object(members) if !members.is_empty() => {
            format!(in alloc; "an object of {} members", members.len())
        }
        Value::String(text) if text.len() > MOST_SHOWN => {
            format!(in alloc; "a string of {} bytes", text.len())
        }
        _ => value.to_string(alloc),
    }
}

/// Returns a name as a JSON string, or how long it is if it is long.
pub(crate) fn quoted(alloc: Global, name: &str) -> Result<String, AllocError> {
    if name.len() > MOST_SHOWN {
        return format!(in alloc; "a name of {} bytes", name.len());
    }
    Value::String(String::from_str(alloc, name)?).to_string(alloc)
}
