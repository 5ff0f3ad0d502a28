//! Reasons for the faults BadField, BadVersion, BadWorkers and BadBlock. Their limits are the
//! limits of texts, written here again: a new version or limit of `expr_reader` changes them too.

use crate::found::{found, quoted};
use crate::source::Source;
use expr_reader::{MAX_BLOCK, WIDEST_BLOCK};
use serde_json::Value;
use std::alloc::{AllocError, Global};

/// Returns whether a request has a field with this name.
fn is_field(name: &str) -> bool {
    matches!(name, "version" | "workers" | "block" | "inputs" | "expr")
}

/// Says why a value does not have exactly the fields of a request.
pub(crate) fn why_fields(alloc: Global, value: &Value) -> Result<String, AllocError> {
    let Some(members) = value.as_object() else {
        let what = found(alloc, value)?;
        return format!(in alloc; "a request is an object of five fields; this is {what}");
    };
    for field in ["version", "workers", "block", "inputs", "expr"] {
        if value.get(field).is_none() {
            return format!(in alloc; "the field \"{field}\" is missing");
        }
    }
    for (name, _) in members {
        if !is_field(name.as_str()) {
            let name = quoted(alloc, name.as_str())?;
            return format!(in alloc; "a request has no field {name}");
        }
    }
    format!(in alloc; "a request has five fields")
}

/// Says why a value is not a version of a text, or of a header.
pub(crate) fn why_version(
    alloc: Global,
    source: Source<'_, '_>,
    value: &Value,
) -> Result<String, AllocError> {
    let versions = if source.is_text() {
        "1 or 2"
    } else {
        "1, 2 or 3"
    };
    let what = found(alloc, value)?;
    format!(in alloc; "version must be {versions}; this is {what}")
}

/// Says why a value is not a number of workers in this version.
pub(crate) fn why_workers(
    alloc: Global,
    version: u64,
    value: &Value,
) -> Result<String, AllocError> {
    let most = if version == 1 { 64 } else { 256 };
    let what = found(alloc, value)?;
    format!(in alloc;
        "in version {version} workers must be a whole number from 1 to {most}; this is {what}"
    )
}

/// Says why a value is not a block in this version.
pub(crate) fn why_block(alloc: Global, version: u64, value: &Value) -> Result<String, AllocError> {
    let most = if version == 3 {
        WIDEST_BLOCK
    } else {
        MAX_BLOCK
    };
    let what = found(alloc, value)?;
    format!(in alloc; "block must be a whole number from 1 to {most}; this is {what}")
}
