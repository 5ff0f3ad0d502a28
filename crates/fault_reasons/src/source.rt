//! What is explained: a text, whose values stand in it, or the header of a frame, whose values follow
//! it. Most reasons are the same for both.

use expr_reader::{Parsed, Values};
use serde_json::Value;

/// The JSON value of a text or a header, and where the values of its tensors are.
#[derive(Clone, Copy)]
pub(crate) struct Source<'p, 'a> {
    pub(crate) parsed: &'p Parsed,
    pub(crate) values: Values<'a>,
}

impl<'p, 'a> Source<'p, 'a> {
    /// Returns the JSON value.
    pub(crate) fn root(self) -> &'p Value {
        &self.parsed.value
    }

    /// Returns the version, or 1 if it is not a whole number.
    pub(crate) fn version(self) -> u64 {
        let version = self.root().get("version").and_then(Value::as_u64);
        version.unwrap_or(1)
    }

    /// Returns whether the values stand in the text.
    pub(crate) fn is_text(self) -> bool {
        matches!(self.values, Values::InText)
    }

    /// Returns how many values follow the header; 0 for a text.
    pub(crate) fn count(self) -> usize {
        match self.values {
            Values::Unread(count) => count,
            Values::InText | Values::Behind(_) | Values::Apart(_) => 0,
        }
    }
}
