//! Where the values of a request's tensors are: in the text, after it, in arrays, or not given.
//! `specs/private/Behind` has this as `Source`; another place for values is a variant of both.

ghost use Rattle.std.specs.Prelude.{◌≡◌, ◌≤◌, length, IfOk};
ghost use Rattle.serde_json.specs.View.{view};
ghost use Rattle.tensor_ops.specs.Legal.{IsPossible, IsWithin};
ghost use Rattle.expr_reader.specs.private.Outcome.{IsReadOr};
ghost use Rattle.expr_reader.specs.private.Version.{versions_under};

use crate::array::Array;
use crate::fault::Fault;
use crate::known::KnownTensor;
use crate::tensors::{read_array_tensor, read_framed_tensor, read_tensor, read_unread_tensor};
use crate::version::Versions;
use serde_json::Value;
use std::alloc::Global;
use tensor_ops::Bounds;

/// Where the values are that still belong to no tensor.
#[derive(Clone, Copy)]
pub enum Values<'a> {
    /// In the text, each in the `data` of its tensor.
    InText,
    /// In a list after a header, in the order of the tensors' names.
    Behind(&'a [i64]),
    /// In an array for each tensor, in the order of the tensors' names.
    Apart(&'a [Array<'a>]),
    /// Nowhere: only their number is known. A contract sees them as zeroes after a header.
    Unread(usize),
}

impl<'a> Values<'a> {
    ghost use Rattle.expr_reader.specs.private.Behind.{source_of, versions_by, tensor_by, left_by, is_end};
    ghost use Rattle.expr_reader.specs.private.Behind.{HasFirst};

    /// Returns which versions a request with such values may have.
    pub(crate) fn versions(self) -> Versions
        ensures { versions_under result ≡ versions_by (source_of self.entry) }
    {
        match self {
            Values::InText => Versions::OfTexts,
            Values::Behind(_) | Values::Apart(_) | Values::Unread(_) => Versions::OfFrames,
        }
    }

    /// Reads the tensor of the next member. It takes the first of the values or arrays, if they are
    /// not in the text.
    pub(crate) fn first_tensor(
        self,
        alloc: Global,
        value: &Value,
        bounds: Bounds,
    ) -> Result<KnownTensor<'a>, Fault>
        requires { IsPossible bounds }
        ensures tensor { IsReadOr Fault.BadTensor (λ t. t)
            (tensor_by (source_of self.entry) bounds (view value.now)) result }
        ensures bounds { IfOk result (λ t. IsWithin bounds t.dims) }
        ensures first { IfOk result (λ t. HasFirst (source_of self.entry) t) }
    {
        match self {
            Values::InText => read_tensor(alloc, value, bounds),
            Values::Behind(values) => read_framed_tensor(value, bounds, values),
            Values::Apart(arrays) => match arrays.first() {
                Some(first) => read_array_tensor(value, bounds, first.values),
                None => Err(Fault::BadTensor),
            },
            Values::Unread(count) => read_unread_tensor(value, bounds, count),
        }
    }

    /// Returns the values that are left after a tensor that took the first of them.
    pub(crate) fn without(self, tensor: &KnownTensor) -> Values<'a>
        requires { HasFirst (source_of self) tensor.now }
        ensures { source_of result ≡ left_by (source_of self.entry) tensor.now }
    {
        match self {
            Values::InText => Values::InText,
            Values::Behind(values) => Values::Behind(&values[tensor.len()..]),
            Values::Apart(arrays) => Values::Apart(&arrays[1..]),
            Values::Unread(count) => Values::Unread(count - tensor.len()),
        }
    }

    /// Returns whether no values are left.
    pub(crate) fn is_end(self) -> bool
        ensures { result ≡ is_end (source_of self.entry) }
    {
        match self {
            Values::InText => true,
            Values::Behind(values) => values.is_empty(),
            Values::Apart(arrays) => arrays.is_empty(),
            Values::Unread(count) => count == 0,
        }
    }
}
