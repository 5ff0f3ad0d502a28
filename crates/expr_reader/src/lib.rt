//! Reads requests: one JSON value (RFC 8259) that names tensors and an expression over them. The
//! result is the request, or the first fault and its place in the value. The values of the tensors
//! may also follow the text as numbers: a frame, or a header with an array for each tensor.
//!
//! What is read is defined in `specs/Request`; a change there changes `docs/REQUEST.md` and every
//! program.
#![tactic(auto)]

mod arguments;
mod array;
mod binding;
mod expression;
mod fault;
mod fields;
mod items;
mod known;
mod laws;
mod named;
mod node;
mod operation;
mod outline;
mod place;
mod request;
mod tensors;
mod text;
mod values;
mod version;

pub use array::Array;
pub use binding::Binding;
pub use fault::Fault;
pub use known::KnownInputs;
pub use laws::{
    arrays_mean_frames, frames_ask_alike, frames_keep_versions, frames_mean_texts,
    other_arrays_have_faults, unfilled_headers_have_faults,
};
pub use outline::Outline;
pub use place::{Indices, Located, MAX_DEPTH, Place};
pub use request::{Parsed, Request};
pub use tensor_ops::{Dims, Expr, Inputs, Tensor};
pub use text::{
    locate, parse_header, parse_request, read_arrays, read_frame, read_outline, read_part,
    read_request, values_limit,
};
pub use values::Values;
pub use version::operands_in;

/// The largest number of bytes of a text or a header.
pub const MAX_TEXT: usize = 16_777_216;

/// The largest number of values after a header of version 1 or 2.
pub const MAX_VALUES: usize = 16_777_216;

/// The largest number of values after any header.
pub const WIDEST_VALUES: usize = 4_294_967_296;

/// The largest block of a text.
pub const MAX_BLOCK: u64 = 1_048_576;

/// The largest block of any version.
pub const WIDEST_BLOCK: u64 = 268_435_456;

/// The largest number of nodes of a text's expression.
pub const MAX_NODES: u64 = 1_000;

/// The largest number of nodes of an expression of any version.
pub const WIDEST_NODES: u64 = 10_000;

/// The largest size that an argument may be.
pub const MAX_SIZE: u64 = 9_223_372_036_854_775_807;
