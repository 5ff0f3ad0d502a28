//! The JSON value of a text, and the request that it names. The ghost fields of `Request` are what
//! evaluation relies on: inputs for all names, dims within bounds, and few enough nodes.

ghost use Rattle.std.specs.Prelude.{◌≡◌, ◌+◌, ◌^◌, ◌<◌, ◌≤◌, IsTrue, Ok, length};
ghost use Rattle.serde_json.specs.View.{view};
ghost use Rattle.tensor_ops.specs.Result.{dims_of};
ghost use Rattle.tensor_ops.specs.Sequence.{worked_out};
ghost use Rattle.tensor_ops.specs.Term.{has_inputs, nodes_of};
ghost use Rattle.tensor_ops.specs.Tree.{term_of};
ghost use Rattle.expr_reader.specs.Bindings.{terms_under, nodes_in, have_inputs, dims_in_turn, dims_under};
ghost use Rattle.expr_reader.specs.private.Counted.{member_count};
ghost use Rattle.expr_reader.specs.Limits.{most_bytes, most_workers};

use crate::binding::Binding;
use serde_json::Value;
use tensor_ops::{Dims, Expr, Inputs};

/// The JSON value of a text that is not too long.
#[derive(Drop)]
pub struct Parsed {
    /// The JSON value of the text.
    pub value: Value,
    pub ghost few: { member_count (view value) ≤ most_bytes + 1 },
}

/// What a text or a frame asks for: an expression over inputs and the tensors of bindings, and how
/// to spread the work. Neither `workers` nor `block` changes the answer.
#[derive(Drop)]
pub struct Request<'a> {
    /// How many workers take part at most: 1 to 256.
    pub workers: u32,
    /// How many places a worker takes at a time: from 1 to the largest block of the request's
    /// version.
    pub block: u64,
    /// The input tensors, in the order of their names.
    pub inputs: Inputs<'a>,
    /// The bindings, in order. The request of a text has none.
    pub bindings: Vec<Binding>,
    /// The expression whose tensor is the answer.
    pub expr: Expr,
    /// The dims of the answer.
    pub dims: Dims,
    pub ghost have_inputs: { IsTrue (have_inputs (terms_under bindings.items)
        (length inputs.tensors)) },
    pub ghost have_dims: { dims_in_turn inputs.bounds (terms_under bindings.items) inputs.tensors
        ≡ dims_under bindings.items },
    pub ghost has_inputs: { IsTrue (has_inputs (term_of expr)
        (length inputs.tensors + length bindings.items)) },
    pub ghost has_dims: { dims_of inputs.bounds (term_of expr)
        (worked_out (terms_under bindings.items) inputs.tensors) ≡ Ok dims },
    pub ghost some_workers: { 1 ≤ workers },
    pub ghost few_workers: { workers ≤ most_workers },
    pub ghost some_block: { 1 ≤ block },
    pub ghost few: { length inputs.tensors
        + (nodes_in (terms_under bindings.items) + nodes_of (term_of expr)) < 2 ^ 32 },
}
