//! The outline of a request: what it asks for, except the values of its inputs. Each reader makes an
//! outline first; a reader of values turns it into a `Request`. Its ghost fields are those of a
//! `Request`.

ghost use Rattle.std.specs.Prelude.{◌≡◌, ◌+◌, ◌^◌, ◌<◌, ◌≤◌, IsTrue, Ok, length};
ghost use Rattle.tensor_ops.specs.Result.{dims_of};
ghost use Rattle.tensor_ops.specs.Sequence.{worked_out};
ghost use Rattle.tensor_ops.specs.Term.{has_inputs, nodes_of};
ghost use Rattle.tensor_ops.specs.Tree.{term_of};
ghost use Rattle.expr_reader.specs.Bindings.{terms_under, nodes_in, have_inputs, dims_in_turn, dims_under};
ghost use Rattle.expr_reader.specs.Limits.{most_workers};

use crate::binding::Binding;
use crate::fault::Fault;
use crate::known::KnownInputs;
use crate::request::Request;
use std::alloc::Global;
use tensor_ops::{Dims, Expr};

/// What a header asks for, whatever the values of its inputs are. The fields are those of
/// [`Request`].
#[derive(Drop)]
pub struct Outline<'a> {
    /// How many workers take part at most.
    pub workers: u32,
    /// How many places a worker takes at a time.
    pub block: u64,
    /// The inputs, in the order of their names.
    pub inputs: KnownInputs<'a>,
    /// The bindings, in order.
    pub bindings: Vec<Binding>,
    /// The expression whose tensor is the answer.
    pub expr: Expr,
    /// The dims of the answer.
    pub dims: Dims,
    pub ghost have_inputs: { IsTrue (have_inputs (terms_under bindings.items)
        (length inputs.tensors)) },
    pub ghost have_dims: { dims_in_turn inputs.bounds (terms_under bindings.items) inputs.tensors
        ≡ dims_under bindings.items },
    pub ghost has_inputs: { IsTrue (has_inputs (term_of expr)
        (length inputs.tensors + length bindings.items)) },
    pub ghost has_dims: { dims_of inputs.bounds (term_of expr)
        (worked_out (terms_under bindings.items) inputs.tensors) ≡ Ok dims },
    pub ghost some_workers: { 1 ≤ workers },
    pub ghost few_workers: { workers ≤ most_workers },
    pub ghost some_block: { 1 ≤ block },
    pub ghost few: { length inputs.tensors
        + (nodes_in (terms_under bindings.items) + nodes_of (term_of expr)) < 2 ^ 32 },
}

impl<'a> Outline<'a> {
    ghost use Rattle.std.specs.Prelude.{◌≡◌, [], IfOk, IfErr};
    ghost use Rattle.expr_reader.specs.Asked.{asked_under, IsUnbound};
    ghost use Rattle.expr_reader.specs.Outline.{outlined};

    /// Returns the request of this outline. Values that were not read are zeroes.
    pub(crate) fn into_request(self, alloc: Global) -> Result<Request<'a>, Fault>
        ensures request { IfOk result (λ request. asked_under request ≡ outlined self.entry) }
        ensures unbound { self.entry.bindings.items ≡ [] → IfOk result IsUnbound }
        ensures fault { IfErr result (λ fault. fault ≡ Fault.NoMemory) }
    {
        let Ok(inputs) = self.inputs.into_inputs(alloc) else {
            return Err(Fault::NoMemory);
        };
        Ok(Request {
            workers: self.workers,
            block: self.block,
            inputs,
            bindings: self.bindings,
            expr: self.expr,
            dims: self.dims,
        })
    }
}
