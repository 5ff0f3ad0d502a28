//! Writes a whole tensor that a request asks for, and finds the dims of an answer. All is evaluated
//! on the calling thread.

ghost use Rattle.std.specs.Prelude.{◌≡◌, ◌⊎◌, ℤ, List, Ok, Err, length, false};
ghost use Rattle.std.specs.Prelude.{MatchResult, IsErrOf, IfOk};
ghost use Rattle.expr_reader.specs.Arrays.{arrays_under, joined};
ghost use Rattle.expr_reader.specs.Asked.{asked_under};
ghost use Rattle.expr_reader.specs.Request.{asked_tensor};
ghost use Rattle.tensor_c.specs.Answer.{answer_dims, dims_of_arrays};
ghost use Rattle.tensor_c.specs.Call.{IsCall, IsTooLong, has_room, no_room};

use crate::faults::result_of;
use crate::room::{NO_ROOM, has_room, put_tensor};
use expr_reader::{Array, Dims, Fault, Request, Tensor, read_arrays, read_outline};
use prepared_expressions::Ready;
use std::alloc::{AllocError, Global};
use tensor_ops::eval_plain;

/// Writes the tensor that a request asks for. The room is checked before the evaluation allocates,
/// so too little room is never reported as an allocation failure.
pub(crate) fn put_asked(
    alloc: Global,
    request: Request<'_>,
    out: &mut [i64],
    dims: &mut [u64],
) -> i64
    ensures call { IsCall (Ok (asked_tensor (asked_under request.entry))) out.old dims.old
        (record { result = result; out = out.new; dims = dims.new }) }
    ensures no_room { has_room (asked_tensor (asked_under request.entry)) out.old dims.old ≡ false
        → result ≡ no_room }
{
    if !has_room(dims_asked(&request), out, dims) {
        return NO_ROOM;
    }
    match tensor_asked(alloc, request) {
        Ok(tensor) => put_tensor(&tensor, out, dims),
        Err(_) => result_of(Fault::NoMemory),
    }
}

/// Evaluates the tensor that a request asks for.
fn tensor_asked(alloc: Global, request: Request<'_>) -> Result<Tensor<'static>, AllocError>
    ensures { IfOk result (λ tensor. tensor ≡ asked_tensor (asked_under request.entry)) }
{
    let ready = Ready::of_request(alloc, request)?;
    eval_plain(alloc, &ready.expr, &ready.tensors)
}

/// Returns the dims of the tensor that a request asks for.
fn dims_asked<'a>(request: &'a Request<'_>) -> &'a Dims
    ensures { result.now ≡ (asked_tensor (asked_under request.now)).dims }
{
    // Called for its clause: dims can go as far as the inputs' bounds.
    let _limit = request.inputs.bounds();
    &request.dims
}

/// Returns the dims of the answer of a header and arrays. No value of the arrays is read.
pub(crate) fn dims_over(alloc: Global, header: &[u8], arrays: &[Array<'_>]) -> Result<Dims, Fault>
    ensures dims { MatchResult result
        (λ dims. dims_of_arrays header.now (arrays_under arrays.now) ≡ Ok dims)
        (λ fault. (fault ≡ Fault.NoMemory)
        ⊎ (dims_of_arrays header.now (arrays_under arrays.now) ≡ Err fault)) }
    ensures too_long { IsTooLong header.now (length (joined (arrays_under arrays.now)))
        → IsErrOf result Fault.TooLong }
{
    let request = read_arrays(alloc, header, arrays)?;
    Ok(dims_asked(&request).copied())
}

/// Returns the dims of the answer of a frame with `count` values. They do not depend on the values,
/// so no value is read.
pub(crate) fn dims_of(alloc: Global, header: &[u8], count: u64) -> Result<Dims, Fault>
    ensures dims { (values : List ℤ) → length values ≡ count → MatchResult result
        (λ dims. answer_dims header.now values ≡ Ok dims)
        (λ fault. (fault ≡ Fault.NoMemory) ⊎ (answer_dims header.now values ≡ Err fault)) }
    ensures too_long { IsTooLong header.now count → IsErrOf result Fault.TooLong }
{
    let outline = read_outline(alloc, header, count)?;
    // Called for its clause: dims can go as far as the inputs' bounds.
    let _limit = outline.inputs.bounds();
    Ok(outline.dims)
}
