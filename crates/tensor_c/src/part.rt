//! Writes a part of an answer. The bindings and the stored operands are computed anew in each call;
//! `shared.rt` counts them.

ghost use Rattle.std.specs.Prelude.{◌≡◌, length, Ok};
ghost use Rattle.expr_reader.specs.Asked.{asked_under};
ghost use Rattle.expr_reader.specs.Request.{asked_tensor};
ghost use Rattle.prepared_expressions.specs.Ready.{tensor_under};
ghost use Rattle.tensor_c.specs.Part.{IsPartCall};

use crate::faults::result_of;
use expr_reader::{Fault, Request};
use prepared_expressions::Ready;
use std::alloc::Global;

/// Writes values of the tensor that a request asks for to `out`, from place `first` on. Returns how
/// many, or -15.
pub(crate) fn put_part(alloc: Global, request: Request<'_>, first: u64, out: &mut [i64]) -> i64
    ensures { IsPartCall (Ok (asked_tensor (asked_under request.entry))) first out.old
        (record { result = result; out = out.new }) }
{
    match Ready::of_request(alloc, request) {
        Ok(ready) => put_ready(alloc, &ready, first, out),
        Err(_) => result_of(Fault::NoMemory),
    }
}

/// Writes values of an expression that is ready to `out`, from place `first` on. Returns how many,
/// or -15.
pub(crate) fn put_ready(alloc: Global, ready: &Ready<'_>, first: u64, out: &mut [i64]) -> i64
    ensures call { IsPartCall (Ok (tensor_under ready.now)) first out.old
        (record { result = result; out = out.new }) }
    ensures len { length out.new ≡ length out.old }
{
    match ready.fill(alloc, first, out) {
        Ok(count) => count as i64,
        Err(_) => result_of(Fault::NoMemory),
    }
}
