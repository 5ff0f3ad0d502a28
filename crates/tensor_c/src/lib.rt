//! The C library: frames answered in the caller's process and on its thread. Each exported function
//! stands in `include/tensor.h`, which says what a caller must guarantee; a change here also
//! changes that file, `examples/`, `python/` and the tests of the library.
#![tactic(auto)]

mod evaluation;
mod faults;
mod laws;
mod part;
mod plan;
mod room;
mod shared;

ghost use Rattle.std.specs.Prelude.{◌≡◌, ◌≢◌, ◌≤ℤ◌, ℤ, pos, List, length, replicate, Ok, Err};
ghost use Rattle.expr_reader.specs.Arrays.{arrays_under, joined};
ghost use Rattle.expr_reader.specs.Faults.{fault_number, fault_name};
ghost use Rattle.expr_reader.specs.Frame.{frame_at};
ghost use Rattle.expr_reader.specs.Request.{Asked};
ghost use Rattle.expr_reader.specs.declared.fault.Fault.{Fault};
ghost use Rattle.prepared_expressions.specs.Prepared.{Begins, Prepared, prepared_of, record_of};
ghost use Rattle.prepared_expressions.specs.declared.refusal.Refusal.{Refusal};
ghost use Rattle.tensor_c.specs.Answer.{answer_of_arrays, answer_of_frame};
ghost use Rattle.tensor_c.specs.Answer.{answer_dims, dims_of_arrays};
ghost use Rattle.tensor_c.specs.Call.{IsCall, IsDimsCall, IsTooLong};
ghost use Rattle.tensor_c.specs.Call.{called, called_for_dims, called_for_name};
ghost use Rattle.tensor_c.specs.Explaining.{IsExplainCall};
ghost use Rattle.tensor_c.specs.Part.{IsPartCall, called_for_part};
ghost use Rattle.tensor_c.specs.Plan.{asked_over, plan_over, called_for_plan};
ghost use Rattle.tensor_c.specs.Plan.{IsPlan, IsPlanCall, answer_of_plan, refused, IsRefused};
ghost use Rattle.tensor_c.specs.Shared.{shared_over, called_for_count, IsCountCall};
ghost use Rattle.tensor_c.specs.Version.{version};

use crate::evaluation::{dims_of, dims_over, put_asked};
use crate::faults::{fault_of, result_of, result_of_refusal};
use crate::part::{put_part, put_ready};
use crate::plan::{plan_of, put_found_plan};
use crate::room::{put_found, put_text};
use crate::shared::shared_of;
use expr_reader::{Array, Fault, read_arrays, read_frame};
use fault_reasons::explain_frame;
pub use laws::{calls_for_parts_are_one, parts_make_the_whole, plans_answer_for_headers};
use prepared_expressions::read_over;
use std::alloc::Global;

/// Evaluates a frame. Writes the values of the answer to `out`, and its rank and then its dims to
/// `dims`. Returns the number of values.
///
/// If the frame has a fault, the fault's number is returned, negated; if `out` or `dims` is too
/// short, -100. Nothing is written then.
#[unsafe(no_mangle)]
pub extern "C" fn tensor_evaluate(
    alloc: Global,
    header: &[u8],
    values: &[i64],
    out: &mut [i64],
    dims: &mut [u64],
) -> i64
    ensures call { IsCall (answer_of_frame header.now values.now) out.old dims.old
        (record { result = result; out = out.new; dims = dims.new }) }
    ensures too_long { IsTooLong header.now (length values.now)
        → record { result = result; out = out.new; dims = dims.new }
        ≡ called (Err Fault.TooLong) out.old dims.old }
{
    match read_frame(alloc, header, values) {
        Ok(request) => put_asked(alloc, request, out, dims),
        Err(fault) => result_of(fault),
    }
}

/// Writes values of the answer of a frame to `out`, the value at place `first` first: as many as
/// there are from there on, and as fit. Returns how many. Threads that call it with different
/// places and lists share one answer.
///
/// If the frame has a fault, the fault's number is returned, negated, and nothing is written. After
/// -15 (`NoMemory`) `out` may have any values.
#[unsafe(no_mangle)]
pub extern "C" fn tensor_evaluate_part(
    alloc: Global,
    header: &[u8],
    values: &[i64],
    first: u64,
    out: &mut [i64],
) -> i64
    ensures call { IsPartCall (answer_of_frame header.now values.now) first out.old
        (record { result = result; out = out.new }) }
    ensures too_long { IsTooLong header.now (length values.now)
        → record { result = result; out = out.new }
        ≡ called_for_part (Err Fault.TooLong) first out.old }
{
    match read_frame(alloc, header, values) {
        Ok(request) => put_part(alloc, request, first, out),
        Err(fault) => result_of(fault),
    }
}

/// Writes values of an answer as [`tensor_evaluate_part`] does, of a header with an array of values
/// for each tensor, in the order of the tensors' names.
#[unsafe(no_mangle)]
pub extern "C" fn tensor_evaluate_arrays(
    alloc: Global,
    header: &[u8],
    arrays: &[Array<'_>],
    first: u64,
    out: &mut [i64],
) -> i64
    ensures call { IsPartCall (answer_of_arrays header.now (arrays_under arrays.now)) first out.old
        (record { result = result; out = out.new }) }
    ensures too_long { IsTooLong header.now (length (joined (arrays_under arrays.now)))
        → record { result = result; out = out.new }
        ≡ called_for_part (Err Fault.TooLong) first out.old }
{
    match read_arrays(alloc, header, arrays) {
        Ok(asked) => put_part(alloc, asked, first, out),
        Err(fault) => result_of(fault),
    }
}

/// Writes the rank and then the dims of the answer of a frame with `count` values, and returns how
/// many values the answer has. The dims do not depend on the values, and nothing is evaluated.
///
/// If the frame has a fault, the fault's number is returned, negated; if `dims` is too short, -100.
/// Nothing is written then.
#[unsafe(no_mangle)]
pub extern "C" fn tensor_dims(alloc: Global, header: &[u8], count: u64, dims: &mut [u64]) -> i64
    ensures call { (values : List ℤ) → length values ≡ count
        → IsDimsCall (answer_dims header.now values) dims.old
        (record { result = result; dims = dims.new }) }
    ensures too_long { IsTooLong header.now count → record { result = result; dims = dims.new }
        ≡ called_for_dims (Err Fault.TooLong) dims.old }
{
    put_found(dims_of(alloc, header, count), dims)
}

/// Writes the rank and then the dims of an answer as [`tensor_dims`] does, of a header with an
/// array of values for each tensor. No value is read, and no allocation grows with the number of
/// values.
#[unsafe(no_mangle)]
pub extern "C" fn tensor_dims_of_arrays(
    alloc: Global,
    header: &[u8],
    arrays: &[Array<'_>],
    dims: &mut [u64],
) -> i64
    ensures call { IsDimsCall (dims_of_arrays header.now (arrays_under arrays.now)) dims.old
        (record { result = result; dims = dims.new }) }
    ensures too_long { IsTooLong header.now (length (joined (arrays_under arrays.now)))
        → record { result = result; dims = dims.new }
        ≡ called_for_dims (Err Fault.TooLong) dims.old }
{
    put_found(dims_over(alloc, header, arrays), dims)
}

/// Writes the plan of a header with `count` values: numbers from which [`tensor_run`] evaluates the
/// header's expression over any arrays with the header's dims. Returns how many numbers the plan
/// has.
///
/// If the header has a fault, the fault's number is returned, negated; if `plan` is too short,
/// -100. Nothing is written then.
#[unsafe(no_mangle)]
pub extern "C" fn tensor_prepare(alloc: Global, header: &[u8], count: u64, plan: &mut [u64]) -> i64
    ensures call { IsPlanCall (plan_over header.now count) plan.old
        (record { result = result; plan = plan.new }) }
    ensures ready { (a : Asked) → asked_over header.now count ≡ Ok a → pos 0 ≤ℤ result
        → IsPlan (prepared_of a) }
    ensures too_long { IsTooLong header.now count → record { result = result; plan = plan.new }
        ≡ called_for_plan (Err Fault.TooLong) plan.old }
{
    put_found_plan(plan_of(alloc, header, count), plan)
}

/// Writes values of an answer as [`tensor_evaluate_arrays`] does, from a plan in place of a header.
/// No text is parsed.
///
/// If the lengths of the arrays differ from the header's dims, -7 is returned. If the numbers are
/// not a plan at all, -101, -7 or -15 is returned; -101 if they do not even begin as a plan does.
/// Nothing is written then.
#[unsafe(no_mangle)]
pub extern "C" fn tensor_run(
    alloc: Global,
    plan: &[u64],
    arrays: &[Array<'_>],
    first: u64,
    out: &mut [i64],
) -> i64
    ensures call { (p : Prepared) → IsPlan p → plan.now ≡ record_of p
        → IsPartCall (answer_of_plan p (arrays_under arrays.now)) first out.old
        (record { result = result; out = out.new }) }
    ensures no_plan { ((p : Prepared) → plan.now ≢ record_of p)
        → IsRefused out.old (record { result = result; out = out.new }) }
    ensures no_start { (Begins plan.now → ⊥)
        → record { result = result; out = out.new } ≡ refused Refusal.NoRecord out.old }
    ensures len { length out.new ≡ length out.old }
{
    match read_over(alloc, plan, arrays) {
        Ok(ready) => put_ready(alloc, &ready, first, out),
        Err(refusal) => result_of_refusal(refusal),
    }
}

/// Returns how many values each call for a part of an answer computes before its own: values below
/// the outermost operation that are stored as lists, and the tensors of bindings. Nothing is
/// evaluated. A caller uses it to choose the number of parts.
///
/// If the header and the arrays have a fault, the fault's number is returned, negated.
#[unsafe(no_mangle)]
pub extern "C" fn tensor_shared(alloc: Global, header: &[u8], arrays: &[Array<'_>]) -> i64
    ensures call { IsCountCall (shared_over header.now (arrays_under arrays.now)) result }
    ensures too_long { IsTooLong header.now (length (joined (arrays_under arrays.now)))
        → result ≡ called_for_count (Err Fault.TooLong) }
{
    match read_arrays(alloc, header, arrays) {
        Ok(request) => shared_of(&request) as i64,
        Err(fault) => result_of(fault),
    }
}

/// Writes the explanation of a frame with `count` values, and a 0 byte after it: the first fault,
/// its place and a reason, or that there is none. Returns how many bytes it has, without the 0. No
/// value is read.
///
/// If `text` is too short, -100 is returned; if an allocation fails, -15. Nothing is written then.
#[unsafe(no_mangle)]
pub extern "C" fn tensor_explain(alloc: Global, header: &[u8], count: u64, text: &mut [u8]) -> i64
    ensures { IsExplainCall (frame_at header.now (replicate count (pos 0))) text.old
        (record { result = result; name = text.new }) }
{
    let told = explain_frame(alloc, header, count);
    if told.fault == Some(Fault::NoMemory) {
        return result_of(Fault::NoMemory);
    }
    put_text(told.lines.as_slice(), text)
}

/// Writes the name of the fault with this number, and a 0 byte after it. Returns how many bytes the
/// name has, without the 0.
///
/// If no fault has this number, 0 is returned; if `name` is too short, -100. Nothing is written
/// then.
#[unsafe(no_mangle)]
pub extern "C" fn tensor_fault_name(number: u32, name: &mut [u8]) -> i64
    ensures known { (fault : Fault) → fault_number fault ≡ number
        → record { result = result; name = name.new }
        ≡ called_for_name (fault_name fault) name.old }
    ensures unknown { ((fault : Fault) → fault_number fault ≢ number)
        → (result ≡ pos 0) × (name.new ≡ name.old) }
{
    let Some(fault) = fault_of(number) else {
        return 0;
    };
    put_text(fault.name().as_bytes(), name)
}

/// Returns the version of the library as one number: 1,000,000 times its first number, plus 1,000
/// times its second number, plus its third number. A plan is valid for one version.
#[unsafe(no_mangle)]
pub extern "C" fn tensor_version() -> i64
    ensures { result ≡ pos version }
{
    4_001_000
}
