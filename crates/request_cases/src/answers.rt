//! Computes the line that answers a text in three ways: by a whole run, by ranges of places, and
//! place by place. Each way is a check of the other two.

ghost use Rattle.expr_reader.specs.Asked.{IsUnbound};

use expr_reader::{Fault, Request, read_request};
use std::alloc::{AllocError, Global};
use std::sync::Wait;
use std::thread::Threads;
use tensor_ops::{Cursor, TensorEvaluator};
use tensor_runner::{CountedReader, CountedWriter, Status, run};

/// How many places a range has in [`by_ranges`].
const RANGE: usize = 7;

/// Returns the line that a run over memory writes, without its line feed. If the run ends in
/// another way than this line says, the text that is returned says so, and so differs from any
/// line.
pub(crate) fn answer<RT: Threads + Wait + Sync>(
    rt: &RT,
    alloc: Global,
    text: &str,
) -> Result<String, AllocError> {
    let mut reader = CountedReader::new(text.as_bytes());
    let mut writer = CountedWriter::new(Vec::new(alloc));
    let ended = run(rt, alloc, &mut reader, &mut writer);
    let Ok(written) = str::from_utf8(writer.writer.as_slice()) else {
        return "no text".to_string(alloc);
    };
    let status = if written.starts_with("error") {
        Status::Fault
    } else {
        Status::Tensor
    };
    match written.strip_suffix('\n') {
        Some(line) if ended == Ok(status) => line.to_string(alloc),
        _ => format!(in alloc; "{written:?} and {ended:?}"),
    }
}

/// Returns the answer of a text, each value computed by itself with a [`Cursor`].
pub(crate) fn by_places(alloc: Global, text: &str) -> Result<String, AllocError> {
    match read_request(alloc, text.as_bytes()) {
        Ok(request) => each_place(alloc, &request),
        Err(fault) => fault_line(alloc, fault),
    }
}

/// Returns the answer of a text, computed by ranges of [`RANGE`] places with a [`TensorEvaluator`].
pub(crate) fn by_ranges(alloc: Global, text: &str) -> Result<String, AllocError> {
    match read_request(alloc, text.as_bytes()) {
        Ok(request) => each_range(alloc, &request),
        Err(fault) => fault_line(alloc, fault),
    }
}

/// Returns the line of a request's tensor, computed place by place.
fn each_place(alloc: Global, request: &Request<'_>) -> Result<String, AllocError>
    requires { IsUnbound request.now }
{
    let Ok(dims) = request.expr.dims(&request.inputs) else {
        return "no dims".to_string(alloc);
    };
    let cursor = Cursor::of(&request.expr, &request.inputs);
    let mut values = Vec::new(alloc);
    for place in 0..dims.size() {
        values.push(cursor.value(place))?;
    }
    tensor_line(alloc, dims.as_slice(), values.as_slice())
}

/// Returns the line of a request's tensor, computed range by range.
fn each_range(alloc: Global, request: &Request<'_>) -> Result<String, AllocError>
    requires { IsUnbound request.now }
{
    let evaluator = TensorEvaluator::of(alloc, &request.expr, &request.inputs)?;
    let size = evaluator.dims().size();
    let mut values = Vec::new(alloc);
    for first in (0..size).step_by(RANGE) {
        let last = first.saturating_add(RANGE as u64).min(size);
        let part = evaluator.values(alloc, first, last)?;
        values.extend_from_slice(part.as_slice())?;
    }
    tensor_line(alloc, evaluator.dims().as_slice(), values.as_slice())
}

/// Returns the line of a fault.
fn fault_line(alloc: Global, fault: Fault) -> Result<String, AllocError> {
    format!(in alloc; "error {} {}", fault.number(), fault.name())
}

/// Returns the line of a tensor with these dims and values.
fn tensor_line(alloc: Global, sizes: &[u64], values: &[i64]) -> Result<String, AllocError> {
    let spaced = format!(in alloc; "{{\"data\":{values:?},\"dims\":{sizes:?}}}")?;
    spaced.replace(alloc, ", ", ",")
}
