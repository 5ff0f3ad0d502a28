//! The steps of the evaluation of a request without a fault. The plan is the one of `tensor_reduce`,
//! which `tensor_run` follows.

use crate::input::Input;
use expr_reader::{Fault, Request, read_frame, read_request};
use std::alloc::{AllocError, Global};
use tensor_reduce::{Plan, Step};

/// Returns a line for each step of a request. There is none if the request has a fault.
pub(crate) fn steps_of(alloc: Global, input: &Input) -> Result<String, AllocError> {
    match input {
        Input::Text(text) => steps_asked(alloc, read_request(alloc, text.as_slice())),
        Input::Frame { header, count } => {
            let zeroes = Vec::from_elem(alloc, 0i64, *count as usize)?;
            steps_asked(
                alloc,
                read_frame(alloc, header.as_slice(), zeroes.as_slice()),
            )
        }
    }
}

/// Returns a line for each step of the request that was read.
fn steps_asked(alloc: Global, asked: Result<Request<'_>, Fault>) -> Result<String, AllocError> {
    match asked {
        Ok(request) => steps(alloc, &request),
        Err(Fault::NoMemory) => Err(AllocError),
        Err(_) => Ok(String::new(alloc)),
    }
}

/// Returns a line for each step of a request. The steps after a binding depend on its tensor, so a
/// request with bindings has no lines.
fn steps(alloc: Global, request: &Request<'_>) -> Result<String, AllocError> {
    let mut lines = String::new(alloc);
    if !request.bindings.is_empty() {
        return Ok(lines);
    }
    let plan = Plan::of(alloc, &request.expr, &request.inputs)?;
    for (index, step) in plan.steps().iter().enumerate() {
        lines.push_str(step_line(alloc, index, step)?.as_str())?;
    }
    Ok(lines)
}

/// Returns the line of a step: its number, its dims, and how many values it computes.
fn step_line(alloc: Global, index: usize, step: &Step) -> Result<String, AllocError> {
    let dims = step.dims();
    let number = index.saturating_add(1);
    let values = if dims.size() == 1 { "value" } else { "values" };
    format!(in alloc;
        "step {number}: dims {:?}, {} {values}\n",
        dims.as_slice(),
        dims.size()
    )
}
