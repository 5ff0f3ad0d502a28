//! Answers one request of standard input by the plain evaluation of its expression, on one thread.
//! Prints the tensor with status 0, or the fault with status 1. tests/test_refusals.py refuses each
//! of its allocations in turn, to test the evaluation without plans and pools.
#![tactic(auto)]

use expr_reader::{Fault, read_request};
use std::alloc::Global;
use std::io;
use std::io::Read;
use std::process::ExitCode;
use tensor_ops::{Tensor, eval_plain};

/// Returns the tensor of a request text. The request's workers and block size are not used.
fn tensor_of(alloc: Global, text: &[u8]) -> Result<Tensor<'static>, Fault> {
    let request = read_request(alloc, text)?;
    match eval_plain(alloc, &request.expr, &request.inputs) {
        Ok(tensor) => Ok(tensor),
        Err(_) => Err(Fault::NoMemory),
    }
}

fn main(rt: HostRuntime) -> io::Result<ExitCode> {
    let alloc = rt.alloc();
    let mut text = Vec::new(alloc);
    let answer = match rt.stdin().read_to_end(&mut text) {
        Ok(_) => tensor_of(alloc, text.as_slice()),
        Err(_) => Err(Fault::NoMemory),
    };
    match answer {
        Ok(tensor) => {
            let (values, dims) = (tensor.values(), tensor.dims().as_slice());
            println!(rt; "{{\"data\":{values:?},\"dims\":{dims:?}}}")?;
            Ok(ExitCode::from(0))
        }
        Err(fault) => {
            println!(rt; "error {} {}", fault.number(), fault.name())?;
            Ok(ExitCode::from(1))
        }
    }
}
