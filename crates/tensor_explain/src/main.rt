//! The program that explains the request or the frame on standard input: its fault, the place and
//! the reason, with status 1, or its plan, with status 0. `fault_reasons` defines what it prints,
//! except the steps of the plan. The statuses and the lines on standard error are as in
//! `tensor_run`. It ignores arguments.
#![tactic(auto)]

mod input;
mod steps;

use crate::input::{Input, Unread, read_input};
use crate::steps::steps_of;
use fault_reasons::{Explanation, explain, explain_frame, no_memory};
use std::io;
use std::io::Write;
use std::process::ExitCode;
use tensor_runner::{StreamFault, ending_of};

/// What is printed: an explanation, and a line for each step.
#[derive(Drop)]
struct Told {
    explanation: Explanation,
    steps: String,
}

/// Explains a request. If an allocation fails, the explanation says only this.
fn explained(rt: &HostRuntime, input: &Input) -> Told {
    let alloc = rt.alloc();
    let explanation = match input {
        Input::Text(text) => explain(alloc, text.as_slice()),
        Input::Frame { header, count } => explain_frame(alloc, header.as_slice(), *count),
    };
    let steps = match explanation.fault {
        Some(_) => Ok(String::new(alloc)),
        None => steps_of(alloc, input),
    };
    match steps {
        Ok(steps) => Told { explanation, steps },
        Err(_) => only(rt, no_memory()),
    }
}

/// Returns an explanation without steps.
fn only(rt: &HostRuntime, explanation: Explanation) -> Told {
    let steps = String::new(rt.alloc());
    Told { explanation, steps }
}

/// Writes an explanation of standard input to standard output, and returns the exit status.
fn explain_input(rt: &HostRuntime) -> Result<u8, StreamFault> {
    let told = match read_input(rt) {
        Ok(input) => explained(rt, &input),
        Err(Unread::NoMemory) => only(rt, no_memory()),
        Err(Unread::Stream(fault)) => return Err(fault),
    };
    for lines in [told.explanation.lines.as_slice(), told.steps.as_bytes()] {
        if rt.stdout().write_all(lines).is_err() {
            return Err(StreamFault::WriteFault);
        }
    }
    Ok(u8::from(told.explanation.fault.is_some()))
}

fn main(rt: HostRuntime) -> io::Result<ExitCode> {
    match explain_input(&rt) {
        Ok(status) => Ok(ExitCode::from(status)),
        Err(fault) => {
            let ending = ending_of(Err(fault));
            if let Some(complaint) = ending.complaint {
                eprint!(rt; "{complaint}")?;
            }
            Ok(ExitCode::from(ending.status))
        }
    }
}
