//! The line that answers a text, built in memory before it is written. `run` and the servers of
//! lines share it, so a change here touches all of them; specs/Line.antt says what a line has.

ghost use Rattle.std.specs.Prelude.{◌≡◌, ℕ, List, Some, None, MatchResult};
ghost use Rattle.std.specs.Cow.{cow_slice_items};
ghost use Rattle.tensor_runner.specs.Answer.{fault_line};
ghost use Rattle.tensor_runner.specs.private.Kept.{IsKept};
ghost use Rattle.tensor_runner.specs.Limited.{limit_line};
ghost use Rattle.tensor_runner.specs.Line.{entry_of, IsLineFrom, IsLineUnder, IsFaultOf, IsRefusal};
ghost use Rattle.tensor_runner.specs.Line.{IsTensorLine};

use crate::allowance::Allowance;
use crate::evaluation::eval_until;
use crate::journal::{AnyFault, Entry};
use crate::kept::KeptText;
use crate::limits::LimitFault;
use crate::status::{RunFault, Status};
use crate::text::push_tensor;
use expr_reader::{Fault, MAX_TEXT, Tensor, read_request};
use std::alloc::Global;
use std::borrow::CowSlice;
use std::sync::Wait;
use std::thread::Threads;
use std::time::Clock;

/// The line if an allocation fails. Like the other constant lines, it needs no allocation itself.
const NO_MEMORY: &[u8] = b"error 15 NoMemory\n";

/// The line for a text that is too long.
const TOO_LONG: &[u8] = b"error 1 TooLong\n";

/// The line for a request that asks for too many workers.
const TOO_MANY_WORKERS: &[u8] = b"error 19 TooManyWorkers\n";

/// The line for a request that takes too many steps.
const TOO_MANY_STEPS: &[u8] = b"error 20 TooManySteps\n";

/// The line for a request that takes too many seconds.
const TOO_MANY_SECONDS: &[u8] = b"error 21 TooManySeconds\n";

/// The line that answers a text, and what it says.
#[derive(Drop)]
pub(crate) struct Line {
    /// The bytes of the line, with its line feed.
    pub(crate) bytes: CowSlice<'static, u8, Global>,
    /// Whether the line has a tensor or a fault.
    pub(crate) status: Status,
    /// The fault that the line says, or `None` if the line has a tensor.
    pub(crate) fault: Option<AnyFault>,
    /// The steps of the request that the line answers, if they are known.
    pub(crate) steps: Option<u128>,
}

/// Returns the journal's note on a text of `bytes` bytes that this line answers.
pub(crate) fn entry_of(bytes: usize, line: &Line) -> Entry
    ensures { result ≡ entry_of bytes line.now }
{
    Entry {
        bytes: bytes as u128,
        answered: line.bytes.as_slice().len() as u128,
        fault: line.fault,
        steps: line.steps,
    }
}

/// Returns the line that answers a text, by what is allowed to it, given what is kept of the text. A
/// text that is longer than the limit of bytes isn't read.
pub(crate) fn answer<RT: Threads + Wait + Sync, K: Clock>(
    rt: &RT,
    alloc: Global,
    allowance: &Allowance<'_, K>,
    kept: KeptText,
) -> Line
    ensures { (text : List ℕ) → IsKept text kept
        → IsLineFrom allowance.now.limits allowance.now.logs text result }
{
    if allowance.limits.is_too_long(kept.len() as u128) {
        return too_long();
    }
    answer_kept(rt, alloc, allowance, kept)
}

/// Returns the line that answers a text of no more bytes than are allowed.
fn answer_kept<RT: Threads + Wait + Sync, K: Clock>(
    rt: &RT,
    alloc: Global,
    allowance: &Allowance<'_, K>,
    kept: KeptText,
) -> Line
    ensures { (text : List ℕ) → IsKept text kept
        → IsLineUnder allowance.now.limits allowance.now.logs text result }
{
    match kept {
        KeptText::Text(text) => answer_text(rt, alloc, allowance, text),
        KeptText::Counted(count) if count > MAX_TEXT => too_long(),
        KeptText::Counted(_) => no_memory(None),
    }
}

/// Returns the line that answers a text, by what is allowed to it. The line of a tensor reuses the
/// memory of the text.
fn answer_text<RT: Threads + Wait + Sync, K: Clock>(
    rt: &RT,
    alloc: Global,
    allowance: &Allowance<'_, K>,
    text: Vec<u8>,
) -> Line
    ensures { IsLineUnder allowance.now.limits allowance.now.logs text.items result }
{
    match line_of(rt, alloc, allowance, text) {
        Ok(line) => line,
        Err(fault) => refusal(alloc, fault),
    }
}

/// Returns the line of the text's tensor, or the line of the limit that its request is over, or the
/// line `error 15 NoMemory` if the evaluation runs out of memory. A fault of the text is returned
/// as an error.
fn line_of<RT: Threads + Wait + Sync, K: Clock>(
    rt: &RT,
    alloc: Global,
    allowance: &Allowance<'_, K>,
    text: Vec<u8>,
) -> Result<Line, Fault>
    ensures { MatchResult result (IsLineUnder allowance.now.limits allowance.now.logs text.items)
        (IsFaultOf text.items) }
{
    match read_request(alloc, text.as_slice()) {
        Ok(request) => {
            let steps = allowance.steps_of(&request);
            match allowance.over_limits(&request, steps) {
                Some(fault) => Ok(limit_line(fault, steps)),
                None => match eval_until(rt, alloc, &request, allowance) {
                    Ok(Some(tensor)) => Ok(tensor_line(alloc, &tensor, text, steps)),
                    Ok(None) => Ok(too_many_seconds(steps)),
                    Err(RunFault::NoMemory) => Ok(no_memory(steps)),
                },
            }
        }
        Err(fault) => Err(fault),
    }
}

/// Returns the line of the limit that a request is over, with its steps if they are known. It needs
/// no allocation.
fn limit_line(fault: LimitFault, steps: Option<u128>) -> Line
    ensures bytes { cow_slice_items result.bytes ≡ limit_line fault }
    ensures fault { result.fault ≡ Some (AnyFault.Limit fault) }
    ensures steps { result.steps ≡ steps }
{
    match fault {
        LimitFault::TooManyWorkers => too_many_workers(steps),
        LimitFault::TooManySteps => too_many_steps(steps),
        LimitFault::TooManySeconds => too_many_seconds(steps),
    }
}

/// Returns the line for a request that asks for too many workers.
fn too_many_workers(steps: Option<u128>) -> Line
    ensures bytes { cow_slice_items result.bytes ≡ limit_line LimitFault.TooManyWorkers }
    ensures fault { result.fault ≡ Some (AnyFault.Limit LimitFault.TooManyWorkers) }
    ensures steps { result.steps ≡ steps }
{
    Line {
        bytes: CowSlice::Borrowed(TOO_MANY_WORKERS),
        status: Status::Fault,
        fault: Some(AnyFault::Limit(LimitFault::TooManyWorkers)),
        steps,
    }
}

/// Returns the line for a request that takes too many steps.
fn too_many_steps(steps: Option<u128>) -> Line
    ensures bytes { cow_slice_items result.bytes ≡ limit_line LimitFault.TooManySteps }
    ensures fault { result.fault ≡ Some (AnyFault.Limit LimitFault.TooManySteps) }
    ensures steps { result.steps ≡ steps }
{
    Line {
        bytes: CowSlice::Borrowed(TOO_MANY_STEPS),
        status: Status::Fault,
        fault: Some(AnyFault::Limit(LimitFault::TooManySteps)),
        steps,
    }
}

/// Returns the line for a request that takes too many seconds.
fn too_many_seconds(steps: Option<u128>) -> Line
    ensures bytes { cow_slice_items result.bytes ≡ limit_line LimitFault.TooManySeconds }
    ensures fault { result.fault ≡ Some (AnyFault.Limit LimitFault.TooManySeconds) }
    ensures steps { result.steps ≡ steps }
{
    Line {
        bytes: CowSlice::Borrowed(TOO_MANY_SECONDS),
        status: Status::Fault,
        fault: Some(AnyFault::Limit(LimitFault::TooManySeconds)),
        steps,
    }
}

/// Returns the line `error 15 NoMemory`, with the steps of its request if they are known. It needs no
/// allocation.
fn no_memory(steps: Option<u128>) -> Line
    ensures bytes { cow_slice_items result.bytes ≡ fault_line Fault.NoMemory }
    ensures status { result.status ≡ Status.Fault }
    ensures fault { result.fault ≡ Some (AnyFault.Request Fault.NoMemory) }
    ensures steps { result.steps ≡ steps }
{
    Line {
        bytes: CowSlice::Borrowed(NO_MEMORY),
        status: Status::Fault,
        fault: Some(AnyFault::Request(Fault::NoMemory)),
        steps,
    }
}

/// Returns the line for a text that is too long. It needs no allocation.
fn too_long() -> Line
    ensures bytes { cow_slice_items result.bytes ≡ fault_line Fault.TooLong }
    ensures status { result.status ≡ Status.Fault }
    ensures fault { result.fault ≡ Some (AnyFault.Request Fault.TooLong) }
    ensures steps { result.steps ≡ None }
{
    Line {
        bytes: CowSlice::Borrowed(TOO_LONG),
        status: Status::Fault,
        fault: Some(AnyFault::Request(Fault::TooLong)),
        steps: None,
    }
}

/// Returns the line of a tensor, with the steps of its request if they are known, or the line
/// `error 15 NoMemory`. It reuses the memory of the request's text, which isn't needed any more.
fn tensor_line(alloc: Global, tensor: &Tensor, text: Vec<u8>, steps: Option<u128>) -> Line
    ensures line { IsTensorLine tensor.now result }
    ensures steps { result.steps ≡ steps }
{
    let mut line = text;
    line.clear();
    match push_tensor(alloc, tensor, &mut line) {
        Ok(()) => Line {
            bytes: CowSlice::Owned(line),
            status: Status::Tensor,
            fault: None,
            steps,
        },
        Err(_) => no_memory(steps),
    }
}

/// Returns the line of a fault of a text, or the line `error 15 NoMemory` if an allocation fails.
/// The line for a text that is too long needs no allocation.
fn refusal(alloc: Global, fault: Fault) -> Line
    ensures fault { IsRefusal fault result }
    ensures status { result.status ≡ Status.Fault }
    ensures steps { result.steps ≡ None }
{
    if fault == Fault::TooLong {
        return too_long();
    }
    match format!(in alloc; "error {} {}\n", fault.number(), fault.name()) {
        Ok(line) => Line {
            bytes: CowSlice::Owned(line.into_bytes()),
            status: Status::Fault,
            fault: Some(AnyFault::Request(fault)),
            steps: None,
        },
        Err(_) => no_memory(None),
    }
}
