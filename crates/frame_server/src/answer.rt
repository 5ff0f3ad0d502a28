//! The frame that answers a frame, built in memory before it is written. A change of its bytes
//! touches specs/Answer.antt, docs/FRAMES.md and the Python client.

ghost use Rattle.std.specs.Prelude.{◌≡◌, ◌⊎◌, ℕ, List, Ok, Err, Some, None, length, IfOk};
ghost use Rattle.std.specs.Prelude.{◌++◌, ◌≤◌, MatchResult};
ghost use Rattle.std.specs.List.{flat_map};
ghost use Rattle.expr_reader.specs.Asked.{asked_under};
ghost use Rattle.expr_reader.specs.Frame.{request_of_frame};
ghost use Rattle.frame_server.specs.Answer.{answer_bytes, dims_text, fault_text, IsShort};
ghost use Rattle.frame_server.specs.private.Answering.{front_bytes, bytes_in, entry_of, IsOwnFrame, IsFaultOf};
ghost use Rattle.frame_server.specs.private.Answering.{IsFrameFrom, IsFrameUnder, IsTensorFrame, IsFaultFrame};
ghost use Rattle.frame_server.specs.private.Answering.{IsRefusal};
ghost use Rattle.frame_server.specs.Frame.{IsWhole, frame_in, header_len, value_count, value_bytes};
ghost use Rattle.frame_server.specs.Limited.{limit_frame};
ghost use Rattle.frame_server.specs.private.Taking.{IsKept, frame_under};
ghost use Rattle.tensor_runner.specs.Limited.{over_limits, steps_if};
ghost use Rattle.tensor_runner.specs.Answer.{fault};

use crate::frame::{AnswerFrame, NextFrame, WholeFrame};
use crate::writing::VALUES_AT_ONCE;
use expr_reader::{Fault, Request, Tensor, read_frame};
use std::alloc::{AllocError, Global};
use std::borrow::CowSlice;
use std::sync::Wait;
use std::thread::Threads;
use std::time::Clock;
use tensor_runner::{Allowance, AnyFault, Entry, LimitFault, RunFault, eval_until, unsigned_text};

/// The frame if an allocation fails: the sizes 17 and 0, and a header of 17 bytes. Like the other
/// constant frames, it needs no allocation itself.
const NO_MEMORY: &[u8] = b"\x11\0\0\0\0\0\0\0\0\0\0\0\0\0\0\0error 15 NoMemory";

/// The frame for a frame that is too long: the sizes 15 and 0, and a header of 15 bytes.
const TOO_LONG: &[u8] = b"\x0f\0\0\0\0\0\0\0\0\0\0\0\0\0\0\0error 1 TooLong";

/// The frame for a request that asks for too many workers, with a header of 23 bytes.
const TOO_MANY_WORKERS: &[u8] = b"\x17\0\0\0\0\0\0\0\0\0\0\0\0\0\0\0error 19 TooManyWorkers";

/// The frame for a request that takes too many steps, with a header of 21 bytes.
const TOO_MANY_STEPS: &[u8] = b"\x15\0\0\0\0\0\0\0\0\0\0\0\0\0\0\0error 20 TooManySteps";

/// The frame for a request that takes too many seconds, with a header of 23 bytes.
const TOO_MANY_SECONDS: &[u8] = b"\x17\0\0\0\0\0\0\0\0\0\0\0\0\0\0\0error 21 TooManySeconds";

/// Returns the journal's note on a frame of `bytes` bytes that this frame answers.
pub(crate) fn entry_of(bytes: u128, frame: &AnswerFrame) -> Entry
    ensures { result ≡ entry_of bytes frame.now }
{
    Entry {
        bytes,
        answered: frame.len(),
        fault: frame.fault,
        steps: frame.steps,
    }
}

/// Returns the frame that answers a frame, by what is allowed to it. A frame that is longer than the
/// limit of bytes isn't read.
pub(crate) fn answer<RT: Threads + Wait + Sync, K: Clock>(
    rt: &RT,
    alloc: Global,
    allowance: &Allowance<'_, K>,
    next: NextFrame,
) -> AnswerFrame
    ensures { (bytes : List ℕ) → IsWhole bytes → IsKept bytes next
        → IsFrameFrom allowance.now.limits allowance.now.logs bytes result }
{
    if allowance.limits.is_too_long(next.len()) {
        return too_long();
    }
    answer_kept(rt, alloc, allowance, next)
}

/// Returns the frame that answers a frame of no more bytes than are allowed.
fn answer_kept<RT: Threads + Wait + Sync, K: Clock>(
    rt: &RT,
    alloc: Global,
    allowance: &Allowance<'_, K>,
    next: NextFrame,
) -> AnswerFrame
    ensures { (bytes : List ℕ) → IsWhole bytes → IsKept bytes next
        → IsFrameUnder allowance.now.limits allowance.now.logs bytes result }
{
    match answered(rt, alloc, allowance, next) {
        Ok(frame) => frame,
        Err(fault) => refusal(alloc, fault),
    }
}

/// Returns the frame of the request's tensor, or of the limit that the request is over, or of
/// `NoMemory` if the evaluation runs out of memory. A fault of the request's frame is returned as
/// an error.
fn answered<RT: Threads + Wait + Sync, K: Clock>(
    rt: &RT,
    alloc: Global,
    allowance: &Allowance<'_, K>,
    next: NextFrame,
) -> Result<AnswerFrame, Fault>
    ensures { (bytes : List ℕ) → IsWhole bytes → IsKept bytes next
        → MatchResult result (IsFrameUnder allowance.now.limits allowance.now.logs bytes)
        (IsFaultOf bytes) }
{
    match next {
        NextFrame::Whole(frame) => answered_whole(rt, alloc, allowance, frame),
        NextFrame::Passed(fault, _) => Err(fault),
    }
}

/// Returns the answer to a frame that was kept, as `answered` does.
fn answered_whole<RT: Threads + Wait + Sync, K: Clock>(
    rt: &RT,
    alloc: Global,
    allowance: &Allowance<'_, K>,
    frame: WholeFrame,
) -> Result<AnswerFrame, Fault>
    ensures { (bytes : List ℕ) → frame_under frame ≡ frame_in bytes
        → IsShort (header_len bytes) (value_count bytes)
        → MatchResult result (IsFrameUnder allowance.now.limits allowance.now.logs bytes)
        (IsFaultOf bytes) }
{
    match requested(alloc, &frame) {
        Ok(request) => Ok(own_frame(rt, alloc, allowance, &request)),
        Err(fault) => Err(fault),
    }
}

/// Returns the frame of the tensor that a request asks for, or of the limit that it is over, or of
/// `NoMemory`.
fn own_frame<RT: Threads + Wait + Sync, K: Clock>(
    rt: &RT,
    alloc: Global,
    allowance: &Allowance<'_, K>,
    request: &Request<'_>,
) -> AnswerFrame
    ensures frame { IsOwnFrame (over_limits allowance.now.limits (asked_under request.now))
        allowance.now.limits.seconds (asked_under request.now) result }
    ensures steps { result.steps
        ≡ steps_if allowance.now.limits allowance.now.logs (asked_under request.now) }
{
    let steps = allowance.steps_of(request);
    match allowance.over_limits(request, steps) {
        Some(fault) => limit_frame(fault, steps),
        None => match eval_until(rt, alloc, request, allowance) {
            Ok(Some(tensor)) => tensor_frame(alloc, tensor, steps),
            Ok(None) => too_many_seconds(steps),
            Err(RunFault::NoMemory) => no_memory(steps),
        },
    }
}

/// Returns the frame of the limit that a request is over, with its steps if they are known. It needs
/// no allocation.
fn limit_frame(fault: LimitFault, steps: Option<u128>) -> AnswerFrame
    ensures bytes { bytes_in result ≡ limit_frame fault }
    ensures fault { result.fault ≡ Some (AnyFault.Limit fault) }
    ensures steps { result.steps ≡ steps }
{
    match fault {
        LimitFault::TooManyWorkers => too_many_workers(steps),
        LimitFault::TooManySteps => too_many_steps(steps),
        LimitFault::TooManySeconds => too_many_seconds(steps),
    }
}

/// Returns the frame for a request that asks for too many workers.
fn too_many_workers(steps: Option<u128>) -> AnswerFrame
    ensures bytes { bytes_in result ≡ limit_frame LimitFault.TooManyWorkers }
    ensures fault { result.fault ≡ Some (AnyFault.Limit LimitFault.TooManyWorkers) }
    ensures steps { result.steps ≡ steps }
{
    AnswerFrame {
        front: CowSlice::Borrowed(TOO_MANY_WORKERS),
        tensor: None,
        fault: Some(AnyFault::Limit(LimitFault::TooManyWorkers)),
        steps,
    }
}

/// Returns the frame for a request that takes too many steps.
fn too_many_steps(steps: Option<u128>) -> AnswerFrame
    ensures bytes { bytes_in result ≡ limit_frame LimitFault.TooManySteps }
    ensures fault { result.fault ≡ Some (AnyFault.Limit LimitFault.TooManySteps) }
    ensures steps { result.steps ≡ steps }
{
    AnswerFrame {
        front: CowSlice::Borrowed(TOO_MANY_STEPS),
        tensor: None,
        fault: Some(AnyFault::Limit(LimitFault::TooManySteps)),
        steps,
    }
}

/// Returns the frame for a request that takes too many seconds.
fn too_many_seconds(steps: Option<u128>) -> AnswerFrame
    ensures bytes { bytes_in result ≡ limit_frame LimitFault.TooManySeconds }
    ensures fault { result.fault ≡ Some (AnyFault.Limit LimitFault.TooManySeconds) }
    ensures steps { result.steps ≡ steps }
{
    AnswerFrame {
        front: CowSlice::Borrowed(TOO_MANY_SECONDS),
        tensor: None,
        fault: Some(AnyFault::Limit(LimitFault::TooManySeconds)),
        steps,
    }
}

/// Returns the frame of a tensor, with the steps of its request if they are known, or the frame of
/// `NoMemory`.
fn tensor_frame(alloc: Global, tensor: Tensor<'static>, steps: Option<u128>) -> AnswerFrame
    ensures frame { IsTensorFrame tensor.entry result }
    ensures steps { result.steps ≡ steps }
{
    match front_of(alloc, &tensor) {
        Ok(front) => value_frame(front, tensor, steps),
        Err(_) => no_memory(steps),
    }
}

/// Returns the frame of a tensor with this front, or the frame of `NoMemory`. Few values are joined
/// to the front and so written with it: over a network, a second write would wait until the other
/// side has acknowledged the first.
fn value_frame(front: Vec<u8>, tensor: Tensor<'static>, steps: Option<u128>) -> AnswerFrame
    ensures bytes { ((bytes_in result ≡ front.items ++ flat_map value_bytes tensor.entry.values)
        × (result.fault ≡ None)) ⊎ IsFaultFrame Fault.NoMemory result }
    ensures steps { result.steps ≡ steps }
{
    let count = tensor.values().len();
    if count > VALUES_AT_ONCE {
        return AnswerFrame {
            front: CowSlice::Owned(front),
            tensor: Some(tensor),
            fault: None,
            steps,
        };
    }
    match joined(front, tensor.values()) {
        Ok(bytes) => AnswerFrame {
            front: CowSlice::Owned(bytes),
            tensor: None,
            fault: None,
            steps,
        },
        Err(_) => no_memory(steps),
    }
}

/// Returns the bytes of a front and then of values, at most [`VALUES_AT_ONCE`].
fn joined(front: Vec<u8>, values: &[i64]) -> Result<Vec<u8>, AllocError>
    requires { length values.now ≤ 8192 }
    ensures { IfOk result (λ bytes. bytes.items ≡ front.items ++ flat_map value_bytes values.now) }
{
    let mut bytes = front;
    bytes.reserve(8 * values.len())?;
    for k in 0..values.len() {
        bytes.extend_from_slice(&values[k].to_le_bytes())?;
    }
    Ok(bytes)
}

/// Returns the request of a frame. Its tensors borrow the frame's values.
fn requested(alloc: Global, frame: &WholeFrame) -> Result<Request<'_>, Fault>
    ensures { MatchResult result (λ request.
        request_of_frame frame.now.header.items frame.now.values.items ≡ Ok (asked_under request))
        (λ fault. (fault ≡ Fault.NoMemory)
        ⊎ (request_of_frame frame.now.header.items frame.now.values.items ≡ Err fault)) }
{
    read_frame(alloc, frame.header.as_slice(), frame.values.as_slice())
}

/// Returns the bytes of a tensor's frame before its values.
fn front_of(alloc: Global, tensor: &Tensor) -> Result<Vec<u8>, AllocError>
    ensures { IfOk result (λ front. front.items
        ≡ front_bytes (dims_text tensor.now.dims) (length tensor.now.values)) }
{
    let mut header = Vec::from_slice(alloc, b"{\"dims\":")?;
    header.extend_from_slice(&unsigned_text(alloc, tensor.dims().as_slice())?)?;
    header.extend_from_slice(b"}")?;
    front_with(alloc, &header, tensor.values().len())
}

/// Returns the bytes of a frame before its `value_count` values: the two sizes and the header.
fn front_with(alloc: Global, header: &[u8], value_count: usize) -> Result<Vec<u8>, AllocError>
    ensures { IfOk result (λ front. front.items ≡ front_bytes header.now value_count) }
{
    let mut front = Vec::from_slice(alloc, &(header.len() as u64).to_le_bytes())?;
    front.extend_from_slice(&(value_count as u64).to_le_bytes())?;
    front.extend_from_slice(header)?;
    Ok(front)
}

/// Returns the frame of a fault of a request, or the frame of `NoMemory` if an allocation fails.
/// The frame for a frame that is too long needs no allocation.
fn refusal(alloc: Global, fault: Fault) -> AnswerFrame
    ensures fault { IsRefusal fault result }
    ensures steps { result.steps ≡ None }
{
    if fault == Fault::TooLong {
        return too_long();
    }
    match refusal_front(alloc, fault) {
        Ok(front) => AnswerFrame {
            front: CowSlice::Owned(front),
            tensor: None,
            fault: Some(AnyFault::Request(fault)),
            steps: None,
        },
        Err(_) => no_memory(None),
    }
}

/// Returns the frame of `NoMemory`, with the steps of its request if they are known. It needs no
/// allocation.
fn no_memory(steps: Option<u128>) -> AnswerFrame
    ensures bytes { bytes_in result ≡ answer_bytes (fault Fault.NoMemory) }
    ensures fault { result.fault ≡ Some (AnyFault.Request Fault.NoMemory) }
    ensures steps { result.steps ≡ steps }
{
    AnswerFrame {
        front: CowSlice::Borrowed(NO_MEMORY),
        tensor: None,
        fault: Some(AnyFault::Request(Fault::NoMemory)),
        steps,
    }
}

/// Returns the frame for a frame that is too long. It needs no allocation.
fn too_long() -> AnswerFrame
    ensures bytes { bytes_in result ≡ answer_bytes (fault Fault.TooLong) }
    ensures fault { result.fault ≡ Some (AnyFault.Request Fault.TooLong) }
    ensures steps { result.steps ≡ None }
{
    AnswerFrame {
        front: CowSlice::Borrowed(TOO_LONG),
        tensor: None,
        fault: Some(AnyFault::Request(Fault::TooLong)),
        steps: None,
    }
}

/// Returns the bytes of the frame of a fault. It has no values.
fn refusal_front(alloc: Global, fault: Fault) -> Result<Vec<u8>, AllocError>
    ensures { IfOk result (λ front. front.items ≡ front_bytes (fault_text fault) 0) }
{
    let header = format!(in alloc; "error {} {}", fault.number(), fault.name())?;
    front_with(alloc, header.as_bytes(), 0)
}
