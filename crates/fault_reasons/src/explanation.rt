//! The entry points of the crate: they explain a request text or a frame by its fault, the place of
//! the fault and a reason, or by its dims. `specs/Explained` says what the lines are.

ghost use Rattle.std.specs.Prelude.{◌≡◌, ◌⊎◌, ◌++◌, None, Some, IfOk, MatchOption, Result, Err};
ghost use Rattle.std.specs.Prelude.{replicate, pos};
ghost use Rattle.std.specs.Cow.{cow_slice_items};
ghost use Rattle.serde_json.specs.View.{view};
ghost use Rattle.expr_reader.specs.Frame.{frame_at};
ghost use Rattle.expr_reader.specs.Located.{located_under};
ghost use Rattle.expr_reader.specs.Place.{Located, here};
ghost use Rattle.expr_reader.specs.Request.{Asked, request_at};
ghost use Rattle.expr_reader.specs.Valued.{asked_from};
ghost use Rattle.fault_reasons.specs.Explained.{Tells, IsExplained, fault_line};

use crate::faultless::faultless_lines;
use crate::lines::{WHOLE, fault_lines, one_line, place_text};
use crate::reasons::why;
use crate::source::Source;
use crate::texts::{why_header, why_text};
use expr_reader::{Fault, Values, locate, parse_header, parse_request};
use std::alloc::{AllocError, Global};
use std::borrow::CowSlice;

/// The line for an allocation that failed. It is constant, so nothing is allocated for it.
const NO_MEMORY: &[u8] = b"error 15 NoMemory\n";

/// What is printed about a text or a frame, and its fault if it has one.
#[derive(Drop)]
pub struct Explanation {
    /// The first fault of the text or frame, or [`Fault::NoMemory`] if the explanation itself ran
    /// out of memory.
    pub fault: Option<Fault>,
    /// The lines to print, each with its line feed.
    pub lines: CowSlice<'static, u8, Global>,
}

/// An explanation whose lines were allocated.
#[derive(Drop)]
struct Told {
    fault: Option<Fault>,
    lines: Vec<u8>,
}

/// Explains a request text. If it has a fault, the lines are `error NUMBER NAME` and `at PLACE:
/// REASON`. Otherwise they are `no fault` and the dims of the result. If an allocation fails, the
/// only line is `error 15 NoMemory`.
pub fn explain(alloc: Global, text: &[u8]) -> Explanation
    ensures { IsExplained (request_at text.now) result }
{
    or_no_memory(explain_text(alloc, text))
}

/// Explains a frame of this header and `count` values after it, in the lines in which [`explain`]
/// explains a text. A fault does not depend on the values, so they are not given, and no memory is
/// taken for them.
pub fn explain_frame(alloc: Global, header: &[u8], count: u64) -> Explanation
    ensures { IsExplained (frame_at header.now (replicate count (pos 0))) result }
{
    or_no_memory(explain_header(alloc, header, count))
}

/// Returns an explanation that was allocated, or the one of an allocation that failed.
fn or_no_memory(told: Result<Told, AllocError>) -> Explanation
    ensures { (found : Result Asked Located)
        → IfOk told (λ told. Tells found told.fault told.lines.items)
        → IsExplained found result }
{
    match told {
        Ok(told) => Explanation {
            fault: told.fault,
            lines: CowSlice::Owned(told.lines),
        },
        Err(_) => no_memory(),
    }
}

/// Returns the explanation of an allocation that failed. It allocates nothing.
pub fn no_memory() -> Explanation
    ensures fault { result.fault ≡ Some Fault.NoMemory }
    ensures lines { cow_slice_items result.lines ≡ fault_line Fault.NoMemory }
{
    Explanation {
        fault: Some(Fault::NoMemory),
        lines: CowSlice::Borrowed(NO_MEMORY),
    }
}

/// Explains a text; fails if an allocation fails.
#[tactic(auto, using(crate::proofs::Faults::request_at_unread))]
fn explain_text(alloc: Global, text: &[u8]) -> Result<Told, AllocError>
    ensures { IfOk result (λ told. Tells (request_at text.now) told.fault told.lines.items) }
{
    match parse_request(alloc, text) {
        Ok(parsed) => {
            let source = Source {
                parsed: &parsed,
                values: Values::InText,
            };
            explain_parsed(alloc, source)
        }
        Err(fault) => {
            if fault == Fault::NoMemory {
                return Err(AllocError);
            }
            let reason = why_text(alloc, fault, text)?;
            explain_whole(alloc, fault, reason.as_str())
        }
    }
}

/// Explains a header with this number of values; fails if an allocation fails.
#[tactic(auto, using(crate::proofs::Faults::frame_at_read, crate::proofs::Faults::frame_at_refused))]
fn explain_header(alloc: Global, header: &[u8], count: u64) -> Result<Told, AllocError>
    ensures { IfOk result (λ told.
        Tells (frame_at header.now (replicate count (pos 0))) told.fault told.lines.items) }
{
    match parse_header(alloc, header, count as usize) {
        Ok(parsed) => {
            let source = Source {
                parsed: &parsed,
                values: Values::Unread(count as usize),
            };
            explain_parsed(alloc, source)
        }
        Err(fault) => {
            if fault == Fault::NoMemory {
                return Err(AllocError);
            }
            let reason = why_header(alloc, fault, header, count)?;
            explain_whole(alloc, fault, reason.as_str())
        }
    }
}

/// Explains a fault of the whole text or header; fails if an allocation fails.
fn explain_whole(alloc: Global, fault: Fault, reason: &str) -> Result<Told, AllocError>
    ensures { (found : Result Asked Located) → found ≡ Err (here fault)
        → IfOk result (λ told. Tells found told.fault told.lines.items) }
{
    let reason = one_line(alloc, reason)?;
    let lines = fault_lines(alloc, fault, WHOLE, reason.as_slice())?;
    Ok(Told {
        fault: Some(fault),
        lines,
    })
}

/// Explains the JSON value of a text or a header; fails if an allocation fails.
fn explain_parsed(alloc: Global, source: Source<'_, '_>) -> Result<Told, AllocError>
    ensures { IfOk result (λ told.
        Tells (asked_from source.entry.values (view source.entry.parsed.now.value)) told.fault
        told.lines.items) }
{
    let Some(located) = locate(alloc, source.parsed, source.values) else {
        return Ok(Told {
            fault: None,
            lines: faultless_lines(alloc, source)?,
        });
    };
    if located.fault == Fault::NoMemory {
        return Err(AllocError);
    }
    let place = place_text(alloc, &located.place)?;
    let reason = one_line(alloc, why(alloc, source, &located)?.as_str())?;
    let lines = fault_lines(alloc, located.fault, place.as_slice(), reason.as_slice())?;
    Ok(Told {
        fault: Some(located.fault),
        lines,
    })
}
