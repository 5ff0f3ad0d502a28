//! The lines about a request without a fault. The line after the first is only tested.

ghost use Rattle.std.specs.Prelude.{IfOk};
ghost use Rattle.fault_reasons.specs.Explained.{TellsOfNone};

use crate::source::Source;
use expr_reader::{Fault, read_part};
use std::alloc::{AllocError, Global};

/// Returns the line `no fault`, and the line of the dims of the result.
pub(crate) fn faultless_lines(alloc: Global, source: Source<'_, '_>) -> Result<Vec<u8>, AllocError>
    ensures { IfOk result (λ lines. TellsOfNone lines.items) }
{
    let mut lines = Vec::from_slice(alloc, b"no fault\n")?;
    let dims = dims_line(alloc, source)?;
    lines.extend_from_slice(dims.as_bytes())?;
    Ok(lines)
}

/// Returns the line of the dims. It is empty if the value has a fault after all.
fn dims_line(alloc: Global, source: Source<'_, '_>) -> Result<String, AllocError> {
    let Some(expr) = source.root().get("expr") else {
        return Ok(String::new(alloc));
    };
    match read_part(alloc, source.parsed, source.values, expr) {
        Ok(request) => format!(in alloc; "dims {:?}\n", request.dims.as_slice()),
        Err(Fault::NoMemory) => Err(AllocError),
        Err(_) => Ok(String::new(alloc)),
    }
}
