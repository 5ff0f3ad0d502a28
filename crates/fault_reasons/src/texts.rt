//! Reasons for the faults TooLong and NotJson, which the whole text or header has. The JSON parser
//! gives the line, the column and the byte of an error.

use expr_reader::{Fault, values_limit};
use serde_json::Value;
use std::alloc::{AllocError, Global};

/// Says why a text is too long or is not JSON.
pub(crate) fn why_text(alloc: Global, fault: Fault, text: &[u8]) -> Result<String, AllocError> {
    match fault {
        Fault::TooLong => format!(in alloc;
            "a text may have at most {} bytes; this one has more",
            expr_reader::MAX_TEXT
        ),
        Fault::NotJson => why_json(alloc, text),
        _ => format!(in alloc; "{fault}"),
    }
}

/// Says why a header is too long, has too many values after it, or is not JSON.
pub(crate) fn why_header(
    alloc: Global,
    fault: Fault,
    header: &[u8],
    count: u64,
) -> Result<String, AllocError> {
    if fault != Fault::TooLong {
        return why_text(alloc, fault, header);
    }
    if header.len() > expr_reader::MAX_TEXT {
        return format!(in alloc;
            "a header may have at most {} bytes; this one has more",
            expr_reader::MAX_TEXT
        );
    }
    let most = match values_limit(alloc, header) {
        Ok(most) => most,
        Err(_) => return Err(AllocError),
    };
    format!(in alloc;
        "at most {most} values may follow this header; the number of values is {count}"
    )
}

/// Says why a text is not JSON, and at which byte.
fn why_json(alloc: Global, text: &[u8]) -> Result<String, AllocError> {
    match str::from_utf8(text) {
        Ok(text) => match Value::from_str(alloc, text) {
            Ok(_) => format!(in alloc; "it is not JSON"),
            Err(error) if error.is_memory() => Err(AllocError),
            Err(error) if error.is_eof() => why_end(alloc, text.as_bytes()),
            Err(error) => {
                let byte = byte_at(text.as_bytes(), error.line(), error.column());
                format!(in alloc; "{error} (byte {byte})")
            }
        },
        Err(error) => format!(in alloc;
            "the bytes from byte {} on are not UTF-8",
            error.valid_up_to()
        ),
    }
}

/// Says that a text ends too early: in which line and column, and after how many bytes.
fn why_end(alloc: Global, text: &[u8]) -> Result<String, AllocError> {
    let mut line = 1usize;
    let mut column = 0usize;
    for byte in text {
        if *byte == b'\n' {
            line = line.saturating_add(1);
            column = 0;
        } else {
            column = column.saturating_add(1);
        }
    }
    format!(in alloc;
        "EOF while parsing at line {line} column {column} (byte {})",
        text.len()
    )
}

/// Returns how many bytes come before a column of a line, both counted from 1.
fn byte_at(text: &[u8], line: usize, column: usize) -> usize {
    let mut lines = 1usize;
    for (index, byte) in text.iter().enumerate() {
        if lines == line {
            return index
                .saturating_add(column.saturating_sub(1))
                .min(text.len());
        }
        if *byte == b'\n' {
            lines = lines.saturating_add(1);
        }
    }
    text.len()
}
