//! Tests the entries that a journal gets of lines.

use crate::lines_noted;
use expr_reader::Fault;
use std::test::Fail;
use tensor_runner::{AnyFault, Entry};

/// A request of 97 bytes, and then a line that is no request.
const LINES: &[u8] = b"{\"version\":1,\"workers\":1,\"block\":1,\
    \"inputs\":{\"a\":{\"dims\":[3],\"data\":[1,2,3]}},\"expr\":[\"neg\",\"a\"]}\n[]\n";

/// The entries on the answers to [`LINES`].
const ENTRIES: &[Entry] = &[
    Entry {
        bytes: 97,
        answered: 31,
        fault: None,
        steps: Some(3),
    },
    Entry {
        bytes: 2,
        answered: 17,
        fault: Some(AnyFault::Request(Fault::BadField)),
        steps: None,
    },
];

#[test]
fn entries_of_lines(rt: HostRuntime) -> Result<(), Fail> {
    let (answers, journal, ended) = lines_noted(&rt, rt.alloc(), LINES.to_vec(rt.alloc())?);
    assert_eq!(rt; ended, Ok(()));
    assert_eq!(rt; answers.len(), 31 + 17);
    assert_eq!(rt; journal.entries.as_slice(), ENTRIES);
    Ok(())
}
