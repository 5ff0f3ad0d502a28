//! Tests of `run` and `serve` over streams that give or take few bytes, or fail, and over texts
//! that no file of cases can hold: texts that are not UTF-8, and texts of the greatest length.

use crate::streams::{Full, Giving, Taking};
use crate::texts::{PRODUCT, PRODUCT_LINE, SCALAR, SCALAR_LINE, SPACED};
use crate::told::expect;
use std::alloc::Global;
use std::io;
use std::process::Abort;
use std::sync::Wait;
use std::test::Fail;
use std::thread::Threads;
use tensor_runner::{CountedReader, CountedWriter, Ending, Status, StreamFault, run, serve};

/// How a run should end.
#[derive(Drop)]
struct Wanted<'t> {
    name: &'t str,
    ended: Result<Status, StreamFault>,
    /// The answer. The writer gets the prefix of it that fits.
    line: &'t str,
    /// How often each stream is called, if the test says it.
    reads: Option<u64>,
    writes: Option<u64>,
}

/// Asserts how a run ends and what it writes, and that only the stream of its fault has failed,
/// once.
fn expect_run<RT: Threads + Wait + Abort + Sync>(
    rt: &RT,
    alloc: Global,
    giving: Giving<'_>,
    taking: Taking,
    wanted: &Wanted<'_>,
) {
    let front = wanted
        .line
        .as_bytes()
        .get(..wanted.line.len().min(taking.room));
    let mut reader = CountedReader::new(giving);
    let mut writer = CountedWriter::new(taking);
    let ended = run(rt, alloc, &mut reader, &mut writer);
    let failures = match wanted.ended {
        Ok(_) => (0, 0),
        Err(StreamFault::ReadFault) => (1, 0),
        Err(StreamFault::WriteFault) => (0, 1),
    };
    let reads = wanted.reads.unwrap_or(reader.calls);
    let writes = wanted.writes.unwrap_or(writer.calls);
    let taken = writer.writer.taken.as_slice();
    let name = wanted.name;
    expect(rt, name, &(ended, Some(taken)), &(wanted.ended, front));
    expect(rt, name, &(reader.failures, writer.failures), &failures);
    expect(rt, name, &(reader.calls, writer.calls), &(reads, writes));
}

const MOST: usize = 16_777_216;

const TOO_LONG: &str = "error 1 TooLong\n";

const NOT_JSON: &str = "error 2 NotJson\n";

/// Cases: a name, a text, the length to which spaces fill it up, the most bytes that one read
/// gives, the answer, and how many reads there are, if the case says it. The last read finds the
/// end of the text, or the one byte that makes it too long.
const TEXTS: &[(&str, &[u8], usize, usize, &str, Option<u64>)] = &[
    ("no UTF-8", b"\"\xff\"", 3, MOST, NOT_JSON, None),
    ("spaced", SPACED, 0, MOST, SCALAR_LINE, None),
    ("as many spaces as may be", b"", MOST, MOST, NOT_JSON, None),
    ("one more", b"", MOST + 1, MOST, TOO_LONG, None),
    ("three more", b"", MOST + 3, MOST, TOO_LONG, None),
    (
        "as much space behind a text",
        SCALAR,
        MOST,
        MOST,
        SCALAR_LINE,
        None,
    ),
    (
        "one more behind a text",
        SCALAR,
        MOST + 1,
        MOST,
        TOO_LONG,
        None,
    ),
    ("a byte a read", PRODUCT, 0, 1, PRODUCT_LINE, Some(163)),
    ("no end", b"", MOST + 8192, 4096, TOO_LONG, Some(4097)),
    (
        "no end, a byte a read",
        b"",
        MOST + 8192,
        1,
        TOO_LONG,
        Some(16_777_217),
    ),
];

#[test]
fn lines_of_texts(rt: HostRuntime) -> Result<(), Fail> {
    for &(name, text, length, most_a_call, line, reads) in TEXTS {
        let mut bytes = text.to_vec(rt.alloc())?;
        bytes.resize(length.max(text.len()), b' ')?;
        let status = if line.starts_with("error") {
            Status::Fault
        } else {
            Status::Tensor
        };
        let wanted = Wanted {
            name,
            ended: Ok(status),
            line,
            reads,
            writes: None,
        };
        let giving = Giving::by(most_a_call, bytes.as_slice());
        expect_run(&rt, rt.alloc(), giving, Taking::all(rt.alloc()), &wanted);
    }
    Ok(())
}

/// Checks a reader that fails after each number of reads. Every error ends the run, also
/// `Interrupted`, which other readers try again, and nothing is written.
#[test]
fn a_reader_that_fails_at_each_place(rt: HostRuntime) {
    for (name, kind) in [
        ("other", io::ErrorKind::Other),
        ("broken pipe", io::ErrorKind::BrokenPipe),
        ("interrupted", io::ErrorKind::Interrupted),
    ] {
        for good_calls in 0..=PRODUCT.len() as u64 {
            let giving = Giving {
                rest: PRODUCT,
                most_a_call: 1,
                good_calls,
                kind,
            };
            let wanted = Wanted {
                name,
                ended: Err(StreamFault::ReadFault),
                line: "",
                reads: good_calls.checked_add(1),
                writes: Some(0),
            };
            expect_run(&rt, rt.alloc(), giving, Taking::all(rt.alloc()), &wanted);
        }
    }
}

/// The most bytes that one write takes, and how many writes take the 36 bytes of [`PRODUCT_LINE`].
const CALLS: &[(&str, usize, u64)] = &[
    ("a byte a call", 1, 36),
    ("five bytes a call", 5, 8),
    ("all by one call", 1000, 1),
];

/// Checks that a writer without room for the line has the prefix of it that fits.
#[test]
fn a_writer_that_is_full_at_each_place(rt: HostRuntime) {
    for full in [Full::Fails, Full::TakesNone] {
        for &(name, most_a_call, calls) in CALLS {
            for room in 0..=37 {
                let taking = Taking {
                    taken: Vec::new(rt.alloc()),
                    most_a_call,
                    room,
                    full,
                };
                let mut wanted = Wanted {
                    name,
                    ended: Err(StreamFault::WriteFault),
                    line: PRODUCT_LINE,
                    reads: None,
                    writes: None,
                };
                if room >= PRODUCT_LINE.len() {
                    wanted.ended = Ok(Status::Tensor);
                    wanted.writes = Some(calls);
                }
                let giving = Giving::by(1000, PRODUCT);
                expect_run(&rt, rt.alloc(), giving, taking, &wanted);
            }
        }
    }
}

/// Cases: a name, a text, how many reads of one byte succeed, how many bytes the writer takes, the
/// exit status, the line on standard error, and the answer.
///
/// A stream that fails is not a fault of the text, so its line is on standard error.
const ENDINGS: &[(&str, &[u8], u64, usize, u8, Option<&str>, &str)] = &[
    ("a tensor", PRODUCT, 1000, 1000, 0, None, PRODUCT_LINE),
    ("a fault", b"[]", 1000, 1000, 1, None, "error 3 BadField\n"),
    ("no text", b"", 1000, 1000, 1, None, NOT_JSON),
    (
        "no read",
        PRODUCT,
        5,
        1000,
        1,
        Some("error 16 ReadFault\n"),
        "",
    ),
    (
        "no room",
        PRODUCT,
        1000,
        7,
        1,
        Some("error 17 WriteFault\n"),
        PRODUCT_LINE,
    ),
];

/// Serves a text whose reader gives one byte a call and fails after `good_calls` calls. Returns the
/// ending, and the bytes that a writer with this room has.
fn served<RT: Threads + Wait + Sync>(
    rt: &RT,
    alloc: Global,
    text: &[u8],
    good_calls: u64,
    room: usize,
) -> (Ending, Vec<u8>) {
    let mut giving = Giving::by(1, text);
    giving.good_calls = good_calls;
    let mut taking = Taking::all(alloc);
    taking.room = room;
    let mut reader = CountedReader::new(giving);
    let mut writer = CountedWriter::new(taking);
    let ending = serve(rt, alloc, &mut reader, &mut writer);
    (ending, writer.writer.taken)
}

/// Checks the endings of [`ENDINGS`]. A writer that fails has the prefix of the line that fits.
#[test]
fn endings_of_lines(rt: HostRuntime) {
    for &(name, text, good_calls, room, status, complaint, line) in ENDINGS {
        let (ending, taken) = served(&rt, rt.alloc(), text, good_calls, room);
        let wanted = Ending { status, complaint };
        expect(&rt, name, &ending, &wanted);
        let bytes = line.as_bytes();
        let front = &bytes[..bytes.len().min(room)];
        expect(&rt, name, &taken.as_slice(), &front);
    }
}
