//! Tests of `serve_lines`: many requests, a line each, over streams that give or take few bytes, or
//! fail.

use crate::streams::{Full, Giving, Taking};
use crate::texts::{SCALAR, SCALAR_LINE};
use crate::told::expect;
use std::alloc::Global;
use std::process::Abort;
use std::sync::Wait;
use std::thread::Threads;
use tensor_runner::{Connection, CountedReader, CountedWriter, Ending, Service, serve_lines};

const DONE: Ending = Ending {
    status: 0,
    complaint: None,
};

const READ_FAULT: Ending = Ending {
    status: 1,
    complaint: Some("error 16 ReadFault\n"),
};

const WRITE_FAULT: Ending = Ending {
    status: 1,
    complaint: Some("error 17 WriteFault\n"),
};

/// Three request lines, the last without a line feed.
const THREE: &[u8] = b"{\"version\":1,\"workers\":2,\"block\":4,\
    \"inputs\":{\"a\":{\"dims\":[],\"data\":[5]}},\"expr\":\"a\"}\n[]\n\
    {\"version\":1,\"workers\":2,\"block\":1,\
    \"inputs\":{\"a\":{\"dims\":[2],\"data\":[1,2]}},\"expr\":[\"add\",\"a\",\"a\"]}";

const THREE_LINES: &str =
    "{\"data\":[5],\"dims\":[]}\nerror 3 BadField\n{\"data\":[2,4],\"dims\":[2]}\n";

/// After how many bytes of [`THREE`] the first and the second line are complete, and how many bytes
/// their answers have then.
const WHOLE: &[(usize, usize)] = &[(85, 23), (88, 40)];

/// Asserts the ending and the bytes of the answers, and that only the stream of the ending's fault
/// has failed.
fn expect_lines<RT: Threads + Wait + Abort + Sync>(
    rt: &RT,
    alloc: Global,
    name: &str,
    streams: (Giving<'_>, Taking),
    wanted: (Ending, &[u8]),
) {
    let mut client = Connection {
        source: CountedReader::new(streams.0),
        sink: CountedWriter::new(streams.1),
    };
    let ending = serve_lines(rt, alloc, Service::plain(), &mut client);
    expect(rt, name, &ending, &wanted.0);
    let told = client.sink.writer.taken.as_slice();
    expect(rt, name, &told, &wanted.1);
    let failures = (client.source.failures > 0, client.sink.failures > 0);
    let known = (wanted.0 == READ_FAULT, wanted.0 == WRITE_FAULT);
    expect(rt, name, &failures, &known);
}

/// Texts with a name, and the answers of their lines.
const TEXTS: &[(&str, &[u8], &str)] = &[
    ("no line", b"", ""),
    ("a feed", b"\n", "error 2 NotJson\n"),
    ("one", b"[]\n", "error 3 BadField\n"),
    ("no feed at the end", SCALAR, SCALAR_LINE),
    ("three", THREE, THREE_LINES),
    (
        "empty ones",
        b"\n\n[]\n\n",
        "error 2 NotJson\nerror 2 NotJson\nerror 3 BadField\nerror 2 NotJson\n",
    ),
    (
        "carriage returns",
        b"[]\r\n\r\n[]\r",
        "error 3 BadField\nerror 2 NotJson\nerror 3 BadField\n",
    ),
    (
        "no UTF-8",
        b"\"\xff\"\n[]\n",
        "error 2 NotJson\nerror 3 BadField\n",
    ),
];

#[test]
fn lines_of_small_texts(rt: HostRuntime) {
    for &(name, text, answers) in TEXTS {
        for most_a_call in [1, 100_000] {
            let streams = (Giving::by(most_a_call, text), Taking::all(rt.alloc()));
            expect_lines(&rt, rt.alloc(), name, streams, (DONE, answers.as_bytes()));
        }
    }
}

/// Checks that the lines whose line feed was read are answered, and that the line at which the
/// reader failed is not.
#[test]
fn a_reader_that_fails_in_each_line(rt: HostRuntime) {
    for good_calls in 0..=THREE.len() {
        let mut giving = Giving::by(1, THREE);
        giving.good_calls = good_calls as u64;
        let mut answers = "";
        for &(behind, length) in WHOLE {
            if good_calls >= behind {
                answers = &THREE_LINES[..length];
            }
        }
        let streams = (giving, Taking::all(rt.alloc()));
        let wanted = (READ_FAULT, answers.as_bytes());
        expect_lines(&rt, rt.alloc(), "a failing reader", streams, wanted);
    }
}

/// Checks that a writer without room for all answers has the prefix of them that fits.
#[test]
fn a_writer_that_is_full_in_each_line(rt: HostRuntime) {
    let lines = THREE_LINES.as_bytes();
    for (full, most_a_call) in [(Full::Fails, 1), (Full::TakesNone, 1), (Full::Fails, 1_000)] {
        for room in 0..=lines.len() {
            let taking = Taking {
                taken: Vec::new(rt.alloc()),
                most_a_call,
                room,
                full,
            };
            let ending = if room < lines.len() {
                WRITE_FAULT
            } else {
                DONE
            };
            let streams = (Giving::by(1_000, THREE), taking);
            let wanted = (ending, &lines[..room]);
            expect_lines(&rt, rt.alloc(), "a full writer", streams, wanted);
        }
    }
}
