//! Tests the server of frames over streams in memory that end at each byte.

use crate::frames_answering;
use frame_server::serve_frames;
use std::alloc::Global;
use std::process::Abort;
use std::sync::Wait;
use std::test::Fail;
use std::thread::Threads;
use tensor_runner::{Connection, CountedReader, CountedWriter, Ending, Service, StreamFault};

/// A frame of 109 bytes that asks for a tensor, and then one that is no request.
const TWO: &[u8] = b"\x55\0\0\0\0\0\0\0\x01\0\0\0\0\0\0\0\
    {\"version\":1,\"workers\":2,\"block\":4,\
    \"inputs\":{\"a\":{\"dims\":[1]}},\"expr\":[\"square\",\"a\"]}\
    \x05\0\0\0\0\0\0\0\x02\0\0\0\0\0\0\0\0\0\0\0\0\0\0\0[]";

const FIRST: usize = 109;

/// The answers to the frames of [`TWO`]. The first answer has 36 bytes.
const ANSWERS: &[u8] = b"\x0c\0\0\0\0\0\0\0\x01\0\0\0\0\0\0\0{\"dims\":[1]}\x19\0\0\0\0\0\0\0\
    \x10\0\0\0\0\0\0\0\0\0\0\0\0\0\0\0error 3 BadField";

const FIRST_ANSWER: usize = 36;

const DONE: Ending = Ending {
    status: 0,
    complaint: None,
};

/// Asserts what the program ends with over these bytes, and which answers it wrote.
fn expect_served<RT: Threads + Wait + Abort + Sync>(
    rt: &RT,
    alloc: Global,
    frames: &[u8],
    (ending, told): (Ending, &[u8]),
) {
    let mut client = Connection {
        source: CountedReader::new(frames),
        sink: CountedWriter::new(Vec::new(alloc)),
    };
    let found = serve_frames(rt, alloc, Service::plain(), &mut client);
    assert_eq!(rt; found, ending, "{}", frames.len());
    assert_eq!(rt; client.sink.writer.as_slice(), told, "{}", frames.len());
}

#[test]
fn frames_that_end_at_each_byte(rt: HostRuntime) {
    for length in 0..=TWO.len() {
        let ending = match length {
            0 | FIRST | 127 => DONE,
            _ => Ending {
                status: 1,
                complaint: Some("error 16 ReadFault\n"),
            },
        };
        let told = match length {
            0..FIRST => 0,
            FIRST..127 => FIRST_ANSWER,
            _ => ANSWERS.len(),
        };
        expect_served(&rt, rt.alloc(), &TWO[..length], (ending, &ANSWERS[..told]));
    }
}

#[test]
fn answers_of_frames(rt: HostRuntime) -> Result<(), Fail> {
    let (answers, ended) = frames_answering(&rt, rt.alloc(), TWO.to_vec(rt.alloc())?);
    assert_eq!(rt; ended, Ok(()));
    assert_eq!(rt; answers.as_slice(), ANSWERS);
    let cut = TWO[..FIRST + 1].to_vec(rt.alloc())?;
    let (answers, ended) = frames_answering(&rt, rt.alloc(), cut);
    assert_eq!(rt; ended, Err(StreamFault::ReadFault));
    assert_eq!(rt; answers.as_slice(), &ANSWERS[..FIRST_ANSWER]);
    Ok(())
}
