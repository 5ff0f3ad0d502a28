//! The program of many requests, one a frame: it answers each frame of standard input by a frame on
//! standard output, until the input ends. Its options set limits, and whether each request is noted
//! on standard error. tensor_lines is the same but for lines; change both together.
#![tactic(auto)]

use frame_server::serve_frames;
use std::io::{BufWriter, ErrorKind};
use std::process::ExitCode;
use std::{env, io};
use tensor_runner::{
    Connection, CountedReader, CountedWriter, LineJournal, Program, ServeOptions, Service,
    Uninterrupted, grow_stack,
};

const PROGRAM: Program = Program {
    name: "tensor_frames",
    reads: "FRAMES",
};

/// Reads the words after the program's name. Returns the options by which to serve, or the status
/// with which to end.
fn asked(rt: &HostRuntime) -> io::Result<Result<ServeOptions, u8>> {
    let words: Vec<String> = env::args(rt)?.skip(1).collect(rt.alloc())?;
    PROGRAM.asked(&words, &mut rt.stdout(), &mut rt.stderr())
}

/// Ends a program for which an allocation failed before its first request.
fn no_memory(rt: &HostRuntime) -> io::Result<ExitCode> {
    eprint!(rt; "error 15 NoMemory\n")?;
    Ok(ExitCode::from(1))
}

fn main(rt: HostRuntime) -> io::Result<ExitCode> {
    let options = match asked(&rt) {
        Ok(Ok(options)) => options,
        Ok(Err(status)) => return Ok(ExitCode::from(status)),
        Err(error) if error.kind() == ErrorKind::OutOfMemory => return no_memory(&rt),
        Err(error) => return Err(error),
    };
    let mut client = Connection {
        source: CountedReader::new(Uninterrupted { stream: rt.stdin() }),
        sink: CountedWriter::new(Uninterrupted {
            stream: rt.stdout(),
        }),
    };
    grow_stack(&rt, &mut client.source.reader);
    let journal = if options.log {
        let Ok(writer) = BufWriter::new(rt.alloc(), rt.stderr()) else {
            return no_memory(&rt);
        };
        Some(LineJournal::new(writer, &rt))
    } else {
        None
    };
    let service = Service {
        limits: options.limits,
        journal,
        clock: &rt,
    };
    let ending = serve_frames(&rt, rt.alloc(), service, &mut client);
    if let Some(complaint) = ending.complaint {
        eprint!(rt; "{complaint}")?;
    }
    Ok(ExitCode::from(ending.status))
}
