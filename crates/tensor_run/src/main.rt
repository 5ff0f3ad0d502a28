//! The program of one request: it reads a request text from standard input, and writes the line
//! that answers it to standard output. Arguments are ignored. All it does is decided by `serve` of
//! tensor_runner; docs/REQUEST.md and docs/man/tensor_run say what users see.
#![tactic(auto)]

use std::io;
use std::process::ExitCode;
use tensor_runner::{CountedReader, CountedWriter, Uninterrupted, serve};

fn main(rt: HostRuntime) -> io::Result<ExitCode> {
    let mut reader = CountedReader::new(Uninterrupted { stream: rt.stdin() });
    let mut writer = CountedWriter::new(Uninterrupted {
        stream: rt.stdout(),
    });
    let ending = serve(&rt, rt.alloc(), &mut reader, &mut writer);
    if let Some(complaint) = ending.complaint {
        eprint!(rt; "{complaint}")?;
    }
    Ok(ExitCode::from(ending.status))
}
