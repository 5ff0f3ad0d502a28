//! What tensor_lines and tensor_frames do with the words after their names. A new option touches
//! the usage line here, `options.rt` and the man pages.

ghost use Rattle.std.specs.Prelude.{◌≡◌, Ok, IfOk, map, string_bytes};

use crate::options::{Command, ServeOptions, VERSION, command_of};
use std::io;
use std::io::Write;

/// The options, as a usage line has them.
const OPTIONS: &str =
    "[--most-workers N] [--most-steps N] [--most-bytes N] [--most-seconds N] [--log]";

/// A program that serves requests.
#[derive(Clone, Copy, Debug, Drop)]
pub struct Program {
    /// The name of the program.
    pub name: &'static str,
    /// What the program reads, as its usage line says it.
    pub reads: &'static str,
}

impl Program {
    ghost use Rattle.std.specs.Prelude.{◌≡◌, Ok, IfOk, map, string_bytes};
    ghost use Rattle.tensor_runner.specs.Options.{command_in};

    /// Reads the words after the program's name. Returns the options by which to serve, or the
    /// status with which to end once help, the version or a wrong option is printed.
    ///
    /// # Errors
    ///
    /// The error of a write that failed.
    pub fn asked<O: Write, E: Write>(
        self,
        words: &[String],
        out: &mut O,
        complaints: &mut E,
    ) -> io::Result<Result<ServeOptions, u8>>
        ensures { IfOk result (λ asked. IfOk asked (λ options.
            command_in (map string_bytes words.now) ≡ Ok (Command.Serve options))) }
    {
        match command_of(words) {
            Ok(Command::Serve(options)) => Ok(Ok(options)),
            Ok(Command::Help) => {
                self.write_usage(out)?;
                Ok(Err(0))
            }
            Ok(Command::Version) => {
                writeln!(out, "{} {VERSION}", self.name)?;
                Ok(Err(0))
            }
            Err(refused) => {
                writeln!(complaints, "{}: {refused}", self.name)?;
                self.write_usage(complaints)?;
                Ok(Err(2))
            }
        }
    }

    /// Writes the usage line.
    fn write_usage<W: Write>(self, writer: &mut W) -> io::Result<()> {
        let Program { name, reads } = self;
        writeln!(writer, "usage: {name} {OPTIONS} < {reads}")
    }
}
