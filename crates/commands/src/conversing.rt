// Lines in, answers out.

use crate::console::Console;
use crate::replaying::Mode;
use std::alloc::AllocError;
use std::io::{BufRead, Write};
use std::{fmt, io};

// What ends a conversation before its input does.
#[derive(Drop)]
pub enum Failure {
    Input(io::Error),
    Output(io::Error),
    NoMemory,
}

impl From<AllocError> for Failure {
    fn from(_: AllocError) -> Failure {
        Failure::NoMemory
    }
}

impl fmt::Display for Failure {
    fn fmt<W: fmt::Write>(&self, f: &mut fmt::Formatter<W>) -> fmt::Result {
        match self {
            Failure::Input(error) => write!(f, "cannot read standard input: {error}"),
            Failure::Output(error) => write!(f, "cannot write standard output: {error}"),
            Failure::NoMemory => write!(f, "there is no memory for what the lines ask"),
        }
    }
}

// Answers each line before the next is read, until the input ends or fails, or the output does. What the console holds stays with it.
pub fn converse(
    mode: Mode,
    console: &mut Console,
    input: &mut impl BufRead,
    output: &mut impl Write,
) -> Result<(), Failure> {
    let mut line = Vec::new(console.heap);
    for _ in 0..u64::MAX {
        line.clear();
        if input.read_until(b'\n', &mut line).map_err(Failure::Input)? == 0 {
            break;
        }
        let text = console.respond_to_bytes(mode, &line)?;
        output.write_all(text.as_bytes()).map_err(Failure::Output)?;
        output.flush().map_err(Failure::Output)?;
    }
    Ok(())
}

impl Console {
    // The lines to write for a line of the input, with or without its end. Bytes that are no text are a line that is no command.
    fn respond_to_bytes(&mut self, mode: Mode, line: &[u8]) -> Result<String, AllocError> {
        let line = line.strip_suffix(b"\n").unwrap_or(line);
        match std::str::from_utf8(line) {
            Ok(line) => self.respond(mode, line),
            Err(_) => format!(in self.heap; "not read: bytes that are no text\n"),
        }
    }
}
