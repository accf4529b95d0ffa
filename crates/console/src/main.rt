// `console` answers commands, one a line, over the calls of the library; `console --transcript` writes a transcript anew with its own answers.
// Ends with 0 when the input has ended, 2 for arguments, 3 where a stream or memory fails.
#![tactic(auto)]

use commands::{Console, Mode};
use std::io::ErrorKind;
use std::process::ExitCode;
use std::{env, fmt, io};

// Why there are no more answers.
#[derive(Drop)]
enum Failure {
    Usage,
    Arguments(io::Error),
    Lines(commands::Failure),
}

impl Failure {
    fn exit_code(&self) -> ExitCode {
        match self {
            Failure::Usage => ExitCode::from(2),
            _ => ExitCode::from(3),
        }
    }
}

impl fmt::Display for Failure {
    fn fmt<W: fmt::Write>(&self, f: &mut fmt::Formatter<W>) -> fmt::Result {
        match self {
            Failure::Usage => write!(f, "usage: console [--transcript] < COMMANDS"),
            Failure::Arguments(error) => write!(f, "cannot read the arguments: {error}"),
            Failure::Lines(failure) => write!(f, "{failure}"),
        }
    }
}

// The arguments, of which each is text.
fn read_arguments(rt: &HostRuntime) -> Result<env::Args, Failure> {
    match env::args(rt) {
        Ok(words) => Ok(words),
        Err(error) => match error.kind() {
            ErrorKind::InvalidData => Err(Failure::Usage),
            _ => Err(Failure::Arguments(error)),
        },
    }
}

fn read_mode(rt: &HostRuntime) -> Result<Mode, Failure> {
    let mut words = read_arguments(rt)?.skip(1);
    let Some(word) = words.next() else {
        return Ok(Mode::Commands);
    };
    if word.as_str() == "--transcript" && words.next().is_none() {
        Ok(Mode::Transcript)
    } else {
        Err(Failure::Usage)
    }
}

// Answers the lines on standard input. The slips that are held go back to their checks, whatever ends it.
fn answer(rt: &HostRuntime) -> Result<(), Failure> {
    let mode = read_mode(rt)?;
    let mut console = Console::new(rt.alloc());
    let outcome = commands::converse(mode, &mut console, &mut rt.reader(), &mut rt.stdout());
    console.close();
    outcome.map_err(Failure::Lines)
}

fn main(rt: HostRuntime) -> ExitCode {
    match answer(&rt) {
        Ok(()) => ExitCode::SUCCESS,
        Err(failure) => {
            let _ = eprintln!(rt; "{failure}");
            failure.exit_code()
        }
    }
}
