// `wulambey < FARM` checks a farm of cards: the numbers of stations and pages and the bound, then the signatures, a byte each.
// Ends with 0 for findings, 1 for a refusal, 2 for arguments, 3 where a stream fails. It needs no heap.
#![tactic(auto)]

ghost use Rattle.std.specs.Prelude.{◌≤◌, length, IfOk};

use desk::{FARM_ROOM, FINDINGS_ROOM};
use std::env::FillError;
use std::io::{ErrorKind, Read, Write};
use std::process::ExitCode;
use std::rt::Env;
use std::{fmt, io};

// Why there is no answer.
#[derive(Drop)]
enum Failure {
    Usage,
    Input(io::Error),
    Output(io::Error),
}

impl Failure {
    fn exit_code(&self) -> ExitCode {
        match self {
            Failure::Usage => ExitCode::from(2),
            Failure::Input(_) | Failure::Output(_) => ExitCode::from(3),
        }
    }
}

impl fmt::Display for Failure {
    fn fmt<W: fmt::Write>(&self, f: &mut fmt::Formatter<W>) -> fmt::Result {
        match self {
            Failure::Usage => write!(f, "usage: wulambey < FARM, a file of the bytes of a farm"),
            Failure::Input(error) => write!(f, "cannot read standard input: {error}"),
            Failure::Output(error) => write!(f, "cannot write standard output: {error}"),
        }
    }
}

// Reads until the input ends or the buffer is full, and tells how many bytes came.
fn fill<R: Read>(reader: &mut R, buffer: &mut [u8]) -> io::Result<usize>
    ensures { IfOk result (λ count. count ≤ length buffer.new) }
{
    let mut count = 0;
    for _ in 0..u64::MAX {
        match reader.read(&mut buffer[count..]) {
            Ok(0) => break,
            Ok(more) => count += more,
            Err(error) => {
                if error.kind() != ErrorKind::Interrupted {
                    return Err(error);
                }
            }
        }
    }
    Ok(count)
}

// Answers what is on standard input. One byte more than the longest farm tells that there is a surplus.
fn answer(rt: &HostRuntime) -> Result<ExitCode, Failure> {
    if !matches!(rt.arg(1, &mut []), Err(FillError::NotPresent)) {
        return Err(Failure::Usage);
    }
    let mut farm = [0; FARM_ROOM + 1];
    let mut text = [0; FINDINGS_ROOM];
    let length = fill(&mut rt.stdin(), &mut farm).map_err(Failure::Input)?;
    let written = desk::findings(&farm[..length], &mut text).unwrap();
    rt.stdout()
        .write_all(&text[..written.count])
        .map_err(Failure::Output)?;
    Ok(match written.refused {
        None => ExitCode::SUCCESS,
        Some(_) => ExitCode::FAILURE,
    })
}

fn main(rt: HostRuntime) -> ExitCode {
    match answer(&rt) {
        Ok(code) => code,
        Err(failure) => {
            let _ = eprintln!(rt; "{failure}");
            failure.exit_code()
        }
    }
}
