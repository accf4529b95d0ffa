// `card FIELD LENGTH < JOB` writes the signature card of a sliced job.
// Ends with 0 for a card, 1 for a refusal, 2 for arguments, 3 where a stream or memory fails.
#![tactic(auto)]

use cards::CARD_ROOM;
use fields::FieldName;
use std::io::{ErrorKind, Read, Write};
use std::num::IntErrorKind;
use std::process::ExitCode;
use std::{env, fmt, io};

// The bytes of the longest job: 1,920 pages of 4,096 bytes.
const JOB_LIMIT: u64 = 1920 * 4096;

// What the arguments ask for.
#[derive(Clone, Copy)]
struct Task {
    field: FieldName,
    page_length: usize,
}

// Why there is no answer.
#[derive(Drop)]
enum Failure {
    Usage,
    Arguments(io::Error),
    Input(io::Error),
    Output(io::Error),
}

impl Failure {
    fn exit_code(&self) -> ExitCode {
        match self {
            Failure::Usage => ExitCode::from(2),
            _ => ExitCode::from(3),
        }
    }
}

impl fmt::Display for Failure {
    fn fmt<W: fmt::Write>(&self, f: &mut fmt::Formatter<W>) -> fmt::Result {
        match self {
            Failure::Usage => write!(
                f,
                "usage: card FIELD LENGTH < JOB, FIELD small, wide or prime, LENGTH 1 to 4096 bytes a page"
            ),
            Failure::Arguments(error) => write!(f, "cannot read the arguments: {error}"),
            Failure::Input(error) => write!(f, "cannot read standard input: {error}"),
            Failure::Output(error) => write!(f, "cannot write standard output: {error}"),
        }
    }
}

// A page length; a number too large for the machine is one that no page has.
fn page_length(text: &str) -> Option<usize> {
    match text.parse::<usize>() {
        Ok(length) => Some(length),
        Err(error) => match error.kind() {
            IntErrorKind::PosOverflow => Some(usize::MAX),
            _ => None,
        },
    }
}

// The arguments, of which each is text.
fn read_arguments(rt: &HostRuntime) -> Result<env::Args, Failure> {
    match env::args(rt) {
        Ok(words) => Ok(words),
        Err(error) => match error.kind() {
            ErrorKind::InvalidData => Err(Failure::Usage),
            _ => Err(Failure::Arguments(error)),
        },
    }
}

fn read_task(rt: &HostRuntime) -> Result<Task, Failure> {
    let mut words = read_arguments(rt)?.skip(1);
    let (Some(field), Some(length), None) = (words.next(), words.next(), words.next()) else {
        return Err(Failure::Usage);
    };
    match (field.parse(), page_length(length.as_str())) {
        (Ok(field), Some(page_length)) => Ok(Task { field, page_length }),
        _ => Err(Failure::Usage),
    }
}

// Answers what is on standard input. One byte more than the longest job tells that there is a surplus.
fn answer(rt: &HostRuntime) -> Result<ExitCode, Failure> {
    let task = read_task(rt)?;
    let mut job = Vec::new(rt.alloc());
    rt.stdin()
        .take(JOB_LIMIT + 1)
        .read_to_end(&mut job)
        .map_err(Failure::Input)?;
    let mut text = [0; CARD_ROOM];
    let written = cards::card_in(task.field, task.page_length, job.as_slice(), &mut text).unwrap();
    rt.stdout()
        .write_all(&text[..written.count])
        .map_err(Failure::Output)?;
    Ok(match written.refused {
        None => ExitCode::SUCCESS,
        Some(_) => ExitCode::FAILURE,
    })
}

fn main(rt: HostRuntime) -> ExitCode {
    match answer(&rt) {
        Ok(code) => code,
        Err(failure) => {
            let _ = eprintln!(rt; "{failure}");
            failure.exit_code()
        }
    }
}
