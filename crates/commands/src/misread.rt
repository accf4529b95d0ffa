// Why a line is no command.

use std::alloc::{AllocError, AllocFailed, Global};
use std::fmt;

// What a word of a command is to be.
#[derive(Clone, Copy, PartialEq, Eq, Debug)]
pub(crate) enum Part {
    Name,
    Field,
    Number,
    // a word of the link
    Word,
    Bytes,
    Scheme,
    Slip,
}

#[derive(Drop)]
pub(crate) enum Misread {
    // No command begins so.
    Unknown(String),
    // The line ends before this.
    Missing(Part),
    // This word is not what is due.
    Wrong(String, Part),
    // The command has no such word, or no such option.
    Surplus(String),
    NoMemory,
}

impl Misread {
    pub(crate) fn unknown(heap: Global, word: &str) -> Misread {
        match String::from_str(heap, word) {
            Ok(word) => Misread::Unknown(word),
            Err(_) => Misread::NoMemory,
        }
    }

    pub(crate) fn wrong(heap: Global, word: &str, part: Part) -> Misread {
        match String::from_str(heap, word) {
            Ok(word) => Misread::Wrong(word, part),
            Err(_) => Misread::NoMemory,
        }
    }
}

impl<T: Drop> From<AllocFailed<T>> for Misread {
    fn from(_error: AllocFailed<T>) -> Misread {
        Misread::NoMemory
    }
}

impl From<AllocError> for Misread {
    fn from(_error: AllocError) -> Misread {
        Misread::NoMemory
    }
}

impl fmt::Display for Part {
    fn fmt<W: fmt::Write>(&self, f: &mut fmt::Formatter<W>) -> fmt::Result {
        match self {
            Part::Name => write!(f, "name"),
            Part::Field => write!(f, "field"),
            Part::Number => write!(f, "number"),
            Part::Word => write!(f, "word of the link"),
            Part::Bytes => write!(f, "bytes"),
            Part::Scheme => write!(f, "scheme"),
            Part::Slip => write!(f, "slip"),
        }
    }
}

impl fmt::Display for Misread {
    fn fmt<W: fmt::Write>(&self, f: &mut fmt::Formatter<W>) -> fmt::Result {
        match self {
            Misread::Unknown(word) => write!(f, "not read: no command {word}"),
            Misread::Missing(part) => write!(f, "not read: a {part} is missing"),
            Misread::Wrong(word, part) => write!(f, "not read: {word} is no {part}"),
            Misread::Surplus(word) => write!(f, "not read: {word} is too much"),
            Misread::NoMemory => write!(f, "not read: no memory"),
        }
    }
}
