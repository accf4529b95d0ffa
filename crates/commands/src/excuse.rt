// Why a command that was read is not carried out: it names what is not there, or it is a use that the library's types exclude.

use std::alloc::{AllocError, AllocFailed};
use std::fmt;

#[derive(Drop)]
pub(crate) enum Excuse {
    NoStation(String),
    NoCheck(String),
    // No slip for this station is held.
    NoSlip(u32),
    // A check whose slips are held is not made anew.
    Held(String),
    // The station is of another field than the check.
    OtherField(String),
    // Only an asking hands out slips, takes replies and can be weighed.
    Closed,
    // The check is weighed already.
    Weighed,
    // The check is not weighed yet.
    Unweighed,
    // The tally has no such row.
    NoRow,
    // The scheme is not known here.
    NoScheme,
}

// What ends a command before its answer.
#[derive(Drop)]
pub(crate) enum Stop {
    Excused(Excuse),
    NoMemory,
}

impl From<Excuse> for Stop {
    fn from(excuse: Excuse) -> Stop {
        Stop::Excused(excuse)
    }
}

impl<T: Drop> From<AllocFailed<T>> for Stop {
    fn from(_error: AllocFailed<T>) -> Stop {
        Stop::NoMemory
    }
}

impl From<AllocError> for Stop {
    fn from(_error: AllocError) -> Stop {
        Stop::NoMemory
    }
}

impl fmt::Display for Excuse {
    fn fmt<W: fmt::Write>(&self, f: &mut fmt::Formatter<W>) -> fmt::Result {
        match self {
            Excuse::NoStation(name) => write!(f, "not done: no station {name}"),
            Excuse::NoCheck(name) => write!(f, "not done: no check {name}"),
            Excuse::NoSlip(station) => write!(f, "not done: no slip for {station} is held"),
            Excuse::Held(name) => write!(f, "not done: slips of {name} are held"),
            Excuse::OtherField(name) => write!(f, "not done: {name} is of another field"),
            Excuse::Closed => write!(f, "not done: the check is closed"),
            Excuse::Weighed => write!(f, "not done: the check is weighed"),
            Excuse::Unweighed => write!(f, "not done: the check is not weighed"),
            Excuse::NoRow => write!(f, "not done: no such row"),
            Excuse::NoScheme => write!(f, "not done: the scheme is not known"),
        }
    }
}
