// What the commands of a script have made, by name; and the answer to a line.

use crate::answer::{Answer, Reply};
use crate::any_check::AnyCheck;
use crate::command::Command;
use crate::excuse::{Excuse, Stop};
use crate::misread::Misread;
use crate::stations::KeptStation;
use calls::Slip;
use std::alloc::{AllocError, Global};
use std::mem;

// Not `Drop`: slips that its checks hold are returned, by `close`.
pub struct Console {
    pub(crate) heap: Global,
    pub(crate) stations: Vec<KeptStation>,
    pub(crate) checks: Vec<AnyCheck>,
}

impl Console {
    pub fn new(heap: Global) -> Console {
        Console {
            heap,
            stations: Vec::new(heap),
            checks: Vec::new(heap),
        }
    }

    // Returns every slip that is held to its own check, and ends.
    pub fn close(self) {
        let Console {
            heap: _,
            stations: _,
            mut checks,
        } = self;
        while let Some(check) = checks.pop() {
            check.close();
        }
        checks.destroy_empty();
    }

    // Begins anew, with nothing left.
    pub fn clear(&mut self) {
        let fresh = Console::new(self.heap);
        mem::replace(self, fresh).close();
    }

    // The line that answers this one; none for a blank line or a comment.
    pub fn answer(&mut self, line: &str) -> Result<Option<String>, AllocError> {
        let reply = match Command::read(self.heap, line) {
            Ok(None) => return Ok(None),
            Ok(Some(command)) => match command.carry_out(self) {
                Ok(reply) => reply,
                Err(Stop::Excused(excuse)) => Answer::Excused(excuse).into(),
                Err(Stop::NoMemory) => return Err(AllocError),
            },
            Err(Misread::NoMemory) => return Err(AllocError),
            Err(misread) => Answer::Misread(misread).into(),
        };
        Ok(Some(format!(in self.heap; "{reply}")?))
    }

    pub(crate) fn station(&self, name: &str) -> Result<&KeptStation, Stop> {
        match self.stations.iter().find(|kept| kept.name.as_str() == name) {
            Some(kept) => Ok(kept),
            None => Err(Excuse::NoStation(String::from_str(self.heap, name)?).into()),
        }
    }

    // Keeps a station, in place of one with its name.
    pub(crate) fn keep(&mut self, station: KeptStation) -> Result<(), AllocError> {
        let name = station.name.as_str();
        match self
            .stations
            .iter()
            .position(|kept| kept.name.as_str() == name)
        {
            Some(at) => self.stations[at] = station,
            None => self.stations.push(station)?,
        }
        Ok(())
    }

    pub(crate) fn check(&self, name: &str) -> Result<&AnyCheck, Stop> {
        match self.checks.iter().find(|check| check.name() == name) {
            Some(check) => Ok(check),
            None => Err(Excuse::NoCheck(String::from_str(self.heap, name)?).into()),
        }
    }

    // The first held slip for a station that a check handed out.
    pub(crate) fn slip(&self, holder: &str, station: u32) -> Result<&Slip, Stop> {
        match self.check(holder)?.find_slip(station) {
            Some(slip) => Ok(slip),
            None => Err(Excuse::NoSlip(station).into()),
        }
    }

    // Takes a check from those that are kept, for a call.
    pub(crate) fn take_out(&mut self, name: &str) -> Result<AnyCheck, Stop> {
        match self.checks.iter().position(|check| check.name() == name) {
            Some(at) => Ok(self.checks.swap_remove(at)),
            None => Err(Excuse::NoCheck(String::from_str(self.heap, name)?).into()),
        }
    }

    // Keeps a check; where there is no memory for it, its slips are returned.
    pub(crate) fn put(&mut self, check: AnyCheck) -> Result<(), AllocError> {
        match self.checks.push(check) {
            Ok(()) => Ok(()),
            Err(failed) => {
                failed.value.close();
                Err(AllocError)
            }
        }
    }

    // Takes the first held slip for a station from the check that handed it out.
    pub(crate) fn lift(&mut self, holder: &str, station: u32) -> Result<Slip, Stop> {
        let Some(at) = self.checks.iter().position(|check| check.name() == holder) else {
            return Err(Excuse::NoCheck(String::from_str(self.heap, holder)?).into());
        };
        let (check, lifted) = self.checks.swap_remove(at).lift(station);
        self.checks.push_reserved(check);
        match lifted {
            Some((_, slip)) => Ok(slip),
            None => Err(Excuse::NoSlip(station).into()),
        }
    }
}
