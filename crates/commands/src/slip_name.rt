// The name of a slip: the station that it was handed out for, and the check that did so, if it is another than the command's own.

use crate::digits;
use crate::words::is_name;
use std::alloc::{AllocError, Global};

#[derive(Drop)]
pub(crate) struct SlipName {
    pub(crate) check: Option<String>,
    pub(crate) station: u32,
}

impl SlipName {
    // `2`, or `B.2`.
    pub(crate) fn read(heap: Global, text: &str) -> Result<Option<SlipName>, AllocError> {
        let (check, station) = match text.split_once('.') {
            Some((check, station)) if is_name(check) => {
                (Some(String::from_str(heap, check)?), station)
            }
            Some(_) => return Ok(None),
            None => (None, text),
        };
        match digits::decimal(station) {
            Some(station) => Ok(Some(SlipName { check, station })),
            None => Ok(None),
        }
    }

    // The check that handed it out, if that is not this one.
    pub(crate) fn other_than(&self, own: &str) -> Option<&str> {
        match &self.check {
            Some(check) if check.as_str() != own => Some(check.as_str()),
            _ => None,
        }
    }

    // The check that handed it out; by default this one.
    pub(crate) fn holder<'a>(&'a self, own: &'a str) -> &'a str {
        match &self.check {
            Some(check) => check.as_str(),
            None => own,
        }
    }
}
