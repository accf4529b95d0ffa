// A check in any of the fields. A call takes it and gives it back.

use crate::answer::Reply;
use crate::checks::OpenCheck;
use crate::excuse::{Excuse, Stop};
use crate::weighing::EndCall;
use binary::{Small, Wide};
use calls::{Counts, Returned, Slip, Verdict};
use fields::FieldName;
use prime::Prime;
use refusal::Refusal;
use std::alloc::Global;

pub(crate) enum AnyCheck {
    Small(OpenCheck<Small>),
    Wide(OpenCheck<Wide>),
    Prime(OpenCheck<Prime>),
}

// The same question in each field.
macro_rules! asked_of {
    ($any:expr, $check:ident => $answer:expr) => {
        match $any {
            AnyCheck::Small($check) => $answer,
            AnyCheck::Wide($check) => $answer,
            AnyCheck::Prime($check) => $answer,
        }
    };
}

// The same call in each field: the check afterwards, and what the call gave.
macro_rules! called_on {
    ($any:expr, $check:ident => $call:expr) => {
        match $any {
            AnyCheck::Small(mut $check) => {
                let given = $call;
                (AnyCheck::Small($check), given)
            }
            AnyCheck::Wide(mut $check) => {
                let given = $call;
                (AnyCheck::Wide($check), given)
            }
            AnyCheck::Prime(mut $check) => {
                let given = $call;
                (AnyCheck::Prime($check), given)
            }
        }
    };
}

impl AnyCheck {
    pub(crate) fn field(&self) -> FieldName {
        match self {
            AnyCheck::Small(_) => FieldName::Small,
            AnyCheck::Wide(_) => FieldName::Wide,
            AnyCheck::Prime(_) => FieldName::Prime,
        }
    }

    pub(crate) fn name(&self) -> &str {
        asked_of!(self, check => check.name.as_str())
    }

    pub(crate) fn is_holding(&self) -> bool {
        asked_of!(self, check => !check.slips.is_empty())
    }

    pub(crate) fn find_slip(&self, station: u32) -> Option<&Slip> {
        asked_of!(self, check => check.find_slip(station))
    }

    pub(crate) fn verdict(&self) -> Option<Verdict> {
        asked_of!(self, check => check.stage.verdict())
    }

    pub(crate) fn counts(&self) -> Counts {
        asked_of!(self, check => check.stage.counts())
    }

    pub(crate) fn row(&self, station: usize) -> Option<(&[u32], &[u32])> {
        asked_of!(self, check => check.row(station))
    }

    pub(crate) fn list(
        &self,
        heap: Global,
        station: u32,
        tally_room: Option<usize>,
        room: Option<usize>,
    ) -> Result<Reply, Stop> {
        asked_of!(self, check => check.list(heap, station, tally_room, room))
    }

    pub(crate) fn hand_out(
        self,
        heap: Global,
        station: u32,
        room: usize,
    ) -> (AnyCheck, Result<Reply, Stop>) {
        called_on!(self, check => check.hand_out(heap, station, room))
    }

    pub(crate) fn take(
        self,
        heap: Global,
        slip: &Slip,
        reply: &[u32],
        room: Option<usize>,
    ) -> (AnyCheck, Result<Reply, Stop>) {
        called_on!(self, check => check.take(heap, slip, reply, room))
    }

    pub(crate) fn take_own(
        self,
        heap: Global,
        station: u32,
        reply: &[u32],
        room: Option<usize>,
    ) -> (AnyCheck, Result<Reply, Stop>) {
        called_on!(self, check => check.take_own(heap, station, reply, room))
    }

    pub(crate) fn lift(self, station: u32) -> (AnyCheck, Option<(usize, Slip)>) {
        called_on!(self, check => check.lift(station))
    }

    pub(crate) fn return_slip(self, slip: Slip) -> (AnyCheck, Result<Returned, Refusal>) {
        called_on!(self, check => check.stage.return_slip(slip))
    }

    pub(crate) fn return_own(
        self,
        station: u32,
    ) -> (AnyCheck, Result<Result<Returned, Refusal>, Excuse>) {
        called_on!(self, check => check.return_own(station))
    }

    pub(crate) fn end(
        self,
        heap: Global,
        call: EndCall,
        room: Option<usize>,
    ) -> (AnyCheck, Result<Reply, Stop>) {
        match self {
            AnyCheck::Small(check) => {
                let (check, reply) = check.end(heap, call, room);
                (AnyCheck::Small(check), reply)
            }
            AnyCheck::Wide(check) => {
                let (check, reply) = check.end(heap, call, room);
                (AnyCheck::Wide(check), reply)
            }
            AnyCheck::Prime(check) => {
                let (check, reply) = check.end(heap, call, room);
                (AnyCheck::Prime(check), reply)
            }
        }
    }

    pub(crate) fn close(self) {
        match self {
            AnyCheck::Small(check) => check.close(),
            AnyCheck::Wide(check) => check.close(),
            AnyCheck::Prime(check) => check.close(),
        }
    }
}
