// A check in one field, at the stage that it has come to. Each call goes through the library's; a use that its types exclude is excused.

use crate::ending::Ending;
use crate::excuse::Excuse;
use calls::{Check, Closed, Counts, First, Returned, Second, Slip, Verdict, Weighed};
use field::Field;
use refusal::Refusal;

#[derive(Drop)]
pub(crate) enum Stage<F: Field> {
    First(Check<F, First>),
    Second(Check<F, Second>),
    Closed(Check<F, Closed>),
}

impl<F: Field> Stage<F> {
    pub(crate) fn slip(
        &mut self,
        station: u32,
        request: &mut [u32],
    ) -> Result<Result<Slip, Refusal>, Excuse> {
        match self {
            Stage::First(check) => Ok(check.slip(station, request)),
            Stage::Second(check) => Ok(check.slip(station, request)),
            Stage::Closed(_) => Err(Excuse::Closed),
        }
    }

    pub(crate) fn take(
        &mut self,
        slip: &Slip,
        reply: &[u32],
        tally: &mut [u32],
    ) -> Result<Result<(), Refusal>, Excuse> {
        match self {
            Stage::First(check) => Ok(check.take(slip, reply, tally)),
            Stage::Second(check) => Ok(check.take(slip, reply, tally)),
            Stage::Closed(_) => Err(Excuse::Closed),
        }
    }

    pub(crate) fn return_slip(&mut self, slip: Slip) -> Result<Returned, Refusal> {
        match self {
            Stage::First(check) => check.return_slip(slip),
            Stage::Second(check) => check.return_slip(slip),
            Stage::Closed(check) => check.return_slip(slip),
        }
    }

    // The stage that weighing leads to, and how the first asking ended.
    pub(crate) fn weigh(
        self,
        tally: &mut [u32],
    ) -> (Stage<F>, Result<Result<Ending, Refusal>, Excuse>) {
        match self {
            Stage::First(check) => match check.weigh(tally) {
                Ok(Weighed::Closes(check)) => {
                    let ending = Ending::Closes(check.verdict());
                    (Stage::Closed(check), Ok(Ok(ending)))
                }
                Ok(Weighed::Asks(check)) => {
                    let ending = Ending::Asks(check.station());
                    (Stage::Second(check), Ok(Ok(ending)))
                }
                Err(declined) => (Stage::First(declined.check), Ok(Err(declined.refusal))),
            },
            Stage::Second(check) => (Stage::Second(check), Err(Excuse::Weighed)),
            Stage::Closed(check) => (Stage::Closed(check), Err(Excuse::Closed)),
        }
    }

    // The stage that settling leads to, and how the second asking ended.
    pub(crate) fn settle(
        self,
        tally: &mut [u32],
    ) -> (Stage<F>, Result<Result<Ending, Refusal>, Excuse>) {
        match self {
            Stage::First(check) => (Stage::First(check), Err(Excuse::Unweighed)),
            Stage::Second(check) => match check.settle(tally) {
                Ok(check) => {
                    let ending = Ending::Closes(check.verdict());
                    (Stage::Closed(check), Ok(Ok(ending)))
                }
                Err(declined) => (Stage::Second(declined.check), Ok(Err(declined.refusal))),
            },
            Stage::Closed(check) => (Stage::Closed(check), Err(Excuse::Closed)),
        }
    }

    pub(crate) fn list(
        &self,
        station: u32,
        tally: &[u32],
        pages: &mut [u32],
    ) -> Result<usize, Refusal> {
        match self {
            Stage::First(check) => check.list(station, tally, pages),
            Stage::Second(check) => check.list(station, tally, pages),
            Stage::Closed(check) => check.list(station, tally, pages),
        }
    }

    pub(crate) fn verdict(&self) -> Option<Verdict> {
        match self {
            Stage::First(_) | Stage::Second(_) => None,
            Stage::Closed(check) => Some(check.verdict()),
        }
    }

    pub(crate) fn counts(&self) -> Counts {
        match self {
            Stage::First(check) => check.counts(),
            Stage::Second(check) => check.counts(),
            Stage::Closed(check) => check.counts(),
        }
    }
}
