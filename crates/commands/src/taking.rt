// `take` and `fetch`: taking a reply under a slip.

use crate::answer::{Answer, Reply};
use crate::any_check::AnyCheck;
use crate::checks::OpenCheck;
use crate::console::Console;
use crate::excuse::{Excuse, Stop};
use crate::marks::differs_outside;
use crate::misread::Misread;
use crate::serving::{Served, serve_marked};
use crate::slip_name::SlipName;
use crate::words::Words;
use calls::Slip;
use field::Field;
use std::alloc::Global;
use std::ops::Range;
use tally::SUM_COUNT;
use wire::Asked;

// take A SLIP w1 w2 .., with tally=
#[derive(Drop)]
pub(crate) struct Take {
    check: String,
    slip: SlipName,
    reply: Vec<u32>,
    room: Option<usize>,
}

// fetch A SLIP S
#[derive(Drop)]
pub(crate) struct Fetch {
    check: String,
    slip: SlipName,
    station: String,
}

impl Take {
    pub(crate) fn read(words: &mut Words) -> Result<Take, Misread> {
        Ok(Take {
            room: words.option("tally=")?,
            check: words.name()?,
            slip: words.slip_name()?,
            reply: words.link_words()?,
        })
    }

    pub(crate) fn carry_out(self, console: &mut Console) -> Result<Reply, Stop> {
        let check = console.take_out(self.check.as_str())?;
        let (check, reply) = self.take(console, check);
        console.put(check)?;
        reply
    }

    // Under a slip of the check's own, or of another check that is kept.
    fn take(&self, console: &Console, check: AnyCheck) -> (AnyCheck, Result<Reply, Stop>) {
        let heap = console.heap;
        let station = self.slip.station;
        let reply = self.reply.as_slice();
        match self.slip.other_than(self.check.as_str()) {
            None => check.take_own(heap, station, reply, self.room),
            Some(holder) => match console.slip(holder, station) {
                Ok(slip) => check.take(heap, slip, reply, self.room),
                Err(stop) => (check, Err(stop)),
            },
        }
    }
}

impl Fetch {
    pub(crate) fn read(words: &mut Words) -> Result<Fetch, Misread> {
        Ok(Fetch {
            check: words.name()?,
            slip: words.slip_name()?,
            station: words.name()?,
        })
    }

    pub(crate) fn carry_out(self, console: &mut Console) -> Result<Reply, Stop> {
        let Served { reply, spoilt } = self.serve_slip(console)?;
        match reply {
            Err(refusal) => Ok(Reply {
                answer: Answer::ServingRefused(refusal),
                spoilt,
            }),
            Ok(reply) => {
                let take = Take {
                    check: self.check,
                    slip: self.slip,
                    reply,
                    room: None,
                };
                let taken = take.carry_out(console)?;
                Ok(Reply {
                    answer: taken.answer,
                    spoilt: spoilt || taken.spoilt,
                })
            }
        }
    }

    // The station serves the slip's request.
    fn serve_slip(&self, console: &Console) -> Result<Served, Stop> {
        let own = self.check.as_str();
        let field = console.check(own)?.field();
        let slip = console.slip(self.slip.holder(own), self.slip.station)?;
        let request = slip.request();
        let station = console.station(self.station.as_str())?;
        if station.field != field {
            let name = String::from_str(console.heap, self.station.as_str())?;
            return Err(Excuse::OtherField(name).into());
        }
        let words = request.words();
        Ok(serve_marked(console.heap, station, request.station, &words, None)?)
    }
}

impl<F: Field> OpenCheck<F> {
    // Takes a reply under a slip that is held here.
    pub(crate) fn take_own(
        &mut self,
        heap: Global,
        station: u32,
        reply: &[u32],
        room: Option<usize>,
    ) -> Result<Reply, Stop> {
        let Some((at, slip)) = self.lift(station) else {
            return Err(Excuse::NoSlip(station).into());
        };
        let taken = self.take(heap, &slip, reply, room);
        self.hold(at, slip)?;
        taken
    }

    // Takes a reply, with so many words of the tally handed in.
    pub(crate) fn take(
        &mut self,
        heap: Global,
        slip: &Slip,
        reply: &[u32],
        room: Option<usize>,
    ) -> Result<Reply, Stop> {
        let before = Vec::from_slice(heap, &self.tally)?;
        let room = self.room(room);
        let taken = self.stage.take(slip, reply, &mut self.tally[..room])?;
        let touched = match taken {
            Ok(()) => self.places_of(slip),
            Err(_) => 0..0,
        };
        Ok(Reply {
            answer: Answer::of(taken.map(|_| Answer::Taken)),
            spoilt: differs_outside(&before, &self.tally, &touched),
        })
    }

    // The places of the tally that a reply to the slip's request goes to.
    fn places_of(&self, slip: &Slip) -> Range<usize> {
        let request = slip.request();
        let first = (request.first as usize).saturating_sub(1);
        let start = (request.station as usize)
            .saturating_sub(1)
            .saturating_mul(self.pages.saturating_add(SUM_COUNT))
            .saturating_add(first);
        let start = match request.asked {
            Asked::Sums => start.saturating_add(self.pages),
            Asked::Signatures => start,
        };
        start..start.saturating_add(request.value_count())
    }
}
