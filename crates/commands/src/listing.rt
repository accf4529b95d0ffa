// `list`: the bad pages of a station.

use crate::answer::{Answer, Reply};
use crate::checks::OpenCheck;
use crate::console::Console;
use crate::excuse::Stop;
use crate::marks;
use crate::misread::Misread;
use crate::words::Words;
use field::Field;
use std::alloc::Global;

// list A s, with tally= and buf=
#[derive(Drop)]
pub(crate) struct ListBad {
    check: String,
    station: u32,
    tally_room: Option<usize>,
    room: Option<usize>,
}

impl ListBad {
    pub(crate) fn read(words: &mut Words) -> Result<ListBad, Misread> {
        Ok(ListBad {
            tally_room: words.option("tally=")?,
            room: words.option("buf=")?,
            check: words.name()?,
            station: words.number()?,
        })
    }

    pub(crate) fn carry_out(self, console: &Console) -> Result<Reply, Stop> {
        let check = console.check(self.check.as_str())?;
        check.list(console.heap, self.station, self.tally_room, self.room)
    }
}

impl<F: Field> OpenCheck<F> {
    pub(crate) fn list(
        &self,
        heap: Global,
        station: u32,
        tally_room: Option<usize>,
        room: Option<usize>,
    ) -> Result<Reply, Stop> {
        let mut pages = marks::marked(heap, room.unwrap_or(self.pages))?;
        let tally = &self.tally[..self.room(tally_room)];
        Ok(match self.stage.list(station, tally, &mut pages) {
            Ok(count) => {
                let spoilt = marks::is_spoilt(pages.get(count..).unwrap_or_default());
                pages.truncate(count);
                Reply {
                    answer: Answer::Bad(pages),
                    spoilt,
                }
            }
            Err(refusal) => Reply {
                answer: Answer::Refused(refusal),
                spoilt: marks::is_spoilt(&pages),
            },
        })
    }
}
