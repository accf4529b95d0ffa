// `slip`: handing out a slip.
ghost use Rattle.std.specs.Prelude.{IfOk, string_bytes};
ghost use Rattle.commands.specs.Typed.{ReadsNamed};

use crate::answer::{Answer, Reply};
use crate::checks::OpenCheck;
use crate::console::Console;
use crate::excuse::Stop;
use crate::marks;
use crate::misread::Misread;
use crate::words::Words;
use field::Field;
use std::alloc::Global;

// The words of a request.
const REQUEST_ROOM: usize = 4;

// slip A s, with buf=
#[derive(Drop)]
pub(crate) struct HandOut {
    check: String,
    station: u32,
    room: Option<usize>,
}

impl HandOut {
    pub(crate) fn read(words: &mut Words) -> Result<HandOut, Misread>
        ensures { IfOk result (λ c. ReadsNamed string_bytes words.old.words.items words.new.words.items c.check c.station) }
    {
        Ok(HandOut {
            room: words.option("buf=")?,
            check: words.name()?,
            station: words.number()?,
        })
    }

    pub(crate) fn carry_out(self, console: &mut Console) -> Result<Reply, Stop> {
        let room = self.room.unwrap_or(REQUEST_ROOM);
        let check = console.take_out(self.check.as_str())?;
        let (check, reply) = check.hand_out(console.heap, self.station, room);
        console.put(check)?;
        reply
    }
}

impl<F: Field> OpenCheck<F> {
    // Hands out a slip, which is held, and tells its request.
    pub(crate) fn hand_out(
        &mut self,
        heap: Global,
        station: u32,
        room: usize,
    ) -> Result<Reply, Stop> {
        let mut request = marks::marked(heap, room)?;
        match self.stage.slip(station, &mut request)? {
            Ok(slip) => {
                self.hold(usize::MAX, slip)?;
                Ok(Reply {
                    spoilt: marks::is_spoilt(request.get(REQUEST_ROOM..).unwrap_or_default()),
                    answer: Answer::Slip(first_words(&request)),
                })
            }
            Err(refusal) => Ok(Reply {
                answer: Answer::Refused(refusal),
                spoilt: marks::is_spoilt(&request),
            }),
        }
    }
}

// The words of a request at the front of its buffer.
fn first_words(buffer: &[u32]) -> [u32; REQUEST_ROOM] {
    match buffer {
        [check, station, first, last, ..] => [*check, *station, *first, *last],
        _ => [marks::MARK; REQUEST_ROOM],
    }
}
