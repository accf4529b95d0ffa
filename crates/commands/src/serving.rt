// `serve`: a station serves a request.

use crate::answer::{Answer, Reply};
use crate::console::Console;
use crate::excuse::Stop;
use crate::marks;
use crate::misread::Misread;
use crate::stations::KeptStation;
use crate::words::Words;
use refusal::Refusal;
use std::alloc::{AllocError, Global};

// The most values of a reply of sums.
const SUM_LIMIT: usize = 128;

// serve S t w1 w2 .., with buf=
#[derive(Drop)]
pub(crate) struct Serve {
    station: String,
    number: u32,
    request: Vec<u32>,
    room: Option<usize>,
}

// What serving wrote into a marked buffer.
#[derive(Drop)]
pub(crate) struct Served {
    pub(crate) reply: Result<Vec<u32>, Refusal>,
    pub(crate) spoilt: bool,
}

impl Serve {
    pub(crate) fn read(words: &mut Words) -> Result<Serve, Misread> {
        Ok(Serve {
            room: words.option("buf=")?,
            station: words.name()?,
            number: words.number()?,
            request: words.link_words()?,
        })
    }

    pub(crate) fn carry_out(self, console: &Console) -> Result<Reply, Stop> {
        let station = console.station(self.station.as_str())?;
        let request = self.request.as_slice();
        let served = serve_marked(console.heap, station, self.number, request, self.room)?;
        Ok(Reply {
            answer: Answer::of(served.reply.map(Answer::Reply)),
            spoilt: served.spoilt,
        })
    }
}

// Serves a request into a marked buffer of so much room, by default enough for each reply.
pub(crate) fn serve_marked(
    heap: Global,
    station: &KeptStation,
    number: u32,
    request: &[u32],
    room: Option<usize>,
) -> Result<Served, AllocError> {
    let room = match (room, station.page_count()) {
        (Some(room), _) => room,
        (None, Ok(pages)) => pages.max(SUM_LIMIT).saturating_add(4),
        (None, Err(_)) => SUM_LIMIT + 4,
    };
    let mut buffer = marks::marked(heap, room)?;
    Ok(match station.serve(number, request, &mut buffer) {
        Ok(count) => {
            let spoilt = marks::is_spoilt(buffer.get(count..).unwrap_or_default());
            buffer.truncate(count);
            Served {
                reply: Ok(buffer),
                spoilt,
            }
        }
        Err(refusal) => Served {
            reply: Err(refusal),
            spoilt: marks::is_spoilt(&buffer),
        },
    })
}
