// `card` and `shelf`: making a station.

use crate::answer::{Answer, Reply};
use crate::console::Console;
use crate::excuse::Stop;
use crate::holding::Holding;
use crate::misread::Misread;
use crate::stations::KeptStation;
use crate::words::Words;
use fields::FieldName;

// card S FIELD w1 w2 ..
#[derive(Drop)]
pub(crate) struct MakeCard {
    name: String,
    field: FieldName,
    words: Vec<u32>,
}

// shelf S FIELD L BYTES
#[derive(Drop)]
pub(crate) struct MakeShelf {
    name: String,
    field: FieldName,
    length: usize,
    job: Vec<u8>,
}

impl MakeCard {
    pub(crate) fn read(words: &mut Words) -> Result<MakeCard, Misread> {
        Ok(MakeCard {
            name: words.name()?,
            field: words.field()?,
            words: words.numbers()?,
        })
    }

    pub(crate) fn carry_out(self, console: &mut Console) -> Result<Reply, Stop> {
        let station = KeptStation {
            name: self.name,
            field: self.field,
            holding: Holding::Card(self.words),
        };
        make(console, station, Answer::Card)
    }
}

impl MakeShelf {
    pub(crate) fn read(words: &mut Words) -> Result<MakeShelf, Misread> {
        Ok(MakeShelf {
            name: words.name()?,
            field: words.field()?,
            length: words.number()?,
            job: words.bytes()?,
        })
    }

    pub(crate) fn carry_out(self, console: &mut Console) -> Result<Reply, Stop> {
        let station = KeptStation {
            name: self.name,
            field: self.field,
            holding: Holding::Shelf {
                length: self.length,
                job: self.job,
            },
        };
        make(console, station, Answer::Shelf)
    }
}

// Keeps a station whose making is not refused.
fn make(console: &mut Console, station: KeptStation, made: Answer) -> Result<Reply, Stop> {
    if let Err(refusal) = station.page_count() {
        return Ok(Answer::Refused(refusal).into());
    }
    console.keep(station)?;
    Ok(made.into())
}
