// `sign` and `solve`: calls of no station and no check.

use crate::answer::{Answer, Reply};
use crate::console::Console;
use crate::excuse::Stop;
use crate::marks::MARK;
use crate::misread::Misread;
use crate::words::Words;
use binary::{Small, Wide};
use fields::FieldName;
use prime::Prime;
use refusal::{Buffer, Refusal};
use solve::Entry;

// The places of the list of a solution.
const LIST_ROOM: usize = 129;

const MARKED: Entry = Entry {
    page: MARK as usize,
    code: MARK,
};

// sign FIELD L BYTES
#[derive(Drop)]
pub(crate) struct Sign {
    field: FieldName,
    length: usize,
    page: Vec<u8>,
}

// solve FIELD N t E1 E2 .., with list=
#[derive(Drop)]
pub(crate) struct Solve {
    field: FieldName,
    pages: usize,
    weight: usize,
    values: Vec<u32>,
    room: Option<usize>,
}

impl Sign {
    pub(crate) fn read(words: &mut Words) -> Result<Sign, Misread> {
        Ok(Sign {
            field: words.field()?,
            length: words.number()?,
            page: words.bytes()?,
        })
    }

    pub(crate) fn carry_out(self) -> Result<Reply, Stop> {
        let signature = match self.field {
            FieldName::Small => page::sign::<Small>(&self.page, self.length),
            FieldName::Wide => page::sign::<Wide>(&self.page, self.length),
            FieldName::Prime => page::sign::<Prime>(&self.page, self.length),
        };
        Ok(Answer::Signature(signature).into())
    }
}

impl Solve {
    pub(crate) fn read(words: &mut Words) -> Result<Solve, Misread> {
        Ok(Solve {
            room: words.option("list=")?,
            field: words.field()?,
            pages: words.number()?,
            weight: words.number()?,
            values: words.numbers()?,
        })
    }

    pub(crate) fn carry_out(self, console: &Console) -> Result<Reply, Stop> {
        let mut list = [MARKED; LIST_ROOM];
        let solved = self.solve(&mut list);
        let answer = match solved {
            Err(refusal) => Answer::Refused(refusal),
            // The call takes a list of 129 places; a shorter one is refused after all else.
            Ok(_) if self.room.is_some_and(|room| room < LIST_ROOM) => {
                return Ok(Answer::Refused(Refusal::Cramped(Buffer::Other)).into());
            }
            Ok(Some(_)) => {
                let entries = Vec::from_slice(console.heap, &list)?;
                return Ok(Answer::Solution(entries).into());
            }
            Ok(None) => Answer::NoSolution,
        };
        Ok(Reply {
            answer,
            spoilt: list.iter().any(|entry| *entry != MARKED),
        })
    }

    fn solve(&self, list: &mut [Entry; LIST_ROOM]) -> Result<Option<usize>, Refusal> {
        match self.field {
            FieldName::Small => solve::solve::<Small>(self.pages, &self.values, self.weight, list),
            FieldName::Wide => solve::solve::<Wide>(self.pages, &self.values, self.weight, list),
            FieldName::Prime => solve::solve::<Prime>(self.pages, &self.values, self.weight, list),
        }
    }
}
