// `weigh` and `settle`: ending an asking.
ghost use Rattle.std.specs.Prelude.{◌≡◌, ◌∷◌, IfOk};

use crate::answer::{Answer, Reply};
use crate::checks::OpenCheck;
use crate::console::Console;
use crate::ending::Ending;
use crate::excuse::{Excuse, Stop};
use crate::marks::differs_outside;
use crate::misread::Misread;
use crate::stage::Stage;
use crate::words::Words;
use field::Field;
use refusal::Refusal;
use std::alloc::Global;
use std::ops::Range;
use tally::SUM_COUNT;

// weigh A, with tally=
#[derive(Drop)]
pub(crate) struct Weigh {
    check: String,
    room: Option<usize>,
}

// settle A, with tally=
#[derive(Drop)]
pub(crate) struct Settle {
    check: String,
    room: Option<usize>,
}

// Which of the two calls is made.
#[derive(Clone, Copy)]
pub(crate) enum EndCall {
    Weigh,
    Settle,
}

impl Weigh {
    pub(crate) fn read(words: &mut Words) -> Result<Weigh, Misread>
        ensures { IfOk result (λ c. words.old.words.items ≡ c.check ∷ words.new.words.items) }
    {
        Ok(Weigh {
            room: words.option("tally=")?,
            check: words.name()?,
        })
    }

    pub(crate) fn carry_out(self, console: &mut Console) -> Result<Reply, Stop> {
        end(console, self.check.as_str(), EndCall::Weigh, self.room)
    }
}

impl Settle {
    pub(crate) fn read(words: &mut Words) -> Result<Settle, Misread>
        ensures { IfOk result (λ c. words.old.words.items ≡ c.check ∷ words.new.words.items) }
    {
        Ok(Settle {
            room: words.option("tally=")?,
            check: words.name()?,
        })
    }

    pub(crate) fn carry_out(self, console: &mut Console) -> Result<Reply, Stop> {
        end(console, self.check.as_str(), EndCall::Settle, self.room)
    }
}

// Ends an asking of a check, with so many words of its tally handed in.
fn end(
    console: &mut Console,
    name: &str,
    call: EndCall,
    room: Option<usize>,
) -> Result<Reply, Stop> {
    let check = console.take_out(name)?;
    let (check, reply) = check.end(console.heap, call, room);
    console.put(check)?;
    reply
}

impl<F: Field> OpenCheck<F> {
    // Ends an asking.
    pub(crate) fn end(
        self,
        heap: Global,
        call: EndCall,
        room: Option<usize>,
    ) -> (OpenCheck<F>, Result<Reply, Stop>) {
        let Ok(before) = Vec::from_slice(heap, &self.tally) else {
            return (self, Err(Stop::NoMemory));
        };
        let room = self.room(room);
        let rows = self.later_rows();
        let OpenCheck {
            name,
            stations,
            pages,
            stage,
            mut tally,
            slips,
        } = self;
        let (stage, ended) = end_stage(stage, call, &mut tally[..room]);
        let reply = end_reply(ended, &before, &tally, rows);
        let check = OpenCheck {
            name,
            stations,
            pages,
            stage,
            tally,
            slips,
        };
        (check, reply)
    }

    // The words of all rows but the first.
    fn later_rows(&self) -> Range<usize> {
        let row = self.pages.saturating_add(SUM_COUNT);
        row..row.saturating_mul(self.stations)
    }
}

fn end_stage<F: Field>(
    stage: Stage<F>,
    call: EndCall,
    tally: &mut [u32],
) -> (Stage<F>, Result<Result<Ending, Refusal>, Excuse>) {
    match call {
        EndCall::Weigh => stage.weigh(tally),
        EndCall::Settle => stage.settle(tally),
    }
}

// The call may write the later rows, unless it was refused or another reply is due.
fn end_reply(
    ended: Result<Result<Ending, Refusal>, Excuse>,
    before: &[u32],
    after: &[u32],
    rows: Range<usize>,
) -> Result<Reply, Stop> {
    let ended = ended?;
    let touched = match ended {
        Ok(Ending::Closes(_)) => rows,
        _ => 0..0,
    };
    Ok(Reply {
        answer: Answer::of(ended.map(Answer::Ended)),
        spoilt: differs_outside(before, after, &touched),
    })
}
