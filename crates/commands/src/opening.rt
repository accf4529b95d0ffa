// `open`: opening a check.
ghost use Rattle.std.specs.Prelude.{◌≡◌, IfOk, IfSome, string_bytes};
ghost use Rattle.commands.specs.Typed.{ReadsOpen, scheme_name};

use crate::answer::{Answer, Reply};
use crate::any_check::AnyCheck;
use crate::checks::OpenCheck;
use crate::console::Console;
use crate::excuse::{Excuse, Stop};
use crate::marks;
use crate::misread::Misread;
use crate::stage::Stage;
use crate::stations::KeptStation;
use crate::words::Words;
use binary::{Small, Wide};
use calls::Check;
use field::Field;
use fields::FieldName;
use prime::Prime;
use refusal::Refusal;
use std::alloc::{AllocError, Global};
use tally::SUM_COUNT;

// The words of the largest rows that a check can have: a larger tally is made only where it is asked for.
const LARGEST_ROWS: usize = 8 * (1920 + SUM_COUNT);

#[derive(Clone, Copy, PartialEq, Eq)]
pub(crate) enum Scheme {
    // the first asking, and perhaps the second
    Two,
    // one asking
    One,
}

impl Scheme {
    pub(crate) fn named(text: &str) -> Option<Scheme>
        ensures { IfSome result (λ scheme. text.now ≡ scheme_name scheme) }
    {
        match text {
            "two" => Some(Scheme::Two),
            "one" => Some(Scheme::One),
            _ => None,
        }
    }
}

// The stage of a check in any of the fields.
#[derive(Drop)]
enum AnyStage {
    Small(Stage<Small>),
    Wide(Stage<Wide>),
    Prime(Stage<Prime>),
}

// open A NUMBER M N f SCHEME OWN, with tally=
#[derive(Drop)]
pub(crate) struct Open {
    name: String,
    number: u32,
    stations: u32,
    pages: u32,
    bound: u32,
    scheme: Scheme,
    own: String,
    room: Option<usize>,
}

impl Open {
    pub(crate) fn read(words: &mut Words) -> Result<Open, Misread>
        ensures { IfOk result (λ c. ReadsOpen string_bytes words.old.words.items words.new.words.items
            c.name c.own c.number c.stations c.pages c.bound c.scheme) }
    {
        Ok(Open {
            room: words.option("tally=")?,
            name: words.name()?,
            number: words.number()?,
            stations: words.number()?,
            pages: words.number()?,
            bound: words.number()?,
            scheme: words.scheme()?,
            own: words.name()?,
        })
    }

    pub(crate) fn carry_out(self, console: &mut Console) -> Result<Reply, Stop> {
        if self.scheme == Scheme::One {
            return Err(Excuse::NoScheme.into());
        }
        let name = self.name.as_str();
        if console.check(name).is_ok_and(|check| check.is_holding()) {
            return Err(Excuse::Held(self.name).into());
        }
        let own = console.station(self.own.as_str())?;
        let mut tally = marks::marked(console.heap, self.room.unwrap_or(self.rows()))?;
        let opened = self.open(own, &mut tally);
        let touched = if opened.is_ok() { self.rows() } else { 0 };
        let spoilt = marks::is_spoilt(tally.get(touched..).unwrap_or_default());
        let answer = match opened {
            Ok(stage) => {
                self.keep(console, stage, tally)?;
                Answer::Opened
            }
            Err(refusal) => Answer::Refused(refusal),
        };
        Ok(Reply { answer, spoilt })
    }

    // How many words the rows have, as far as a check has so many.
    fn rows(&self) -> usize {
        (self.pages as usize)
            .saturating_add(SUM_COUNT)
            .saturating_mul(self.stations as usize)
            .min(LARGEST_ROWS)
    }

    fn open(&self, own: &KeptStation, tally: &mut [u32]) -> Result<AnyStage, Refusal> {
        match own.field {
            FieldName::Small => Ok(AnyStage::Small(self.open_in::<Small>(own, tally)?)),
            FieldName::Wide => Ok(AnyStage::Wide(self.open_in::<Wide>(own, tally)?)),
            FieldName::Prime => Ok(AnyStage::Prime(self.open_in::<Prime>(own, tally)?)),
        }
    }

    fn open_in<F: Field>(&self, own: &KeptStation, tally: &mut [u32]) -> Result<Stage<F>, Refusal> {
        let own = own.holding.lend::<F>()?;
        let check = Check::open(
            self.number,
            self.stations,
            self.pages,
            self.bound,
            &own,
            tally,
        )?;
        Ok(Stage::First(check))
    }

    // Keeps the check, in place of one with its name.
    fn keep(
        self,
        console: &mut Console,
        stage: AnyStage,
        tally: Vec<u32>,
    ) -> Result<(), AllocError> {
        if let Ok(old) = console.take_out(self.name.as_str()) {
            old.close();
        }
        let heap = console.heap;
        console.put(match stage {
            AnyStage::Small(stage) => AnyCheck::Small(self.hold_slips(heap, stage, tally)),
            AnyStage::Wide(stage) => AnyCheck::Wide(self.hold_slips(heap, stage, tally)),
            AnyStage::Prime(stage) => AnyCheck::Prime(self.hold_slips(heap, stage, tally)),
        })
    }

    // The check, with no slips yet.
    fn hold_slips<F: Field>(self, heap: Global, stage: Stage<F>, tally: Vec<u32>) -> OpenCheck<F> {
        OpenCheck {
            name: self.name,
            stations: self.stations as usize,
            pages: self.pages as usize,
            stage,
            tally,
            slips: Vec::new(heap),
        }
    }
}
