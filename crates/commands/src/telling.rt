// `verdict` and `counts`: what a check tells.
ghost use Rattle.std.specs.Prelude.{◌≡◌, ◌∷◌, IfOk};

use crate::answer::{Answer, Reply};
use crate::console::Console;
use crate::ending::Ending;
use crate::excuse::Stop;
use crate::misread::Misread;
use crate::words::Words;

// verdict A
#[derive(Drop)]
pub(crate) struct TellVerdict {
    check: String,
}

// counts A
#[derive(Drop)]
pub(crate) struct TellCounts {
    check: String,
}

impl TellVerdict {
    pub(crate) fn read(words: &mut Words) -> Result<TellVerdict, Misread>
        ensures { IfOk result (λ c. words.old.words.items ≡ c.check ∷ words.new.words.items) }
    {
        Ok(TellVerdict {
            check: words.name()?,
        })
    }

    pub(crate) fn carry_out(self, console: &Console) -> Result<Reply, Stop> {
        Ok(match console.check(self.check.as_str())?.verdict() {
            Some(verdict) => Answer::Ended(Ending::Closes(verdict)),
            None => Answer::NotClosed,
        }
        .into())
    }
}

impl TellCounts {
    pub(crate) fn read(words: &mut Words) -> Result<TellCounts, Misread>
        ensures { IfOk result (λ c. words.old.words.items ≡ c.check ∷ words.new.words.items) }
    {
        Ok(TellCounts {
            check: words.name()?,
        })
    }

    pub(crate) fn carry_out(self, console: &Console) -> Result<Reply, Stop> {
        let check = console.check(self.check.as_str())?;
        Ok(Answer::Counts(check.counts()).into())
    }
}
