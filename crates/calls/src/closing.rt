// What weighing and settling share: what they refuse, and closing on rows that are filled.
ghost use Rattle.std.specs.Prelude.{◌≡◌, ℕ, ◌≤◌, MatchResult, MatchOption};
ghost use Rattle.refusal.specs.Rules.{Refused, Accepted, LowestAt};
ghost use Rattle.tally.specs.declared.outcome.Outcome.TheVariants.{Asks};
ghost use Rattle.calls.specs.Closing;
ghost use Rattle.calls.specs.Closing.{StillOut, Lacking};
ghost use Rattle.calls.specs.Endings.{ClosesOn, EndsIn};

use crate::book::Book;
use crate::ending::Ending;
use crate::phases::Verdict;
use crate::standing::Standing;
use crate::terms::Terms;
use refusal::{Buffer, Refusal};
use tally::Outcome;

impl Book {
    // Whether the asking can end.
    pub(crate) fn can_close(&self, room: usize) -> Result<(), Refusal>
        ensures { MatchResult result (λ _. Accepted (Closing.closing self.now room)) (Refused (Closing.closing self.now room)) }
    {
        if self.terms.farm.tally_size() > room {
            return Err(Refusal::Cramped(Buffer::Tally));
        }
        if let Some(station) = self.lowest_out() {
            return Err(Refusal::Out(station));
        }
        if let Some(station) = self.lowest_lacking() {
            return Err(Refusal::Missing(station));
        }
        Ok(())
    }

    // The lowest station whose slip is out.
    fn lowest_out(&self) -> Option<u32>
        ensures { MatchOption result ((s : ℕ) → StillOut self.now s → ⊥) (λ s. LowestAt (StillOut self.now) s) }
    {
        (2..=self.terms.farm.stations as u32).find(|station| self.standing(*station).is_out())
    }

    // The lowest station whose reply is lacking.
    fn lowest_lacking(&self) -> Option<u32>
        ensures { MatchOption result ((s : ℕ) → Lacking self.now s → ⊥) (λ s. LowestAt (Lacking self.now) s) }
    {
        (2..=self.terms.farm.stations as u32).find(|station| self.standing(*station)
            != Standing::Done)
    }
}

impl Terms {
    // What rows that are filled close with.
    pub(crate) fn close_on(&self, tally: &[u32]) -> Verdict
        ensures { ClosesOn self.now.farm.stations self.now.farm.pages tally.now result }
    {
        match self.farm.rows(tally).first_split() {
            Some(page) => Verdict::Split(page),
            None => Verdict::Report,
        }
    }

    // What an outcome of the rules ends in.
    pub(crate) fn ending_of(&self, outcome: Outcome, tally: &[u32]) -> Ending
        requires { (k : ℕ) → outcome ≡ Asks k → k ≤ 8 }
        ensures { EndsIn self.now.farm.stations self.now.farm.pages tally.now outcome result }
    {
        match outcome {
            Outcome::Over => Ending::Closes(Verdict::Over),
            Outcome::Split(page) => Ending::Closes(Verdict::Split(page)),
            Outcome::Filled => Ending::Closes(self.close_on(tally)),
            Outcome::Asks(station) => Ending::Asks(station as u32),
        }
    }
}
