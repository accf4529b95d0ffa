// Weighing: the end of the first asking.
ghost use Rattle.std.specs.Prelude.{◌≡◌, ◌≤◌, length};
ghost use Rattle.field.specs.Field.{page_limit};
ghost use Rattle.refusal.specs.Rules.{Within};
ghost use Rattle.tally.specs.Rows.{tally_size};
ghost use Rattle.calls.specs.declared.standing.Standing.TheVariants.{Done};
ghost use Rattle.calls.specs.Slips;
ghost use Rattle.calls.specs.Closing.{Again};
ghost use Rattle.calls.specs.Endings.{WeighedAs};

use crate::book::Book;
use crate::ending::Ending;
use crate::standing::Standing;
use crate::terms::Terms;
use field::Field;
use verdict::weigh_farm;

impl Book {
    // The book of the second asking: the station's slip and reply count afresh.
    pub(crate) fn ask_again(self, station: u32) -> Book
        requires station { station ≤ 8 }
        requires done { Slips.standing self station ≡ Done }
        ensures { Again self station result }
    {
        let mut standings = self.standings;
        standings[station as usize] = Standing::Free;
        Book {
            terms: self.terms,
            question: self.terms.second_question(),
            standings,
            counts: self.counts,
        }
    }
}

impl Terms {
    // What the rows in a plain check, and the sums in any other, end in.
    pub(crate) fn weigh_rows<F: Field>(&self, tally: &mut [u32]) -> Ending
        requires pages { Within 1 (page_limit F.Field.ops) self.now.farm.pages }
        requires room { tally_size self.now.farm.stations self.now.farm.pages ≤ length tally.old }
        ensures { WeighedAs F.Field.ops self.now tally.old tally.new result }
    {
        if self.farm.is_plain() {
            return Ending::Closes(self.close_on(tally));
        }
        let outcome = weigh_farm::<F>(&self.farm, tally);
        self.ending_of(outcome, tally)
    }
}
