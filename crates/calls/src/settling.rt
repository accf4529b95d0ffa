// Settling: the end of the second asking.
ghost use Rattle.std.specs.Prelude.{◌≡◌, ◌≤◌, length};
ghost use Rattle.field.specs.Field.{page_limit};
ghost use Rattle.refusal.specs.Rules.{Within};
ghost use Rattle.tally.specs.Rows.{tally_size};
ghost use Rattle.calls.specs.Closing.{SettleEnds, ClosesWith};

use crate::ending::Ending;
use crate::phases::Verdict;
use crate::terms::Terms;
use field::Field;
use verdict::settle_farm;

impl Terms {
    // What all sums come to.
    pub(crate) fn settle_rows<F: Field>(&self, tally: &mut [u32]) -> Verdict
        requires pages { Within 1 (page_limit F.Field.ops) self.now.farm.pages }
        requires room { tally_size self.now.farm.stations self.now.farm.pages ≤ length tally.old }
        ensures { ClosesWith (SettleEnds F.Field.ops self.now tally.old) self.now.farm.stations self.now.farm.pages tally.old tally.new result }
    {
        let outcome = settle_farm::<F>(&self.farm, tally);
        match self.ending_of(outcome, tally) {
            Ending::Closes(verdict) => verdict,
            Ending::Asks(_) => unreachable(),
        }
    }
}
