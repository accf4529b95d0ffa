// Weighing three stations, once the first sums are told.
ghost use Rattle.std.specs.Prelude.{◌≡◌, ◌≤◌, length};
ghost use Rattle.field.specs.Field.{page_limit};
ghost use Rattle.refusal.specs.Rules.{Within};
ghost use Rattle.scheme.specs.Askings.{first_sums};
ghost use Rattle.tally.specs.Rows.{sum_in, tally_size};
ghost use Rattle.pairs.specs.Solving.{PairsSolved};
ghost use Rattle.three.specs.Outcomes.{WeighedThree};

use crate::settling::settle_taken;
use crate::taking::take_pair;
use crate::third::third;
use field::Field;
use pairs::PairGaps;
use tally::{Farm, Outcome};

/// Weighs three stations by the first sums in the tally; without more sums to ask for, this settles them too. No page is split.
pub fn weigh_three<F: Field>(farm: &Farm, gaps: &PairGaps, tally: &mut [u32]) -> Outcome
    requires three { farm.now.stations ≡ 3 }
    requires narrow { Within 1 (page_limit F.Field.ops) farm.now.pages }
    requires room { tally_size 3 farm.now.pages ≤ length tally.old }
    requires solved { PairsSolved F.Field.ops 3 farm.now.pages (first_sums 3 farm.now.bound) (sum_in tally.old farm.now.pages) gaps.now }
    ensures { WeighedThree F.Field.ops farm.now.pages farm.now.bound tally.old tally.new result }
{
    let Some(taken) = take_pair(gaps) else {
        return Outcome::Over;
    };
    if farm.all_sums() > farm.first_sums() {
        return Outcome::Asks(third(taken.first, taken.second));
    }
    settle_taken::<F>(farm, gaps, taken, tally)
}
