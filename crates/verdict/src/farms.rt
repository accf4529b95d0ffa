// Weighing and settling a farm, whose numbers are within their limits and whose tally has its rows.
ghost use Rattle.std.specs.Prelude.{◌≤◌, length};
ghost use Rattle.field.specs.Field.{page_limit};
ghost use Rattle.refusal.specs.Rules.{Within};
ghost use Rattle.tally.specs.Rows.{tally_size};
ghost use Rattle.verdict.specs.Judging.{Weighed, Settled};

use field::Field;
use four::{settle_four, weigh_four};
use pairs::{PairGaps, solve_pairs};
use tally::{Farm, Outcome};
use three::{settle_three, weigh_three};

/// What the first sums of all rows say, in a check that is not plain.
pub fn weigh_farm<F: Field>(farm: &Farm, tally: &mut [u32]) -> Outcome
    requires narrow { Within 1 (page_limit F.Field.ops) farm.now.pages }
    requires room { tally_size farm.now.stations farm.now.pages ≤ length tally.old }
    ensures { Weighed F.Field.ops farm.now.stations farm.now.pages farm.now.bound tally.old tally.new result }
{
    // Made here and lent from here on: a copy would be some 58 KB of stack.
    let mut gaps = PairGaps::none();
    solve_pairs::<F>(farm, tally, &mut gaps);
    if farm.stations == 3 {
        weigh_three::<F>(farm, &gaps, tally)
    } else {
        weigh_four::<F>(farm, &gaps, tally)
    }
}

/// What all sums say, once the station that was asked again has told its own.
pub fn settle_farm<F: Field>(farm: &Farm, tally: &mut [u32]) -> Outcome
    requires narrow { Within 1 (page_limit F.Field.ops) farm.now.pages }
    requires room { tally_size farm.now.stations farm.now.pages ≤ length tally.old }
    ensures { Settled F.Field.ops farm.now.stations farm.now.pages farm.now.bound tally.old tally.new result }
{
    let mut gaps = PairGaps::none();
    solve_pairs::<F>(farm, tally, &mut gaps);
    if farm.stations == 3 {
        settle_three::<F>(farm, &gaps, tally)
    } else {
        settle_four::<F>(farm, &gaps, tally)
    }
}
