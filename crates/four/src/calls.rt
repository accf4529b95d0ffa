// Weighing and settling four stations and more, on the rows of a lent tally and the solved differences of their pairs.
ghost use Rattle.std.specs.Prelude.{◌≡◌, ◌≤◌, length};
ghost use Rattle.field.specs.Field.{page_limit};
ghost use Rattle.refusal.specs.Rules.{Within};
ghost use Rattle.scheme.specs.Four.{asked};
ghost use Rattle.tally.specs.Rows.{sum_in, tally_size};
ghost use Rattle.pairs.specs.Solving.{PairsSolved};
ghost use Rattle.four.specs.Outcomes.{WeighedFour, SettledFour};

use crate::settling::settle_aside;
use crate::weighing::{Weighing, weigh_rows};
use field::Field;
use pairs::PairGaps;
use tally::{Farm, Outcome};

/// What the first sums say: it is over, a page is split, the rows are filled, or a station is to be asked again.
pub fn weigh_four<F: Field>(farm: &Farm, gaps: &PairGaps, tally: &mut [u32]) -> Outcome
    requires least { 4 ≤ farm.now.stations }
    requires room { tally_size farm.now.stations farm.now.pages ≤ length tally.old }
    requires solved { PairsSolved F.Field.ops farm.now.stations farm.now.pages farm.now.bound (sum_in tally.old farm.now.pages) gaps.now }
    ensures { WeighedFour F.Field.ops farm.now.stations farm.now.pages farm.now.bound tally.old tally.new result }
{
    match weigh_rows::<F>(farm, gaps, tally) {
        Weighing::Ended(outcome) => outcome,
        Weighing::Doubted(aside) => Outcome::Asks(asked_again(aside)),
    }
}

/// What the first sums say and, where a station is asked again, all its sums.
pub fn settle_four<F: Field>(farm: &Farm, gaps: &PairGaps, tally: &mut [u32]) -> Outcome
    requires least { 4 ≤ farm.now.stations }
    requires narrow { Within 1 (page_limit F.Field.ops) farm.now.pages }
    requires room { tally_size farm.now.stations farm.now.pages ≤ length tally.old }
    requires solved { PairsSolved F.Field.ops farm.now.stations farm.now.pages farm.now.bound (sum_in tally.old farm.now.pages) gaps.now }
    ensures { SettledFour F.Field.ops farm.now.stations farm.now.pages farm.now.bound tally.old tally.new result }
{
    match weigh_rows::<F>(farm, gaps, tally) {
        Weighing::Ended(outcome) => outcome,
        Weighing::Doubted(aside) => settle_aside::<F, _>(farm, gaps, aside, tally),
    }
}

// Who is asked again where this station is in doubt: station 1 is the shop's own.
fn asked_again(aside: usize) -> usize
    ensures { result ≡ asked aside }
{
    if aside == 1 { 2 } else { aside }
}
