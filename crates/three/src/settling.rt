// Settling three stations, once all sums are told.
ghost use Rattle.std.specs.Prelude.{◌≡◌, ◌≤◌, length, Some};
ghost use Rattle.field.specs.Field.{page_limit};
ghost use Rattle.refusal.specs.Rules.{Within};
ghost use Rattle.scheme.specs.Askings.{first_sums};
ghost use Rattle.tally.specs.Rows.{sum_in, tally_size};
ghost use Rattle.pairs.specs.Solving.{PairsSolved};
ghost use Rattle.three.specs.Outcomes.{SettledTaken, SettledThree};
ghost use Rattle.three.specs.Pairs.{LightestPair};

use crate::taking::{TakenPair, take_pair};
use crate::third::third;
use field::Field;
use pairs::{Difference, PairGaps, put_minus, solve_pair};
use tally::{Farm, Outcome};

/// Settles three stations by the sums in the tally: it is over, too, where no pair is solved, or the rows are filled.
pub fn settle_three<F: Field>(farm: &Farm, gaps: &PairGaps, tally: &mut [u32]) -> Outcome
    requires narrow { Within 1 (page_limit F.Field.ops) farm.now.pages }
    requires room { tally_size 3 farm.now.pages ≤ length tally.old }
    requires solved { PairsSolved F.Field.ops 3 farm.now.pages (first_sums 3 farm.now.bound) (sum_in tally.old farm.now.pages) gaps.now }
    ensures { SettledThree F.Field.ops farm.now.pages farm.now.bound tally.old tally.new result }
{
    match take_pair(gaps) {
        Some(taken) => settle_taken::<F>(farm, gaps, taken, tally),
        None => Outcome::Over,
    }
}

// Solves the difference of row 1 and the third by all sums; with it and that of the pair, fills the rows.
pub(crate) fn settle_taken<F: Field>(
    farm: &Farm,
    gaps: &PairGaps,
    taken: TakenPair,
    tally: &mut [u32],
) -> Outcome
    requires narrow { Within 1 (page_limit F.Field.ops) farm.now.pages }
    requires room { tally_size 3 farm.now.pages ≤ length tally.old }
    requires solved { PairsSolved F.Field.ops 3 farm.now.pages (first_sums 3 farm.now.bound) (sum_in tally.old farm.now.pages) gaps.now }
    requires taken_is { LightestPair gaps.now taken }
    ensures { SettledTaken F.Field.ops farm.now.pages farm.now.bound tally.old tally.new result }
{
    let other = third(taken.first, taken.second);
    let mut anew = Difference::none();
    solve_pair::<F>(
        &farm.rows(tally),
        1,
        other,
        farm.all_sums(),
        farm.bound,
        &mut anew,
    );
    if anew.weight.is_none() {
        return Outcome::Over;
    }
    let Some(difference) = gaps.held(taken.first, taken.second) else {
        unreachable()
    };
    put_minus::<F>(farm, tally, 1, other, &anew.list);
    put_minus::<F>(farm, tally, taken.first, taken.second, &difference.list);
    Outcome::Filled
}
