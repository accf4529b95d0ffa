// Weighing after the first asking, and settling after the second, for programs that hold plain numbers.
ghost use Rattle.std.specs.Prelude.{◌≡◌, length, MatchResult};
ghost use Rattle.refusal.specs.Rules.{Refused, Accepted};
ghost use Rattle.tally.specs.Judging.{judging};
ghost use Rattle.verdict.specs.Judging.{Weighed, Settled};

use crate::farms::{settle_farm, weigh_farm};
use field::Field;
use refusal::Refusal;
use tally::{Farm, Outcome};

/// What the first sums of all rows say, in a check that is not plain: it is over, a page is split, the rows are filled, or a station is to be
/// asked again (docs/RULES.md, "Weighing").
/// Refused: the number of stations, of pages, the bound, a tally that is too short; the tally is then what it was.
pub fn weigh<F: Field>(
    stations: usize,
    pages: usize,
    bound: usize,
    tally: &mut [u32],
) -> Result<Outcome, Refusal>
    ensures { MatchResult result
        (λ outcome. Accepted (judging F.Field.ops stations pages bound (length tally.old))
        × Weighed F.Field.ops stations pages bound tally.old tally.new outcome)
        (λ refusal. Refused (judging F.Field.ops stations pages bound (length tally.old)) refusal × (tally.new ≡ tally.old)) }
{
    let farm = Farm::judged::<F>(stations, pages, bound, tally)?;
    Ok(weigh_farm::<F>(&farm, tally))
}

/// What all sums say, once the station that was asked again has told its own: weighing is worked out anew from the tally. Refused as weighing is.
pub fn settle<F: Field>(
    stations: usize,
    pages: usize,
    bound: usize,
    tally: &mut [u32],
) -> Result<Outcome, Refusal>
    ensures { MatchResult result
        (λ outcome. Accepted (judging F.Field.ops stations pages bound (length tally.old))
        × Settled F.Field.ops stations pages bound tally.old tally.new outcome)
        (λ refusal. Refused (judging F.Field.ops stations pages bound (length tally.old)) refusal × (tally.new ≡ tally.old)) }
{
    let farm = Farm::judged::<F>(stations, pages, bound, tally)?;
    Ok(settle_farm::<F>(&farm, tally))
}
