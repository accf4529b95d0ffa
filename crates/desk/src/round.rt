// The round of a check of cards.
ghost use Rattle.std.specs.Prelude.{◌≡◌, ◌+◌, ◌*◌, List, ℕ, length, MatchResult};
ghost use Rattle.field.specs.Field.{page_limit};
ghost use Rattle.refusal.specs.Rules.{Refused, Accepted, Within};
ghost use Rattle.calls.specs.Promise.{EveryRun};
ghost use Rattle.desk.specs.Copies.{checking};
ghost use Rattle.desk.specs.Going.{Going, Checked};

use crate::copies::{accept_length, card_of};
use crate::exchange::ask;
use calls::{Check, Closed, First, Weighed};
use field::Field;
use refusal::Refusal;
use tally::Farm;

// The number of the check that a desk runs.
const CHECK_NUMBER: u32 = 1;

/// Checks the cards of a farm, station by station in one list of words, through all calls of a check; the first card is the shop's own copy.
/// Refused: more pages than the field has places (1, place 3), the first word that is missing or surplus (8, its position), then a tally that is
/// too short (2, place 1); then nothing changes. Rules: docs/RULES.md, "A desk".
pub fn check_cards<F: Field>(
    farm: &Farm,
    words: &[u32],
    tally: &mut [u32],
) -> Result<Check<F, Closed>, Refusal>
    ensures { MatchResult result
        (λ check. Accepted (checking F.Field.ops farm.now.stations farm.now.pages (length words.now) (length tally.old))
        × Checked farm.now.stations farm.now.pages farm.now.bound F.Field.ops words.now tally.old check.book check.phase.verdict tally.new)
        (λ refusal. Refused (checking F.Field.ops farm.now.stations farm.now.pages (length words.now) (length tally.old)) refusal × (tally.new ≡ tally.old)) }
{
    page::accept_pages::<F>(farm.pages)?;
    accept_length(farm.stations * farm.pages, words.len())?;
    let own = card_of::<F>(farm, words, 1);
    let mut check = Check::open(
        CHECK_NUMBER,
        farm.stations as u32,
        farm.pages as u32,
        farm.bound as u32,
        &own,
        tally,
    )?;
    ask_all(farm, words, &mut check, tally);
    Ok(close(farm, words, check, tally))
}

// The first asking: every station but the first, one after the other.
fn ask_all<F: Field>(farm: &Farm, words: &[u32], check: &mut Check<F, First>, tally: &mut [u32])
    requires narrow { Within 1 (page_limit F.Field.ops) farm.now.pages }
    requires whole { length words.now ≡ farm.now.stations * farm.now.pages }
    requires going { (before : List ℕ) × Going farm.now.stations farm.now.pages farm.now.bound F.Field.ops words.now before 2 check.old.book tally.old }
    ensures { (before : List ℕ) → Going farm.now.stations farm.now.pages farm.now.bound F.Field.ops words.now before 2 check.old.book tally.old
        → Going farm.now.stations farm.now.pages farm.now.bound F.Field.ops words.now before (farm.now.stations + 1) check.new.book tally.new }
{
    for station in 2..=farm.stations {
        let card = card_of::<F>(farm, words, station);
        ask(check, station as u32, &card, tally);
    }
}

// The end of the first asking and, where a station is asked again, the second.
fn close<F: Field>(
    farm: &Farm,
    words: &[u32],
    check: Check<F, First>,
    tally: &mut [u32],
) -> Check<F, Closed>
    requires promise { EveryRun }
    requires narrow { Within 1 (page_limit F.Field.ops) farm.now.pages }
    requires whole { length words.now ≡ farm.now.stations * farm.now.pages }
    requires going { (before : List ℕ) × Going farm.now.stations farm.now.pages farm.now.bound F.Field.ops words.now before (farm.now.stations + 1) check.book tally.old }
    ensures { (before : List ℕ) → Going farm.now.stations farm.now.pages farm.now.bound F.Field.ops words.now before (farm.now.stations + 1) check.book tally.old
        → Checked farm.now.stations farm.now.pages farm.now.bound F.Field.ops words.now before result.book result.phase.verdict tally.new }
{
    match check.weigh(tally) {
        Ok(Weighed::Closes(closed)) => closed,
        Ok(Weighed::Asks(mut again)) => {
            let station = again.station();
            let card = card_of::<F>(farm, words, station as usize);
            ask(&mut again, station, &card, tally);
            match again.settle(tally) {
                Ok(closed) => closed,
                Err(_) => unreachable(),
            }
        }
        Err(_) => unreachable(),
    }
}
