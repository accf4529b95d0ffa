// Two checks worked through all their calls: what their cards come to, as one theorem.
ghost use Rattle.std.specs.Prelude.{◌≡◌, length, List, ℕ};
ghost use Rattle.prime.specs.Prime.{prime};
ghost use Rattle.refusal.specs.Rules.{Within};
ghost use Rattle.desk.specs.Going.{Checked};
ghost use Rattle.worked.specs.Checks.{WorkedChecks};

use calls::{Check, Closed};
use desk::check_cards;
use prime::Prime;
use tally::{Farm, SUM_COUNT};

const STATIONS: usize = 4;

const PAGES: usize = 3;

pub(crate) fn worked_checks()
    ensures { WorkedChecks }
{
    check_four(1, &[3, 0, 5, 3, 0, 5, 3, 0, 5, 3, 7, 5]);
    check_four(2, &[5, 0, 0, 5, 0, 0, 6, 0, 0, 6, 0, 0]);
}

// Checks the cards of four stations, three pages each.
fn check_four(bound: usize, words: &[u32]) -> Check<Prime, Closed>
    requires bound_in { Within 1 64 bound }
    requires whole { length words.now ≡ 12 }
    ensures { (before after : List ℕ) × Checked 4 3 bound prime words.now before result.book result.phase.verdict after }
{
    let farm = match Farm::new::<Prime>(STATIONS, PAGES, bound) {
        Ok(farm) => farm,
        Err(_) => unreachable(),
    };
    let mut tally = [0u32; STATIONS * (PAGES + SUM_COUNT)];
    match check_cards(&farm, words, &mut tally) {
        Ok(check) => check,
        Err(_) => unreachable(),
    }
}
