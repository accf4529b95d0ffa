// What may be asked of a station, and what is refused.
ghost use Rattle.std.specs.Prelude.{MatchResult};
ghost use Rattle.refusal.specs.Rules.{Refused, Accepted};
ghost use Rattle.station.specs.Questions.{asking_page};

use refusal::Refusal;

/// Refuses an index that is not from 1 to the last, by 11. A station of one's own asks this of each page,
/// with how many it has, and of each sum, with `SUM_LIMIT`.
pub fn accept_index(index: usize, last: usize) -> Result<(), Refusal>
    ensures { MatchResult result (λ _. Accepted (asking_page last index)) (Refused (asking_page last index)) }
{
    if (1..=last).contains(&index) {
        Ok(())
    } else {
        Err(Refusal::Range)
    }
}
