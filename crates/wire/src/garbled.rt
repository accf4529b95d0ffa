// Where a request or a reply is garbled.
ghost use Rattle.std.specs.Prelude.{◌≡◌, ℕ, ◌+◌, ◌^◌, ◌<◌, ◌≤◌, MatchBool, MatchOption};
ghost use Rattle.refusal.specs.Rules.{LowestAt};
ghost use Rattle.wire.specs.Reading.{WellFormed, GarbledAt, Whole};

use crate::asked::Asked;
use crate::kind::Kind;
use crate::words::{has_kind, value};

// Whether a word may stand at this position, from 1: the header's kinds, then values below the limit.
fn well_formed(limit: u32, position: usize, word: u32) -> bool
    requires { 1 ≤ position }
    ensures { MatchBool result (WellFormed limit position word) (WellFormed limit position word → ⊥) }
{
    match position {
        1 => has_kind(word, Kind::Check),
        2 => has_kind(word, Kind::Station),
        3 => {
            has_kind(word, Kind::First(Asked::Sums))
                || has_kind(word, Kind::First(Asked::Signatures))
        }
        4 => has_kind(word, Kind::Last),
        _ => has_kind(word, Kind::Value) && value(word) < limit,
    }
}

// The lowest position at which a header and so many values are garbled.
pub(crate) fn first_garbled(limit: u32, values: usize, words: &[u32]) -> Option<usize>
    requires { values < 2 ^ 32 }
    ensures { MatchOption result
        (Whole limit values words.now)
        (λ position. LowestAt (GarbledAt limit values words.now) position) }
{
    let due = 4 + values;
    let both = words.len().min(due);
    for (before, word) in words[..both].iter().enumerate() {
        if !well_formed(limit, before + 1, *word) {
            return Some(before + 1);
        }
    }
    if words.len() == due {
        None
    } else {
        Some(both + 1)
    }
}
