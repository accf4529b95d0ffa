// A request: which check asks which station, for what, from which index to which.
ghost use Rattle.std.specs.Prelude.{◌≡◌, ◌<◌, MatchOption, MatchResult};
ghost use Rattle.field.specs.declared.limits.TheConstants.{VALUE_LIMIT};

use crate::asked::Asked;
use crate::garbled::first_garbled;
use crate::kind::Kind;
use crate::words::{has_kind, value, word};
use field::VALUE_LIMIT;
use refusal::Refusal;

/// A request: four words on the link (docs/RULES.md, "Words on the link"). Each number fits the 28 bits of
/// a word's value.
#[derive(Clone, Copy)]
pub struct Request {
    /// the number of the check that asks
    pub check: u32,
    /// the station that is asked
    pub station: u32,
    /// what it is asked for
    pub asked: Asked,
    /// the first page, or the first sum
    pub first: u32,
    /// the last one; no value is asked for where it is below the first
    pub last: u32,
    ghost narrow: { (check < VALUE_LIMIT) × (station < VALUE_LIMIT)
        × (first < VALUE_LIMIT) × (last < VALUE_LIMIT) },
}

impl Request {
    ghost use Rattle.refusal.specs.Rules.{Refused, Accepted};
    ghost use Rattle.wire.specs.Reading.{reading_request};
    ghost use Rattle.wire.specs.Requests.{Narrow, Holds, request_words, values_due};

    /// A request, if each number fits the 28 bits of a word's value; else None.
    pub fn new(check: u32, station: u32, asked: Asked, first: u32, last: u32) -> Option<Request>
        ensures { MatchOption result
            (Narrow check station first last → ⊥)
            (λ q. Holds q check station asked first last) }
    {
        if check < VALUE_LIMIT
            && station < VALUE_LIMIT
            && first < VALUE_LIMIT
            && last < VALUE_LIMIT
        {
            Some(Request {
                check,
                station,
                asked,
                first,
                last,
            })
        } else {
            None
        }
    }

    /// The request that these words carry. Refused: the lowest garbled position (8).
    /// Whether its indices make sense is not asked here: serving refuses those that do not.
    pub fn read(words: &[u32]) -> Result<Request, Refusal>
        ensures { MatchResult result
            (λ q. Accepted (reading_request words.now) × (words.now ≡ request_words q))
            (Refused (reading_request words.now)) }
    {
        if let Some(position) = first_garbled(0, 0, words) {
            return Err(Refusal::Garbled(position));
        }
        let [check, station, first, last] = words else {
            unreachable()
        };
        let asked = if has_kind(*first, Kind::First(Asked::Sums)) {
            Asked::Sums
        } else {
            Asked::Signatures
        };
        Ok(Request {
            check: value(*check),
            station: value(*station),
            asked,
            first: value(*first),
            last: value(*last),
        })
    }

    /// How many values it asks for.
    pub fn value_count(&self) -> usize
        ensures { result ≡ values_due self.now }
    {
        (self.last as usize + 1).saturating_sub(self.first as usize)
    }

    /// The four words that are sent: check, station, first index, last index.
    pub fn words(&self) -> [u32; 4]
        ensures { result ≡ request_words self.now }
    {
        [
            word(Kind::Check, self.check),
            word(Kind::Station, self.station),
            word(Kind::First(self.asked), self.first),
            word(Kind::Last, self.last),
        ]
    }
}
