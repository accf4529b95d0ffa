// Reading a reply against its request.
ghost use Rattle.std.specs.Prelude.{◌≡◌, MatchOption, MatchResult};
ghost use Rattle.refusal.specs.Rules.{Refused, Accepted, LowestAt};
ghost use Rattle.wire.specs.Requests.{request_words};
ghost use Rattle.wire.specs.Reading.{ForeignAt, Reply, reading_reply};

use crate::garbled::first_garbled;
use crate::request::Request;
use field::Field;
use refusal::Refusal;

/// The value words of a reply to the request, each with a code of the field. Refused: the lowest garbled
/// position (8), then the lowest position at which the header is not the request's (9).
pub fn read_reply<'a, F: Field>(request: &Request, words: &'a [u32]) -> Result<&'a [u32], Refusal>
    ensures { MatchResult result
        (λ values. Accepted (reading_reply F.Field.ops request.now words.now)
        × Reply F.Field.ops request.now words.now values.now)
        (Refused (reading_reply F.Field.ops request.now words.now)) }
{
    if let Some(position) = first_garbled(F::SIZE, request.value_count(), words) {
        return Err(Refusal::Garbled(position));
    }
    let [check, station, first, last, values @ ..] = words else {
        unreachable()
    };
    match first_foreign(request, [*check, *station, *first, *last]) {
        Some(position) => Err(Refusal::Foreign(position)),
        None => Ok(values),
    }
}

// The lowest position at which the header is not the request's.
fn first_foreign(request: &Request, header: [u32; 4]) -> Option<usize>
    ensures { MatchOption result
        (header ≡ request_words request.now)
        (λ position. LowestAt (ForeignAt request.now header) position) }
{
    let due = request.words();
    header
        .iter()
        .zip(due.iter())
        .position(|(word, due)| word != due)
        .map(|before| before + 1)
}
