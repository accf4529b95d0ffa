// Serving: a request's words in, a reply's words out, once for every station.
ghost use Rattle.std.specs.Prelude.{◌≡◌, ◌+◌, ◌<◌, ◌≤◌, ◌++◌, map, length, take, drop, MatchResult};
ghost use Rattle.refusal.specs.Rules.{Refused, Accepted};
ghost use Rattle.wire.specs.Words;
ghost use Rattle.wire.specs.Requests.{request_words, values_due};
ghost use Rattle.station.specs.Serving.{serving, index_limit, answer, answers, InRange, ServedRequest, Served};

use crate::trait_station::Station;
use field::{Field, SUM_LIMIT};
use refusal::{Buffer, Refusal};
use wire::{Asked, Request};

/// Answers a request to the station with this number: how many words of the reply are written, 4 and one
/// for each value (docs/RULES.md, "Serving"); what stands after them in the buffer stays. Refused: the
/// lowest garbled position (8), another station (9, place 2), an index outside (11), a reply buffer that is
/// too short (2, place 2); the buffer is then what it was.
pub fn serve<F: Field, S: Station<F>>(
    station: &S,
    number: u32,
    words: &[u32],
    reply: &mut [u32],
) -> Result<usize, Refusal>
    ensures { Served F.Field.ops (S.Station.row station.now) number words.now reply.old reply.new result }
{
    let request = Request::read(words)?;
    serve_request::<F, S>(station, number, &request, reply)
}

// The same for a request that has been read.
fn serve_request<F: Field, S: Station<F>>(
    station: &S,
    number: u32,
    request: &Request,
    reply: &mut [u32],
) -> Result<usize, Refusal>
    ensures { ServedRequest F.Field.ops (S.Station.row station.now) number request.now
        reply.old reply.new result }
{
    admit::<F, S>(station, number, request, reply.len())?;
    let count = 4 + request.value_count();
    reply[..4].copy_from_slice(&request.words());
    write_answers::<F, S>(station, request, &mut reply[4..count]);
    Ok(count)
}

// Whether a request is answered.
fn admit<F: Field, S: Station<F>>(
    station: &S,
    number: u32,
    request: &Request,
    room: usize,
) -> Result<(), Refusal>
    ensures { MatchResult result
        (λ _. Accepted (serving (S.Station.row station.now) number request.now room))
        (Refused (serving (S.Station.row station.now) number request.now room)) }
{
    if request.station != number {
        return Err(Refusal::Foreign(2));
    }
    let limit = match request.asked {
        Asked::Sums => SUM_LIMIT,
        Asked::Signatures => station.page_count(),
    };
    if request.first < 1 || request.first > request.last || request.last as usize > limit {
        return Err(Refusal::Range);
    }
    if 4 + request.value_count() > room {
        return Err(Refusal::Cramped(Buffer::Other));
    }
    Ok(())
}

// Writes a value word for each answer.
fn write_answers<F: Field, S: Station<F>>(station: &S, request: &Request, values: &mut [u32])
    requires range { InRange (S.Station.row station.now) request.now }
    requires room { length values.old ≡ values_due request.now }
    ensures { values.new ≡ map (Words.word 6) (answers F.Field.ops (S.Station.row station.now) request.now) }
{
    for (k, value) in values.iter_mut().enumerate() {
        let answer = ask::<F, S>(station, request.asked, request.first as usize + k);
        *value = wire::value_word(answer);
    }
}

// One answer, within the range.
pub(crate) fn ask<F: Field, S: Station<F>>(station: &S, asked: Asked, index: usize) -> u32
    requires from { 1 ≤ index }
    requires to { index ≤ index_limit asked (S.Station.row station.now) }
    ensures value { result ≡ answer F.Field.ops (S.Station.row station.now) asked index }
    ensures code { result < F.Field.ops.size }
{
    let answer = match asked {
        Asked::Sums => station.sum(index),
        Asked::Signatures => station.signature(index),
    };
    answer.unwrap()
}
