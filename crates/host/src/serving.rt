// Serving a request from a card or from a job, for programs in C and Rust.
ghost use Rattle.host.specs.Ending.{lent, EndsIn};
ghost use Rattle.host.specs.Serving.{Serves, ServesCard, ServesJob};

use crate::status::{DONE, NO_FIELD, refuse};
use binary::{Small, Wide};
use field::Field;
use fields::FieldName;
use prime::Prime;
use station::{Card, Shelf, Station, serve};

// Serves a request to the station with this number from a card, in a field: 1 small, 2 wide, 3 prime.
// Returns 0: `count` words of the reply are written. 255: no such field. Else the refusal's number, with its place.
#[unsafe(no_mangle)]
pub extern "C" fn wulambey_serve_card(
    field: u32,
    card: &[u32],
    station: u32,
    request: &[u32],
    reply: &mut [u32],
    count: &mut usize,
    place: &mut usize,
) -> u32
    ensures { EndsIn field (λ f. ServesCard f card.now station request.now) (lent reply.old count.old place.old) (lent reply.new count.new place.new) result }
{
    match FieldName::try_from(field) {
        Ok(FieldName::Small) => card_in::<Small>(card, station, request, reply, count, place),
        Ok(FieldName::Wide) => card_in::<Wide>(card, station, request, reply, count, place),
        Ok(FieldName::Prime) => card_in::<Prime>(card, station, request, reply, count, place),
        Err(_) => NO_FIELD,
    }
}

fn card_in<F: Field>(
    card: &[u32],
    station: u32,
    request: &[u32],
    reply: &mut [u32],
    count: &mut usize,
    place: &mut usize,
) -> u32
    ensures { ServesCard F.Field.ops card.now station request.now (lent reply.old count.old place.old) (lent reply.new count.new place.new) result }
{
    match Card::<F>::new(card) {
        Ok(card) => serve_from(&card, station, request, reply, count, place),
        Err(refusal) => refuse(refusal, place),
    }
}

// The same from a job's bytes, in pages of `length` bytes.
#[unsafe(no_mangle)]
pub extern "C" fn wulambey_serve_job(
    field: u32,
    job: &[u8],
    length: usize,
    station: u32,
    request: &[u32],
    reply: &mut [u32],
    count: &mut usize,
    place: &mut usize,
) -> u32
    ensures { EndsIn field (λ f. ServesJob f length job.now station request.now) (lent reply.old count.old place.old) (lent reply.new count.new place.new) result }
{
    match FieldName::try_from(field) {
        Ok(FieldName::Small) => job_in::<Small>(job, length, station, request, reply, count, place),
        Ok(FieldName::Wide) => job_in::<Wide>(job, length, station, request, reply, count, place),
        Ok(FieldName::Prime) => job_in::<Prime>(job, length, station, request, reply, count, place),
        Err(_) => NO_FIELD,
    }
}

fn job_in<F: Field>(
    job: &[u8],
    length: usize,
    station: u32,
    request: &[u32],
    reply: &mut [u32],
    count: &mut usize,
    place: &mut usize,
) -> u32
    ensures { ServesJob F.Field.ops length job.now station request.now (lent reply.old count.old place.old) (lent reply.new count.new place.new) result }
{
    match Shelf::<F>::new(job, length) {
        Ok(shelf) => serve_from(&shelf, station, request, reply, count, place),
        Err(refusal) => refuse(refusal, place),
    }
}

fn serve_from<F: Field, S: Station<F>>(
    station: &S,
    number: u32,
    request: &[u32],
    reply: &mut [u32],
    count: &mut usize,
    place: &mut usize,
) -> u32
    ensures { Serves F.Field.ops (S.Station.row station.now) number request.now (lent reply.old count.old place.old) (lent reply.new count.new place.new) result }
{
    match serve(station, number, request, reply) {
        Ok(written) => {
            *count = written;
            DONE
        }
        Err(refusal) => refuse(refusal, place),
    }
}
