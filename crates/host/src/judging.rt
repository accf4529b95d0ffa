// Weighing and settling a tally for programs in C and Rust.
ghost use Rattle.verdict.specs.Judging.{Weighed, Settled};
ghost use Rattle.host.specs.Ending.{EndsIn};
ghost use Rattle.host.specs.Judging.{Judges, Told};

use crate::status::{ASKS, DONE, NO_FIELD, OVER, SPLIT, refuse};
use binary::{Small, Wide};
use fields::FieldName;
use prime::Prime;
use refusal::Refusal;
use verdict::Outcome;

// Weighs in the field with this number: 1 small, 2 wide, 3 prime.
// Returns 0: the rows are filled. 251: over. 252: split at the page in `place`. 253: the station in `place` is to be asked again.
// 255: no such field. Else the refusal's number, with its place.
#[unsafe(no_mangle)]
pub extern "C" fn wulambey_weigh(
    field: u32,
    stations: usize,
    pages: usize,
    bound: usize,
    tally: &mut [u32],
    place: &mut usize,
) -> u32
    ensures { EndsIn field (Judges Weighed stations pages bound)
        (record { filled = tally.old; place = place.old }) (record { filled = tally.new; place = place.new }) result }
{
    match FieldName::try_from(field) {
        Ok(FieldName::Small) => tell(
            verdict::weigh::<Small>(stations, pages, bound, tally),
            place,
        ),
        Ok(FieldName::Wide) => tell(verdict::weigh::<Wide>(stations, pages, bound, tally), place),
        Ok(FieldName::Prime) => tell(
            verdict::weigh::<Prime>(stations, pages, bound, tally),
            place,
        ),
        Err(_) => NO_FIELD,
    }
}

// Settles in the field with this number, once the station has been asked again; returns what weighing does.
#[unsafe(no_mangle)]
pub extern "C" fn wulambey_settle(
    field: u32,
    stations: usize,
    pages: usize,
    bound: usize,
    tally: &mut [u32],
    place: &mut usize,
) -> u32
    ensures { EndsIn field (Judges Settled stations pages bound)
        (record { filled = tally.old; place = place.old }) (record { filled = tally.new; place = place.new }) result }
{
    match FieldName::try_from(field) {
        Ok(FieldName::Small) => tell(
            verdict::settle::<Small>(stations, pages, bound, tally),
            place,
        ),
        Ok(FieldName::Wide) => tell(
            verdict::settle::<Wide>(stations, pages, bound, tally),
            place,
        ),
        Ok(FieldName::Prime) => tell(
            verdict::settle::<Prime>(stations, pages, bound, tally),
            place,
        ),
        Err(_) => NO_FIELD,
    }
}

// A judgement as a number, with a page, a station or the refusal's place beside it.
fn tell(judged: Result<Outcome, Refusal>, place: &mut usize) -> u32
    ensures { Told judged place.old place.new result }
{
    match judged {
        Ok(Outcome::Filled) => DONE,
        Ok(Outcome::Over) => OVER,
        Ok(Outcome::Split(page)) => {
            *place = page;
            SPLIT
        }
        Ok(Outcome::Asks(station)) => {
            *place = station;
            ASKS
        }
        Err(refusal) => refuse(refusal, place),
    }
}
