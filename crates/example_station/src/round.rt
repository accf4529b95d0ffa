// A whole check, through all its calls, over any field and any kind of station.
use calls::{Asking, Check, Closed, First, Returned, Weighed};
use field::Field;
use refusal::{Limit, Refusal};
use station::{SUM_LIMIT, Station, serve};

/// The most words of a reply: the header's four and the values.
const REPLY_ROOM: usize = 4 + SUM_LIMIT;

/// A check that closed, and the station that was asked again on the way.
#[derive(Drop)]
pub struct Round<F: Field> {
    pub check: Check<F, Closed>,
    pub asked_again: Option<u32>,
}

/// Checks the copies of a job, one at each station; the first station's is the shop's own.
/// The tally has a row for each station, of `pages + SUM_LIMIT` words. Refused is what the calls refuse.
pub fn check_farm<F: Field, S: Station<F>>(
    stations: &[S],
    pages: u32,
    bound: u32,
    tally: &mut [u32],
) -> Result<Round<F>, Refusal> {
    let [own, others @ ..] = stations else {
        return Err(Refusal::Size(Limit::Stations));
    };
    let count = u32::try_from(stations.len()).unwrap_or(u32::MAX);
    let mut check = Check::open(1, count, pages, bound, own, tally)?;
    for (number, station) in (2..).zip(others) {
        ask(&mut check, number, station, tally)?;
    }
    close(stations, check, tally)
}

/// Weighs what the stations said, and asks one of them again where that does not do.
fn close<F: Field, S: Station<F>>(
    stations: &[S],
    check: Check<F, First>,
    tally: &mut [u32],
) -> Result<Round<F>, Refusal> {
    match check.weigh(tally) {
        Ok(Weighed::Closes(check)) => Ok(Round {
            check,
            asked_again: None,
        }),
        Ok(Weighed::Asks(mut check)) => {
            let number = check.station();
            if let Some(station) = stations.get(number as usize - 1) {
                ask(&mut check, number, station, tally)?;
            }
            match check.settle(tally) {
                Ok(check) => Ok(Round {
                    check,
                    asked_again: Some(number),
                }),
                Err(declined) => Err(declined.refusal),
            }
        }
        Err(declined) => Err(declined.refusal),
    }
}

/// One exchange, in either asking. A slip must be returned, whatever came back.
fn ask<F: Field, P: Asking, S: Station<F>>(
    check: &mut Check<F, P>,
    number: u32,
    station: &S,
    tally: &mut [u32],
) -> Result<Returned, Refusal> {
    let mut request = [0; 4];
    let slip = check.slip(number, &mut request)?;
    // Over a link the request goes out here, and the reply's words come in.
    let mut reply = [0; REPLY_ROOM];
    let taken = match serve(station, number, &request, &mut reply) {
        Ok(count) => check.take(&slip, &reply[..count], tally),
        Err(refusal) => Err(refusal),
    };
    let returned = check.return_slip(slip)?;
    taken?;
    Ok(returned)
}
