// What a check did, in lines of text.
use crate::round::Round;
use calls::{Check, Closed, Verdict};
use example_field::Large;
use std::io;

/// The most pages that a station can have.
const PAGE_ROOM: usize = 1920;

/// Tells who was asked again, what was found, and what went over the links for it.
pub fn tell(rt: &impl Print, round: &Round<Large>, tally: &[u32]) -> io::Result<()> {
    if let Some(station) = round.asked_again {
        println!(rt; "station {station} was asked again")?;
    }
    match round.check.verdict() {
        Verdict::Report => tell_report(rt, &round.check, tally)?,
        Verdict::Split(page) => println!(rt; "page {page} has no majority")?,
        Verdict::Over => println!(rt; "there are more stray copies than the bound")?,
    }
    let counts = round.check.counts();
    let handed = counts.handed;
    let answered = counts.answered;
    let taken = counts.taken;
    println!(rt; "{handed} slips, {answered} answered, {taken} sums or signatures taken")
}

/// The bad pages of each station; listing is refused past the last one.
fn tell_report(rt: &impl Print, check: &Check<Large, Closed>, tally: &[u32]) -> io::Result<()> {
    let mut pages = [0; PAGE_ROOM];
    for station in 1..=8 {
        if let Ok(count) = check.list(station, tally, &mut pages) {
            tell_station(rt, station, &pages[..count])?;
        }
    }
    Ok(())
}

fn tell_station(rt: &impl Print, station: u32, pages: &[u32]) -> io::Result<()> {
    if pages.is_empty() {
        return println!(rt; "station {station}: as most");
    }
    println!(rt; "station {station}: pages {pages:?} differ from most")
}
