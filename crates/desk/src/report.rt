// The lines of a verdict and of a report.
ghost use Rattle.std.specs.Prelude.{◌≡◌, ℕ, ◌+◌, ◌*◌, ◌<◌, ◌≤◌, List, [], ◌++◌, length, slice_index};
ghost use Rattle.refusal.specs.Rules.{Within};
ghost use Rattle.tally.specs.Rows.{tally_size};
ghost use Rattle.calls.specs.declared.phases.Verdict.TheVariants.{Report};
ghost use Rattle.calls.specs.Runs.{Call};
ghost use Rattle.desk.specs.Listings.{Listings, VerdictText};
ghost use Rattle.desk.specs.Lines.{copy_lines};

use crate::line;
use crate::room::{FINDINGS_ROOM, PAGE_ROOM};
use binary::Small;
use calls::{Check, Closed, Verdict};
use lines::Text;

// The lines of the verdict of a check that closed.
pub(crate) fn put_verdict(
    text: &mut Text<FINDINGS_ROOM>,
    stations: u32,
    check: &Check<Small, Closed>,
    tally: &[u32],
)
    requires none { text.old ≡ [] }
    requires stations { check.now.book.terms.farm.stations ≡ stations }
    requires room { tally_size stations check.now.book.terms.farm.pages ≤ length tally.now }
    ensures says { (lists : List Call) × VerdictText check.now.book.terms tally.now check.now.phase.verdict lists text.new }
    ensures short { length text.new ≤ 8 * 255 * 6 }
{
    match check.verdict() {
        Verdict::Over => line::put_over(text),
        Verdict::Split(page) => line::put_split(text, page),
        Verdict::Report => put_report(text, stations, check, tally),
    }
}

// A line for each bad copy, by station, then page.
fn put_report(
    text: &mut Text<FINDINGS_ROOM>,
    stations: u32,
    check: &Check<Small, Closed>,
    tally: &[u32],
)
    requires none { text.old ≡ [] }
    requires report { check.now.phase.verdict ≡ Report }
    requires stations { check.now.book.terms.farm.stations ≡ stations }
    requires room { tally_size stations check.now.book.terms.farm.pages ≤ length tally.now }
    ensures says { (lists : List Call) × Listings check.now.book.terms tally.now stations lists text.new }
    ensures short { length text.new ≤ 8 * 255 * 6 }
{
    let mut pages = [0; PAGE_ROOM];
    for station in 1..=stations {
        let count = check.list(station, tally, &mut pages).unwrap();
        put_pages(text, station, &pages[..count]);
    }
}

// A line for each of the pages of a station.
fn put_pages(text: &mut Text<FINDINGS_ROOM>, station: u32, pages: &[u32])
    requires station { station ≤ 8 }
    requires pages { (i : ℕ) → i < length pages.now → slice_index pages.now i ≤ 255 }
    requires room { length text.old + 6 * length pages.now ≤ 8 * 255 * 6 }
    ensures lines { text.new ≡ text.old ++ copy_lines station pages.now }
    ensures short { length text.new ≤ length text.old + 6 * length pages.now }
{
    for page in pages {
        line::put_copy(text, station, *page);
    }
}
