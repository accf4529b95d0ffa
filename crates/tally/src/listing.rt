// Listing the bad pages of one station.
ghost use Rattle.std.specs.Prelude.{◌≡◌, ◌≤◌, ◌++◌, length, drop, MatchResult};
ghost use Rattle.refusal.specs.declared.Buffer.TheVariants.{Other};
ghost use Rattle.refusal.specs.declared.Refusal.TheVariants.{Cramped};
ghost use Rattle.scheme.specs.Farm.{Bad};
ghost use Rattle.tally.specs.Listing.{Listed, Crowded, bad_pages};
ghost use Rattle.tally.specs.Rows.{signature_in};

use crate::rows::Rows;
use refusal::{Buffer, Refusal};

// Writes the bad pages of the station, rising, and tells how many there are. Where there are more than places, nothing is written.
pub fn list_bad(
    tally: &[u32],
    stations: usize,
    pages: u32,
    station: usize,
    out: &mut [u32],
) -> Result<usize, Refusal>
    ensures { MatchResult result
        (λ count. Listed pages (Bad stations (signature_in tally.now pages) station) out.old out.new count)
        (λ refusal. (refusal ≡ Cramped Other) × Crowded pages (Bad stations (signature_in tally.now pages) station) out.old out.new) }
{
    let rows = Rows {
        words: tally,
        stations,
        pages: pages as usize,
    };
    let count = count_bad(&rows, pages, station);
    if out.len() < count {
        return Err(Refusal::Cramped(Buffer::Other));
    }
    write_bad(&rows, pages, station, out);
    Ok(count)
}

// How many of the pages 1 to `pages` of the station are bad.
fn count_bad(rows: &Rows, pages: u32, station: usize) -> usize
    ensures { result ≡ length (bad_pages rows.now.stations (signature_in rows.now.words.now rows.now.pages) station pages) }
{
    (1..=pages)
        .filter(|page| rows.is_bad(station, *page as usize))
        .count()
}

// Writes the bad pages, for which there are places.
fn write_bad(rows: &Rows, pages: u32, station: usize, out: &mut [u32])
    requires { length (bad_pages rows.now.stations (signature_in rows.now.words.now rows.now.pages) station pages) ≤ length out.old }
    ensures { out.new
        ≡ bad_pages rows.now.stations (signature_in rows.now.words.now rows.now.pages) station pages
        ++ drop (length (bad_pages rows.now.stations (signature_in rows.now.words.now rows.now.pages) station pages)) out.old }
{
    let mut count = 0;
    // Counted by hand: after a loop over the places and the bad pages side by side nothing is known of what was written.
    for before in 0..pages {
        if rows.is_bad(station, before as usize + 1) {
            out[count] = before + 1;
            count += 1;
        }
    }
}
