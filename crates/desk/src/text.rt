// All the bytes that a desk writes for the bytes of a farm.
ghost use Rattle.std.specs.Prelude.{◌≡◌, ◌*◌, ◌≤◌, [], length, IsOk, MatchResult};
ghost use Rattle.field.specs.Field.{page_limit};
ghost use Rattle.binary.specs.Binary.{small};
ghost use Rattle.refusal.specs.Rules.{Refused, Accepted, Within};
ghost use Rattle.lines.specs.Text.{Answers};
ghost use Rattle.desk.specs.Findings.{reading, stations_of, pages_of, bound_of, FarmText, FindingsText};

use crate::copies::accept_length;
use crate::line;
use crate::report::put_verdict;
use crate::room::{FINDINGS_ROOM, TALLY_ROOM, WORD_ROOM};
use crate::round::check_cards;
use arrayvec::ArrayVec;
use binary::Small;
use lines::{Text, Written};
use refusal::Refusal;
use tally::Farm;

/// Writes the findings on a farm of cards in the small field at the front of `out`: a line for each bad copy, or the page that is split, or `over`, and
/// then how many sums were taken; or the line of a refusal, which the result then names. A buffer of `FINDINGS_ROOM` bytes is always long enough.
/// The line is of the first that is wrong: fewer than three bytes, the stations, the pages, the bound, a byte that is missing or surplus.
/// Refused: a buffer that is shorter than the text (2, place 2), which then stays as it was.
pub fn findings(input: &[u8], out: &mut [u8]) -> Result<Written, Refusal>
    ensures answers { Answers (FindingsText input.now) out.old result out.new }
    ensures enough { FINDINGS_ROOM ≤ length out.old → IsOk result }
{
    let mut text = Text::<FINDINGS_ROOM>::new();
    let refused = put_findings(&mut text, input);
    let count = text.write_to(out)?;
    Ok(Written { count, refused })
}

// The findings, or the line of a refusal.
fn put_findings(text: &mut Text<FINDINGS_ROOM>, input: &[u8]) -> Option<Refusal>
    requires { text.old ≡ [] }
    ensures { FindingsText input.now result text.new }
{
    match read_farm(input) {
        Ok(farm) => {
            put_farm(text, &farm, &input[3..]);
            None
        }
        Err(refusal) => {
            text.put_refusal(refusal);
            Some(refusal)
        }
    }
}

// The numbers of a farm that all bytes are there of.
fn read_farm(input: &[u8]) -> Result<Farm, Refusal>
    ensures { MatchResult result
        (λ farm. Accepted (reading input.now) × (farm.stations ≡ stations_of input.now) × (farm.pages ≡ pages_of input.now)
        × (farm.bound ≡ bound_of input.now) × Within 1 (page_limit small) farm.pages)
        (Refused (reading input.now)) }
{
    let [stations, pages, bound, ..] = input else {
        return Err(Refusal::Garbled(input.len() + 1));
    };
    let farm = Farm::new::<Small>(
        usize::from(*stations),
        usize::from(*pages),
        usize::from(*bound),
    )?;
    accept_length(3 + farm.stations * farm.pages, input.len())?;
    Ok(farm)
}

// What is found, and the count of sums.
fn put_farm(text: &mut Text<FINDINGS_ROOM>, farm: &Farm, signatures: &[u8])
    requires none { text.old ≡ [] }
    requires narrow { Within 1 (page_limit small) farm.now.pages }
    requires whole { length signatures.now ≡ farm.now.stations * farm.now.pages }
    ensures { FarmText farm.now.stations farm.now.pages farm.now.bound signatures.now text.new }
{
    let mut words = ArrayVec::<u32, WORD_ROOM>::new();
    widen(signatures, &mut words);
    let mut tally = [0; TALLY_ROOM];
    let check = check_cards::<Small>(farm, words.as_slice(), &mut tally).unwrap();
    put_verdict(text, farm.stations as u32, &check, &tally);
    line::put_sums(text, check.counts().taken);
}

// Each byte as a word.
fn widen(bytes: &[u8], words: &mut ArrayVec<u32, WORD_ROOM>)
    requires none { words.old.items ≡ [] }
    requires room { length bytes.now ≤ WORD_ROOM }
    ensures { words.new.items ≡ bytes.now }
{
    for byte in bytes {
        words.push(u32::from(*byte));
    }
}
