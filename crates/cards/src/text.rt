// All the bytes of a card, or of the refusal in its place.
ghost use Rattle.std.specs.Prelude.{◌≡◌, ◌+◌, ◌*◌, ◌≤◌, [], ◌++◌, length, IsOk};
ghost use Rattle.refusal.specs.Rules.{Within};
ghost use Rattle.page.specs.Pages.{page_signature};
ghost use Rattle.lines.specs.Text.{Answers};
ghost use Rattle.cards.specs.Card.{page_lines, last_line, CardText};

use crate::line;
use field::Field;
use lines::{Text, Written};
use refusal::Refusal;

/// The bytes of the longest card: 1,920 lines of at most 15 bytes, and `pages 1920` with its line's end.
pub const CARD_ROOM: usize = 1920 * 15 + 11;

/// Writes the signature card of a job with pages of `page_length` bytes at the front of `out`: a line `PAGE SIGNATURE` for each page, then `pages N`;
/// or the line of a refusal, which the result then names. A buffer of `CARD_ROOM` bytes is always long enough.
/// Refused: a buffer that is shorter than the text (2, place 2), which then stays as it was.
pub fn card_text<F: Field>(
    page_length: usize,
    job: &[u8],
    out: &mut [u8],
) -> Result<Written, Refusal>
    ensures answers { Answers (CardText F.Field.ops page_length job.now) out.old result out.new }
    ensures enough { CARD_ROOM ≤ length out.old → IsOk result }
{
    let mut text = Text::<CARD_ROOM>::new();
    let refused = put_answer::<F>(&mut text, page_length, job);
    let count = text.write_to(out)?;
    Ok(Written { count, refused })
}

// The card, or the line of a refusal.
fn put_answer<F: Field>(
    text: &mut Text<CARD_ROOM>,
    page_length: usize,
    job: &[u8],
) -> Option<Refusal>
    requires { text.old ≡ [] }
    ensures { CardText F.Field.ops page_length job.now result text.new }
{
    match page::count_pages::<F>(job.len(), page_length) {
        Ok(pages) => {
            put_pages::<F>(text, page_length, job, pages);
            line::put_count(text, pages);
            None
        }
        Err(refusal) => {
            text.put_refusal(refusal);
            Some(refusal)
        }
    }
}

// A line for each page.
fn put_pages<F: Field>(text: &mut Text<CARD_ROOM>, page_length: usize, job: &[u8], pages: usize)
    requires none { text.old ≡ [] }
    requires few { pages ≤ 1920 }
    ensures lines { text.new ≡ page_lines (page_signature F.Field.ops page_length job.now) pages }
    ensures short { length text.new ≤ 15 * pages }
{
    for page in 1..=pages {
        let signature = page::page_signature::<F>(job, page_length, page);
        line::put_page(text, page, signature);
    }
}
