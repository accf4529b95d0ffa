// The card in a field that is chosen at run time.
ghost use Rattle.std.specs.Prelude.{◌≤◌, length, IsOk};
ghost use Rattle.fields.specs.Names.{ops_of};
ghost use Rattle.lines.specs.Text.{Answers};
ghost use Rattle.cards.specs.Card.{CardText};

use crate::text::{CARD_ROOM, card_text};
use binary::{Small, Wide};
use fields::FieldName;
use lines::Written;
use prime::Prime;
use refusal::Refusal;

/// What `card_text` writes, in the field of this name.
pub fn card_in(
    field: FieldName,
    page_length: usize,
    job: &[u8],
    out: &mut [u8],
) -> Result<Written, Refusal>
    ensures answers { Answers (CardText (ops_of field) page_length job.now) out.old result out.new }
    ensures enough { CARD_ROOM ≤ length out.old → IsOk result }
{
    // A match, since each arm is another instance; a visitor in its place is longer.
    match field {
        FieldName::Small => card_text::<Small>(page_length, job, out),
        FieldName::Wide => card_text::<Wide>(page_length, job, out),
        FieldName::Prime => card_text::<Prime>(page_length, job, out),
    }
}
