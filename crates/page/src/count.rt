// How many pages a job has.
ghost use Rattle.std.specs.Prelude.{◌≡◌, MatchResult};
ghost use Rattle.refusal.specs.Rules.{Refused, Accepted};
ghost use Rattle.page.specs.Pages.{page_range, cutting, page_count};

use crate::cut::Cut;
use field::Field;
use refusal::{Limit, Refusal};

/// Refuses a number of pages that no job has, by 1 at place 3: from 1 to the field's limit there may be
/// (docs/RULES.md, "Fields").
pub fn accept_pages<F: Field>(pages: usize) -> Result<(), Refusal>
    ensures { MatchResult result
        (λ _. Accepted (page_range F.Field.ops pages))
        (Refused (page_range F.Field.ops pages)) }
{
    if pages < 1 || pages > field::page_limit::<F>() {
        return Err(Refusal::Size(Limit::Pages));
    }
    Ok(())
}

/// The number of pages of a job of so many bytes. Refused as `Cut::new` does.
pub fn count_pages<F: Field>(bytes: usize, length: usize) -> Result<usize, Refusal>
    ensures { MatchResult result
        (λ pages. Accepted (cutting F.Field.ops length bytes) × (pages ≡ page_count length bytes))
        (Refused (cutting F.Field.ops length bytes)) }
{
    let cut = Cut::new::<F>(bytes, length)?;
    Ok(cut.pages())
}
