// The call.
ghost use Rattle.std.specs.Prelude.{◌≡◌, MatchResult};
ghost use Rattle.refusal.specs.Rules.{Refused, Accepted};
ghost use Rattle.solve.specs.Solution.{solving};
ghost use Rattle.solve.specs.Answer.{Answer};

use crate::Entry;
use crate::candidates::choose;
use crate::entries::interpolate;
use crate::limits::LIST_SIZE;
use crate::listing::list_nonzeros;
use crate::verify::verified;
use field::{Field, SUM_LIMIT};
use refusal::{Limit, Refusal};

/// Seeks the codes of the pages 1 to `pages`, at most `weight` of them not 0, whose sums 1, 2, .. are the
/// values (docs/RULES.md, "Solving a difference"). Some: how many are not 0; they stand in the list, page
/// by page, with page 0 in all places after. None: there are no such codes, and the list is what it was.
/// Refused: the number of pages (1, place 3); the number of values, if they are more than 128, or neither
/// as many as the pages nor twice the weight (1, place 6); the first value that is no code (8). The list is
/// then what it was. It needs no heap, and time in proportion to pages and values.
pub fn solve<F: Field>(
    pages: usize,
    values: &[u32],
    weight: usize,
    list: &mut [Entry; LIST_SIZE],
) -> Result<Option<usize>, Refusal>
    ensures { MatchResult result
        (λ answer. Accepted (solving F.Field.ops pages weight values.now)
        × Answer F.Field.ops pages weight values.now list.old list.new answer)
        (λ refusal. Refused (solving F.Field.ops pages weight values.now) refusal × (list.new ≡ list.old)) }
{
    accept::<F>(pages, values, weight)?;
    let candidates = choose::<F>(pages, values, weight);
    let coded = interpolate::<F>(&candidates, values);
    if verified::<F>(&coded, values, weight) {
        Ok(Some(list_nonzeros(&coded, list)))
    } else {
        Ok(None)
    }
}

// Refuses what cannot be solved.
fn accept<F: Field>(pages: usize, values: &[u32], weight: usize) -> Result<(), Refusal>
    ensures { MatchResult result
        (λ _. Accepted (solving F.Field.ops pages weight values.now))
        (Refused (solving F.Field.ops pages weight values.now)) }
{
    page::accept_pages::<F>(pages)?;
    let enough = values.len() == pages || weight <= values.len() / 2;
    if !enough || values.len() > SUM_LIMIT {
        return Err(Refusal::Size(Limit::Sums));
    }
    match values.iter().position(|value| *value >= F::SIZE) {
        Some(before) => Err(Refusal::Garbled(before + 1)),
        None => Ok(()),
    }
}
