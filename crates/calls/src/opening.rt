// Opening a check.
ghost use Rattle.std.specs.Prelude.{◌≡◌, length, MatchResult};
ghost use Rattle.refusal.specs.Rules.{Refused, Accepted};
ghost use Rattle.calls.specs.Opening.{terms_in, Stands, Starts};

use crate::book::Book;
use crate::counts::Counts;
use crate::standing::Standing;
use crate::terms::Terms;
use field::Field;
use refusal::{Limit, Refusal};
use tally::Farm;

// A number fits the 28 bits of a word on the link.
const NUMBER_LIMIT: u32 = (1 << 28) - 1;

// The terms, if they are accepted.
pub(crate) fn accept_terms<F: Field>(
    number: u32,
    stations: u32,
    pages: u32,
    bound: u32,
    own_pages: usize,
) -> Result<Terms, Refusal>
    ensures { MatchResult result
        (λ terms. Accepted (terms_in F.Field.ops number stations pages bound own_pages) × Stands terms number stations pages bound)
        (Refused (terms_in F.Field.ops number stations pages bound own_pages)) }
{
    if number < 1 || number > NUMBER_LIMIT {
        return Err(Refusal::Size(Limit::Number));
    }
    let farm = Farm::new::<F>(stations as usize, pages as usize, bound as usize)?;
    if own_pages != farm.pages {
        return Err(Refusal::Size(Limit::OwnCopy));
    }
    Ok(Terms { number, farm })
}

// The book of a check that was just opened.
pub(crate) fn new_book(terms: Terms) -> Book
    ensures starts { Starts result }
    ensures terms { result.terms ≡ terms }
{
    Book {
        terms,
        question: terms.first_question(),
        standings: [Standing::Free; 9],
        counts: Counts {
            handed: 0,
            answered: 0,
            blank: 0,
            out: 0,
            taken: 0,
        },
    }
}
