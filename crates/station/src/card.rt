// A card: the words that a slicer wrote, one for each page.
ghost use Rattle.std.specs.Prelude.{◌≡◌, length, MatchResult};
ghost use Rattle.refusal.specs.Rules.{Refused, Accepted};
ghost use Rattle.station.specs.Kinds.{making_card, card_row};

use crate::questions::accept_index;
use crate::trait_station::Station;
use field::{Field, SUM_LIMIT};
use refusal::Refusal;
use std::marker::PhantomData;

/// A station that holds a signature for each page, as words that are lent to it, page 1 first
/// (docs/RULES.md, "Stations"). Each word counts modulo the field's size.
#[derive(Drop)]
pub struct Card<'a, F> {
    words: &'a [u32],
    field: PhantomData<F>,
}

impl<'a, F: Field> Card<'a, F> {
    /// A card of these words. Refused: fewer than 1 or too many words for the field's pages (1, place 3).
    pub fn new(words: &'a [u32]) -> Result<Card<'a, F>, Refusal>
        ensures { MatchResult result
            (λ card. Accepted (making_card F.Field.ops (length words.now)) × (card.words.now ≡ words.now))
            (Refused (making_card F.Field.ops (length words.now))) }
    {
        page::accept_pages::<F>(words.len())?;
        Ok(Card {
            words,
            field: PhantomData,
        })
    }
}

impl<'a, F: Field> Station<F> for Card<'a, F> {
    ghost row = { λ card. card_row F.Field.ops card.words.now };

    fn page_count(&self) -> usize {
        self.words.len()
    }

    fn signature(&self, page: usize) -> Result<u32, Refusal> {
        accept_index(page, self.page_count())?;
        Ok(self.words[page - 1] % F::SIZE)
    }

    fn sum(&self, j: usize) -> Result<u32, Refusal> {
        accept_index(j, SUM_LIMIT)?;
        Ok(page::row_sum::<F>(self.words, j))
    }
}
