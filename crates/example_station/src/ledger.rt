// A station of one's own: the signatures of a copy's pages, kept in a `Vec`.
ghost use Rattle.std.specs.Prelude.{◌≡◌};
ghost use Rattle.station.specs.Kinds.{card_row};

use field::Field;
use refusal::Refusal;
use station::{SUM_LIMIT, Station, accept_index};
use std::marker::PhantomData;

/// A copy's signatures, page 1 first. A word counts modulo the field's size.
#[derive(Drop)]
pub struct Ledger<F> {
    words: Vec<u32>,
    field: PhantomData<F>,
}

impl<F: Field> Ledger<F> {
    /// A ledger may have any number of words: a check is opened only over as many pages as its own copy has.
    pub fn new(words: Vec<u32>) -> Ledger<F>
        ensures { result.words ≡ words }
    {
        Ledger {
            words,
            field: PhantomData,
        }
    }
}

impl<F: Field> Station<F> for Ledger<F> {
    // What the station means: a code for each page. All that it answers is proved of this row.
    ghost row = { λ ledger. card_row F.Field.ops ledger.words.items };

    fn page_count(&self) -> usize {
        self.words.len()
    }

    fn signature(&self, page: usize) -> Result<u32, Refusal> {
        accept_index(page, self.page_count())?;
        Ok(self.words[page - 1] % F::SIZE)
    }

    // That the sum of the words is the sum of the row is shown in proofs/ledger/LedgerStation/sum/Answers.antt.
    fn sum(&self, j: usize) -> Result<u32, Refusal> {
        accept_index(j, SUM_LIMIT)?;
        Ok(page::row_sum::<F>(self.words.as_slice(), j))
    }
}
