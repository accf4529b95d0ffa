// A shelf: a job's bytes, cut into pages.
ghost use Rattle.std.specs.Prelude.{◌≡◌, length, MatchResult};
ghost use Rattle.refusal.specs.Rules.{Refused, Accepted};
ghost use Rattle.page.specs.Pages.{cutting, page_count};
ghost use Rattle.station.specs.Kinds.{job_row};

use crate::questions::accept_index;
use crate::trait_station::Station;
use field::{Field, SUM_LIMIT};
use page::Cut;
use refusal::Refusal;
use std::marker::PhantomData;

/// A station that holds a job's bytes, lent to it, and signs pages each time it is asked: sum j reads the
/// whole job. Who asks often makes a card of it first (docs/RULES.md, "Stations").
#[derive(Drop)]
pub struct Shelf<'a, F> {
    job: &'a [u8],
    cut: Cut,
    field: PhantomData<F>,
}

impl<'a, F: Field> Shelf<'a, F> {
    /// A shelf of this job, with pages of this length. Refused: a page length outside 1 to 4,096 (1, place
    /// 7), then fewer than 1 or too many pages for the field (1, place 3).
    pub fn new(job: &'a [u8], page_length: usize) -> Result<Shelf<'a, F>, Refusal>
        ensures { MatchResult result
            (λ shelf. Accepted (cutting F.Field.ops page_length (length job.now))
            × (shelf.job.now ≡ job.now) × (shelf.cut.page_length ≡ page_length)
            × (shelf.cut.pages ≡ page_count page_length (length job.now)))
            (Refused (cutting F.Field.ops page_length (length job.now))) }
    {
        let cut = Cut::new::<F>(job.len(), page_length)?;
        Ok(Shelf {
            job,
            cut,
            field: PhantomData,
        })
    }
}

impl<'a, F: Field> Station<F> for Shelf<'a, F> {
    ghost row = { λ shelf. job_row F.Field.ops shelf.cut.page_length shelf.cut.pages shelf.job.now };

    fn page_count(&self) -> usize {
        self.cut.pages()
    }

    fn signature(&self, page: usize) -> Result<u32, Refusal> {
        accept_index(page, self.page_count())?;
        Ok(page::page_signature::<F>(self.job, self.cut.page_length(), page))
    }

    fn sum(&self, j: usize) -> Result<u32, Refusal> {
        accept_index(j, SUM_LIMIT)?;
        Ok(page::job_sum::<F>(self.job, self.cut.page_length(), self.cut.pages(), j))
    }
}
