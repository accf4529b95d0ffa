// Sums of signatures, of a row and of a job's pages.
ghost use Rattle.std.specs.Prelude.{◌≡◌, ℕ, ◌≤◌, length};
ghost use Rattle.field.specs.Sums.{entry, power_sum, Tells};
ghost use Rattle.page.specs.Pages.{page_signature};

use crate::page::page_signature;
use field::Field;

/// Sum j of a row of signatures, page 1 first: the total of each signature times alpha^(j n), n the page.
/// Words count modulo the field's size.
pub fn row_sum<F: Field>(row: &[u32], j: usize) -> u32
    ensures { result ≡ power_sum F.Field.ops (length row.now) (entry row.now) j }
{
    sum_of::<F, _>(row.len(), |page| row[page - 1], j)
}

/// Sum j of the signatures of the pages 1 to `pages` of a job, with pages of this length: it signs each of
/// them.
pub fn job_sum<F: Field>(job: &[u8], page_length: usize, pages: usize, j: usize) -> u32
    ensures { result ≡ power_sum F.Field.ops pages (page_signature F.Field.ops page_length job.now) j }
{
    sum_of::<F, _>(pages, |page| page_signature::<F>(job, page_length, page), j)
}

// Sum j of what is told of the pages 1 to `pages`.
fn sum_of<F: Field, S: Fn(usize) -> u32>(pages: usize, signature: S, j: usize) -> u32
    requires { (page : ℕ) → 1 ≤ page → page ≤ pages → S.pre signature page }
    ensures { (e : ℕ → ℕ) → Tells (S.post signature) pages e → result ≡ power_sum F.Field.ops pages e j }
{
    let step = F::alpha_pow(j);
    let mut weight = step;
    let mut total = 0;
    for page in 1..=pages {
        total = F::mul_add(signature(page), weight, total);
        weight = F::mul(weight, step);
    }
    total
}
