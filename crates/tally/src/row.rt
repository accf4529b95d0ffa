// Writing a row of signatures from another row.
ghost use Rattle.std.specs.Prelude.{ℕ, ◌≤◌};
ghost use Rattle.field.specs.Sums.{Tells};
ghost use Rattle.tally.specs.Rows.{signature_in, RowPut};

use crate::places::{put_signature, signature_at};
use field::Field;

// Makes the signature of each page in row `to` what row `from` has, minus the gap of the page.
pub fn put_row<F: Field, G: Fn(usize) -> u32>(
    tally: &mut [u32],
    pages: usize,
    from: usize,
    to: usize,
    gap: G,
)
    requires { (page : ℕ) → 1 ≤ page → page ≤ pages → G.pre gap page }
    ensures { (e : ℕ → ℕ) → Tells (G.post gap) pages e →
        RowPut pages pages to tally.old tally.new (λ n. F.Field.ops.minus (signature_in tally.old pages from n) (e n)) }
{
    for page in 1..=pages {
        let signature = signature_at(tally, pages, from, page);
        put_signature(tally, pages, to, page, F::sub(signature, gap(page)));
    }
}
