// A row minus a solved difference.
ghost use Rattle.std.specs.Prelude.{ℕ};
ghost use Rattle.solve.specs.Answer.{code_at, Entries};
ghost use Rattle.tally.specs.Rows.{signature_in, RowPut};

use field::Field;
use solve::Entry;
use tally::{Farm, put_signature};

/// Makes the signature of each page in row `to` what row `from` has, minus the code that the list gives the page. The list's pages rise, so
/// that it is gone through once.
pub fn put_minus<F: Field>(
    farm: &Farm,
    tally: &mut [u32],
    from: usize,
    to: usize,
    list: &[Entry; 129],
)
    requires { (count : ℕ) × Entries farm.now.pages count list.now }
    ensures { RowPut farm.now.pages farm.now.pages to tally.old tally.new
        (λ n. F.Field.ops.minus (signature_in tally.old farm.now.pages from n) (code_at list.now n)) }
{
    let mut next = 0;
    for before in 0..farm.pages {
        let page = before + 1;
        let mut code = 0;
        if list[next].page == page {
            code = list[next].code;
            next += 1;
        }
        let signature = farm.rows(tally).signature(from, page);
        put_signature(tally, farm.pages, to, page, F::sub(signature, code));
    }
}
