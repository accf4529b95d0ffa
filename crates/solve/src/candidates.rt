// Candidates: pages on which every solution has all its entries.
ghost use Rattle.std.specs.Prelude.{◌≡◌, ◌+◌, ◌≤◌, ◌⊎◌, length};
ghost use Rattle.solve.specs.Polynomials.{at, value};
ghost use Rattle.solve.specs.Candidates.{FewRoots, Roots, Covers};

use crate::locator::locate;
use crate::polynomial::evaluate;
use arrayvec::ArrayVec;
use field::{Field, SUM_LIMIT};

// A page, with its point.
#[derive(Clone, Copy, Default)]
pub(crate) struct Candidate {
    pub page: usize,
    pub point: u32,
}

// Pages that hold each entry of each solution: all of them, or those that a locator finds.
pub(crate) fn choose<F: Field>(
    pages: usize,
    values: &[u32],
    weight: usize,
) -> ArrayVec<Candidate, SUM_LIMIT>
    requires few_pages { pages ≤ F.Field.ops.places }
    requires few_values { length values.now ≤ SUM_LIMIT }
    requires enough { (length values.now ≡ pages) ⊎ (weight + weight ≤ length values.now) }
    ensures { Covers F.Field.ops pages weight values.now result.items }
{
    if values.len() == pages {
        return roots::<F>(&[], pages);
    }
    roots::<F>(&locate::<F>(values, weight), pages)
}

// The pages of 1 to `pages`, rising, at whose points the locator is 0.
fn roots<F: Field>(locator: &[u32], pages: usize) -> ArrayVec<Candidate, SUM_LIMIT>
    requires { FewRoots F.Field.ops (value F.Field.ops (length locator.now) (at locator.now) 0) pages }
    ensures { Roots F.Field.ops
        (value F.Field.ops (length locator.now) (at locator.now) 0) pages result.items }
{
    let mut found = ArrayVec::new();
    let mut point = 1;
    // From 0: what is found so far is of the first `before` pages; with 1..=pages the last turn is proved
    // apart.
    for before in 0..pages {
        point = F::mul(point, F::ALPHA);
        if evaluate::<F>(locator, point) == 0 {
            found.push(Candidate {
                page: before + 1,
                point,
            });
        }
    }
    found
}
