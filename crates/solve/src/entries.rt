// The codes at the candidates that the sums force.
ghost use Rattle.std.specs.Prelude.{◌≡◌, ℕ, ◌<◌, ◌≤◌, length};
ghost use Rattle.solve.specs.Polynomials.{at, interpolated, Product};
ghost use Rattle.solve.specs.Candidates.{points_of, candidates_of, codes_of, RisingIn, Forced};

use crate::candidates::Candidate;
use crate::limits::COEFFICIENTS;
use crate::polynomial::combine;
use arrayvec::ArrayVec;
use field::{Field, SUM_LIMIT};

// A candidate, with the code that is forced there.
#[derive(Clone, Copy, Default)]
pub(crate) struct Coded {
    pub candidate: Candidate,
    pub code: u32,
}

// A code for each candidate: what each vector has there that has the values for its first sums and is 0
// elsewhere.
pub(crate) fn interpolate<F: Field>(
    candidates: &ArrayVec<Candidate, SUM_LIMIT>,
    values: &[u32],
) -> ArrayVec<Coded, SUM_LIMIT>
    requires { length candidates.now.items ≤ length values.now }
    ensures candidates { candidates_of result.items ≡ candidates.now.items }
    ensures codes { (i : ℕ) → i < length candidates.now.items
        → at (codes_of result.items) i < F.Field.ops.size }
    ensures forced { (N : ℕ) → N ≤ F.Field.ops.places
        → RisingIn F.Field.ops N candidates.now.items
        → Forced F.Field.ops N candidates.now.items values.now (codes_of result.items) }
{
    let candidates = candidates.as_slice();
    let product = product::<F>(candidates);
    let values = &values[..candidates.len()];
    let mut coded = ArrayVec::new();
    for candidate in candidates {
        coded.push(Coded {
            candidate: *candidate,
            code: entry::<F>(&product, candidate.point, values),
        });
    }
    coded
}

// The product of x - point over the candidates' points.
fn product<F: Field>(candidates: &[Candidate]) -> [u32; COEFFICIENTS]
    requires { length candidates.now ≤ SUM_LIMIT }
    ensures { Product F.Field.ops (length candidates.now) (at (points_of candidates.now)) (at result) }
{
    let mut product = [0; COEFFICIENTS];
    product[0] = 1;
    for candidate in candidates {
        product = combine::<F>(&product, 1, candidate.point, &product, 0);
    }
    product
}

// The entry at the point x of a vector whose entries are at the roots of the product, as many as there are
// values. `quotient` runs over the coefficients of the product divided by its root x, from the highest on.
fn entry<F: Field>(product: &[u32; COEFFICIENTS], x: u32, values: &[u32]) -> u32
    requires { length values.now ≤ SUM_LIMIT }
    ensures { result ≡ interpolated F.Field.ops (length values.now) (at product.now) x (at values.now) }
{
    let mut quotient = 0;
    let mut against_values = 0;
    let mut at_x = 0;
    // By index: both rows are read from the end, one a place apart from the other, and the product's row
    // may be longer.
    for k in (0..values.len()).rev() {
        quotient = F::mul_add(quotient, x, product[k + 1]);
        against_values = F::mul_add(quotient, values[k], against_values);
        at_x = F::mul_add(at_x, x, quotient);
    }
    F::mul(against_values, F::inv(F::mul(x, at_x)))
}
