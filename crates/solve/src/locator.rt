// The locator: a polynomial with a root at the point of each page where a solution is not 0.
ghost use Rattle.std.specs.Prelude.{◌≡◌, ◌+◌, ◌≤◌, length};
ghost use Rattle.solve.specs.Polynomials.{at, Locates};

use crate::limits::COEFFICIENTS;
use crate::polynomial::{against, combine};
use arrayvec::ArrayVec;
use field::Field;

// A locator of each solution with at most `weight` pages, from the first 2 weight sums. At each turn
// `locator` is monic of `degree` and 0 against the first `cleared` windows of the values; `previous` is 0
// against the first degree - 1, and comes to `divisor` against the next. A window is as many values in a
// row as there are coefficients.
pub(crate) fn locate<F: Field>(values: &[u32], weight: usize) -> ArrayVec<u32, COEFFICIENTS>
    requires light { weight ≤ 64 }
    requires values_reach { weight + weight ≤ length values.now }
    ensures { Locates F.Field.ops weight (at values.now) result.items }
{
    // No heap: room for all coefficients, of which the first degree + 1 are the locator.
    let mut locator = [0; COEFFICIENTS];
    locator[0] = 1;
    let mut previous = [0; COEFFICIENTS];
    let mut divisor = 1;
    let mut degree = 0;
    let mut cleared = 0;
    // No counted loop: what is cleared falls back where the locator grows.
    while cleared < weight {
        let discrepancy = against::<F>(&locator[..degree + 1], &values[cleared..]);
        if discrepancy == 0 {
            cleared += 1;
        } else {
            let scale = F::mul(discrepancy, F::inv(divisor));
            if cleared < degree {
                locator = combine::<F>(&locator, 0, scale, &previous, degree - 1 - cleared);
                cleared += 1;
            } else {
                let longer = combine::<F>(&locator, cleared + 1 - degree, scale, &previous, 0);
                previous = locator;
                locator = longer;
                divisor = discrepancy;
                let shorter = degree;
                degree = cleared + 1;
                cleared = shorter;
            }
        }
    }
    let mut coefficients = ArrayVec::from(locator);
    coefficients.truncate(degree + 1);
    coefficients
}
