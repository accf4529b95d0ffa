// How many places the lists and polynomials of solving have.
use field::SUM_LIMIT;

/// How many places the list of a solution has, 129: one for each page of a solution, of which there are
/// never more than sums, and one that stays blank.
pub const LIST_SIZE: usize = SUM_LIMIT + 1;

// How many coefficients a polynomial has that is 0 at the points of as many pages as there are sums.
pub(crate) const COEFFICIENTS: usize = SUM_LIMIT + 1;
