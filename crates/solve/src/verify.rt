// Verifying codes at the candidates: their weight and their sums.
ghost use Rattle.std.specs.Prelude.{◌≡◌, ◌≤◌, map, length, Decides};
ghost use Rattle.field.specs.Sums.{entry, total};
ghost use Rattle.algebra.specs.Vectors.{weight as weight-of};
ghost use Rattle.solve.specs.Candidates.{candidates_of, codes_of, raised, HasSums, Verified};

use crate::entries::Coded;
use arrayvec::ArrayVec;
use field::{Field, SUM_LIMIT};

// Whether the codes at the candidates are a solution: at most `weight` are not 0, and the values are their
// sums.
pub(crate) fn verified<F: Field>(
    coded: &ArrayVec<Coded, SUM_LIMIT>,
    values: &[u32],
    weight: usize,
) -> bool
    ensures { Decides result
        (Verified F.Field.ops (candidates_of coded.now.items) (codes_of coded.now.items) weight values.now) }
{
    weigh(coded) <= weight && has_sums::<F>(coded, values)
}

// How many of the codes are not 0.
fn weigh(coded: &[Coded]) -> usize
    ensures { result ≡ weight-of (length (candidates_of coded.now)) (entry (codes_of coded.now)) }
{
    coded.iter().filter(|coded| coded.code != 0).count()
}

// Whether the codes at the candidates have the values for their sums. A term is a code times a power of its
// point.
fn has_sums<F: Field>(coded: &[Coded], values: &[u32]) -> bool
    requires { length coded.now ≤ SUM_LIMIT }
    ensures { Decides result (HasSums F.Field.ops (candidates_of coded.now) (codes_of coded.now) values.now) }
{
    let mut room = [Coded::default(); SUM_LIMIT];
    let terms = &mut room[..coded.len()];
    terms.copy_from_slice(coded);
    for value in values {
        if next_sum::<F>(terms) != *value {
            return false;
        }
    }
    true
}

// Multiplies each term by its point, and adds them up.
fn next_sum<F: Field>(terms: &mut [Coded]) -> u32
    ensures raised { terms.new ≡ map (raised F.Field.ops) terms.old }
    ensures sum { result ≡ total F.Field.ops (length terms.old) (entry (codes_of terms.new)) }
{
    let mut sum = 0;
    for term in terms.iter_mut() {
        term.code = F::mul(term.code, term.candidate.point);
        sum = F::add(sum, term.code);
    }
    sum
}
