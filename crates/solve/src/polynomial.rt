// Polynomials by their coefficients, the constant first.
ghost use Rattle.std.specs.Prelude.{◌≡◌, ℕ, ◌<◌, ◌≤◌, length};
ghost use Rattle.solve.specs.Polynomials.{at, value, window, shifted};

use crate::limits::COEFFICIENTS;
use field::Field;

// The polynomial with these coefficients, at x.
pub(crate) fn evaluate<F: Field>(coefficients: &[u32], x: u32) -> u32
    ensures { result ≡ value F.Field.ops (length coefficients.now) (at coefficients.now) 0 x }
{
    coefficients
        .iter()
        .rev()
        .fold(0, |sum, coefficient| F::mul_add(sum, x, *coefficient))
}

// The coefficients, against as many values.
pub(crate) fn against<F: Field>(coefficients: &[u32], values: &[u32]) -> u32
    requires { length coefficients.now ≤ length values.now }
    ensures { result ≡ window F.Field.ops
        (length coefficients.now) (at coefficients.now) 0 (at values.now) 0 }
{
    coefficients.iter().zip(values).fold(
        0,
        |sum, (coefficient, value)| F::mul_add(*coefficient, *value, sum),
    )
}

// The coefficient at place i of x^a p.
fn coefficient(p: &[u32; COEFFICIENTS], a: usize, i: usize) -> u32
    requires { i < COEFFICIENTS }
    ensures { result ≡ shifted a (at p.now) i }
{
    if i < a { 0 } else { p[i - a] }
}

// x^a p - c x^b w, in the first COEFFICIENTS places.
pub(crate) fn combine<F: Field>(
    p: &[u32; COEFFICIENTS],
    a: usize,
    c: u32,
    w: &[u32; COEFFICIENTS],
    b: usize,
) -> [u32; COEFFICIENTS]
    ensures { (i : ℕ) → i < COEFFICIENTS
        → at result i ≡ F.Field.ops.minus (shifted a (at p.now) i) (F.Field.ops.times c (shifted b (at w.now) i)) }
{
    let mut difference = [0; COEFFICIENTS];
    for (i, place) in difference.iter_mut().enumerate() {
        *place = minus_multiple::<F>(coefficient(p, a, i), c, coefficient(w, b, i));
    }
    difference
}

// a - c b. As a product's second factor c is shifted once for all coefficients.
fn minus_multiple<F: Field>(a: u32, c: u32, b: u32) -> u32
    ensures { result ≡ F.Field.ops.minus a (F.Field.ops.times c b) }
{
    F::sub(a, F::mul(b, c))
}
