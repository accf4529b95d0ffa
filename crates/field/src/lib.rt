// A finite field: its calls, its laws, and what follows from them for every field.
#![tactic(auto)]

ghost use Rattle.std.specs.Prelude.{◌≡◌, ℕ};
ghost use Rattle.field.specs.Field.{Ops, Named, Laws, Spread, power};

mod code;
mod limits;

pub use code::words_count_modulo;
pub use limits::{PAGE_LIMIT, SUM_LIMIT, VALUE_LIMIT, page_limit};

/// A finite field. Its elements are codes, 0 to SIZE - 1; a call takes any word, counts it modulo SIZE, and
/// gives a code. Three fields are here, `small`, `wide` and `prime` (docs/RULES.md, "Fields"); another one
/// shows the laws `named`, `lawful` and `spread`.
pub trait Field {
    /// How many elements the field has, from 256 to 2^28.
    const SIZE: u32;

    ghost SIZE: { ℕ };

    /// How many places for pages it has: so many powers of alpha, from the first on, are different. A job
    /// has at most 1,920 pages even so.
    const PLACES: usize;

    ghost PLACES: { ℕ };

    /// The code whose powers are the places of pages: page n stands at alpha^n.
    const ALPHA: u32;

    ghost ALPHA: { ℕ };

    ghost ops: { Ops };

    /// The sum.
    fn add(a: u32, b: u32) -> u32
        ensures { result ≡ ops.plus a b };

    /// The one code that gives a when b is added.
    fn sub(a: u32, b: u32) -> u32
        ensures { result ≡ ops.minus a b };

    /// The product.
    fn mul(a: u32, b: u32) -> u32
        ensures { result ≡ ops.times a b };

    /// The code that times a is 1; 0 where a counts as 0.
    fn inv(a: u32) -> u32
        ensures { result ≡ ops.inverse a };

    /// a times b, plus c: one reduction where the field can do with one.
    fn mul_add(a: u32, b: u32, c: u32) -> u32
        ensures { result ≡ ops.plus (ops.times a b) c }
    {
        Self::add(Self::mul(a, b), c)
    }

    /// a times alpha, plus c: cheaper than a product in most fields.
    fn alpha_add(a: u32, c: u32) -> u32
        ensures { result ≡ ops.plus (ops.times a ops.alpha) c }
    {
        Self::mul_add(a, Self::ALPHA, c)
    }

    /// a to the power n, by squaring; a^0 is 1 for every a, 0 too.
    fn pow(a: u32, n: usize) -> u32
        ensures { result ≡ power ops a n }
    {
        let mut base = a;
        let mut left = n;
        let mut product = 1;
        while left > 0 {
            if left % 2 == 1 {
                product = Self::mul(product, base);
            }
            base = Self::mul(base, base);
            left /= 2;
        }
        product
    }

    /// alpha to the power n: the weight of page n in sum 1.
    fn alpha_pow(n: usize) -> u32
        ensures { result ≡ power ops ops.alpha n }
    {
        Self::pow(Self::ALPHA, n)
    }

    ghost named: { Named ops SIZE PLACES ALPHA };

    ghost lawful: { Laws ops };

    ghost spread: { Spread ops };
}
