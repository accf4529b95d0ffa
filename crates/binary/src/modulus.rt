// What a binary field is made of: a polynomial over two elements, of degree WIDTH.
ghost use Rattle.std.specs.Prelude.{◌≡◌, ℕ, ◌^◌, IfSome};
ghost use Rattle.field.specs.Field.{Laws, Spread, power};
ghost use Rattle.binary.specs.Binary.{Degree, binary};

/// A polynomial over two elements, which makes a field of the words of WIDTH bits (docs/RULES.md,
/// "Fields"). An implementation shows that it does.
pub trait Modulus {
    /// The degree of the polynomial, from 2 to 31.
    const WIDTH: u32;

    ghost WIDTH: { ℕ };

    /// The polynomial with its top bit, bit k for x^k.
    const POLY: u32;

    ghost POLY: { ℕ };

    /// 2^WIDTH.
    const SIZE: u32;

    ghost SIZE: { ℕ };

    /// How many places for pages the field has.
    const PLACES: usize;

    ghost PLACES: { ℕ };

    /// A power of alpha, where the field has a table of them; else None.
    fn tabled_power(_n: usize) -> Option<u32>
        ensures { IfSome result (λ value. value ≡ power (binary WIDTH POLY PLACES) 2 _n) }
    {
        None
    }

    ghost degree: { Degree WIDTH POLY };

    ghost sized: { SIZE ≡ 2 ^ WIDTH };

    ghost lawful: { Laws (binary WIDTH POLY PLACES) };

    ghost spread: { Spread (binary WIDTH POLY PLACES) };
}
