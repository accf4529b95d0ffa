// Products and inverses of words of WIDTH bits, modulo the polynomial POLY, which has its top bit.
ghost use Rattle.std.specs.Prelude.{◌≡◌, ◌-◌, ◌%◌, ◌^◌, ◌<◌};
ghost use Rattle.std.specs.Int.Bits.{bit_xor};
ghost use Rattle.binary.specs.Binary.{shifted, times, chain};

use crate::modulus::Modulus;

// The code that a word counts as.
fn code<M: Modulus>(a: u32) -> u32
    ensures { result ≡ a % 2 ^ M.WIDTH }
{
    a % (1 << M::WIDTH)
}

// A code times x.
fn shift<M: Modulus>(a: u32) -> u32
    requires { a < 2 ^ M.WIDTH }
    ensures { result ≡ shifted M.WIDTH M.POLY a }
{
    (a * 2) ^ (((a * 2) >> M::WIDTH) % 2 * M::POLY)
}

// A word times x, plus a word: without a product.
pub(crate) fn shift_add<M: Modulus>(a: u32, c: u32) -> u32
    ensures { result ≡ bit_xor (times M.WIDTH M.POLY a 2) c % 2 ^ M.WIDTH }
{
    shift::<M>(code::<M>(a)) ^ code::<M>(c)
}

// The product of two words.
pub(crate) fn multiply<M: Modulus>(a: u32, b: u32) -> u32
    ensures { result ≡ times M.WIDTH M.POLY a b }
{
    let mut x = code::<M>(a);
    let mut y = code::<M>(b);
    let mut sum = 0;
    for _k in 0..M::WIDTH {
        if y % 2 == 1 {
            sum ^= x;
        }
        x = shift::<M>(x);
        y /= 2;
    }
    sum
}

// The inverse of a word, or 0 where it counts as 0.
pub(crate) fn invert<M: Modulus>(a: u32) -> u32
    ensures { result ≡ chain M.WIDTH M.POLY (M.WIDTH - 1) (times M.WIDTH M.POLY a a) }
{
    let mut square = multiply::<M>(a, a);
    let mut result = 1;
    for _k in 1..M::WIDTH {
        result = multiply::<M>(result, square);
        square = multiply::<M>(square, square);
    }
    result
}
