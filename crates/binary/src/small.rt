// The field of 2^8 elements.
ghost use Rattle.std.specs.Prelude.{◌≡◌, refl, Some};
ghost use Rattle.field.specs.Field.{power};
ghost use Rattle.binary.specs.Binary.{small};
ghost use Rattle.binary.specs.Fields.{small_degree, small_laws, small_spread};

use crate::binary_field::Binary;
use crate::modulus::Modulus;
use crate::powers::POWERS;
use field::Field;

/// x^8 + x^4 + x^3 + x^2 + 1, with its 255 places.
pub struct SmallModulus;

/// The field of 256 elements, with alpha = 2. A job has at most 255 pages in it.
#[derive(Clone, Copy, PartialEq, Eq)]
pub struct Small;

// The field over the modulus, whose calls reckon.
type Words = Binary<SmallModulus>;

impl Modulus for SmallModulus {
    const WIDTH: u32 = 8;

    ghost WIDTH = { 8 };

    const POLY: u32 = 0x11D;

    ghost POLY = { 285 };

    const SIZE: u32 = 256;

    ghost SIZE = { 256 };

    const PLACES: usize = 255;

    ghost PLACES = { 255 };

    ghost degree = { small_degree };

    ghost sized = { refl };

    ghost lawful = { small_laws };

    ghost spread = { small_spread };

    fn tabled_power(n: usize) -> Option<u32>
        ensures { result ≡ Some (power small 2 n) }
    {
        Some(POWERS[n % 255] as u32)
    }
}

// An `impl` of its own: a constant of the one for every modulus can be neither an array's length nor a pattern.
impl Field for Small {
    const SIZE: u32 = SmallModulus::SIZE;

    ghost SIZE = { 256 };

    const PLACES: usize = SmallModulus::PLACES;

    ghost PLACES = { 255 };

    const ALPHA: u32 = 2;

    ghost ALPHA = { 2 };

    ghost ops = { small };

    ghost named = { record { size_is = refl; places_are = refl; alpha_is = refl } };

    ghost lawful = { small_laws };

    ghost spread = { small_spread };

    fn add(a: u32, b: u32) -> u32 {
        Words::add(a, b)
    }

    fn sub(a: u32, b: u32) -> u32 {
        Words::sub(a, b)
    }

    fn mul(a: u32, b: u32) -> u32 {
        Words::mul(a, b)
    }

    fn inv(a: u32) -> u32 {
        Words::inv(a)
    }

    fn alpha_add(a: u32, c: u32) -> u32 {
        Words::alpha_add(a, c)
    }

    fn alpha_pow(n: usize) -> u32 {
        Words::alpha_pow(n)
    }
}
