// The field of 2^16 elements.
ghost use Rattle.std.specs.Prelude.{refl};
ghost use Rattle.field.specs.declared.limits.TheConstants.{PAGE_LIMIT};
ghost use Rattle.binary.specs.Binary.{wide};
ghost use Rattle.binary.specs.Fields.{wide_degree, wide_laws, wide_spread};

use crate::binary_field::Binary;
use crate::modulus::Modulus;
use field::{Field, PAGE_LIMIT};

/// x^16 + x^12 + x^3 + x + 1, with its 1,920 places.
pub struct WideModulus;

/// The field of 65,536 elements, with alpha = 2.
#[derive(Clone, Copy, PartialEq, Eq)]
pub struct Wide;

// The field over the modulus, whose calls reckon.
type Words = Binary<WideModulus>;

impl Modulus for WideModulus {
    const WIDTH: u32 = 16;

    ghost WIDTH = { 16 };

    const POLY: u32 = 0x1100B;

    ghost POLY = { 69643 };

    const SIZE: u32 = 65536;

    ghost SIZE = { 65536 };

    const PLACES: usize = PAGE_LIMIT;

    ghost PLACES = { PAGE_LIMIT };

    ghost degree = { wide_degree };

    ghost sized = { refl };

    ghost lawful = { wide_laws };

    ghost spread = { wide_spread };
}

// As for `Small`, an `impl` of its own, so that its constants are numbers where they are read.
impl Field for Wide {
    const SIZE: u32 = WideModulus::SIZE;

    ghost SIZE = { 65536 };

    const PLACES: usize = WideModulus::PLACES;

    ghost PLACES = { PAGE_LIMIT };

    const ALPHA: u32 = 2;

    ghost ALPHA = { 2 };

    ghost ops = { wide };

    ghost named = { record { size_is = refl; places_are = refl; alpha_is = refl } };

    ghost lawful = { wide_laws };

    ghost spread = { wide_spread };

    fn add(a: u32, b: u32) -> u32 {
        Words::add(a, b)
    }

    fn sub(a: u32, b: u32) -> u32 {
        Words::sub(a, b)
    }

    fn mul(a: u32, b: u32) -> u32 {
        Words::mul(a, b)
    }

    fn inv(a: u32) -> u32 {
        Words::inv(a)
    }

    fn alpha_add(a: u32, c: u32) -> u32 {
        Words::alpha_add(a, c)
    }
}
