// The field of the whole numbers modulo 65,537.
#![tactic(auto)]

ghost use Rattle.std.specs.Prelude.{◌≡◌, refl};
ghost use Rattle.field.specs.declared.limits.TheConstants.{PAGE_LIMIT};
ghost use Rattle.prime.specs.Prime.{prime};
ghost use Rattle.prime.specs.Laws.{prime_laws, prime_spread};

use field::{Field, PAGE_LIMIT};

/// The field of 65,537 elements: the whole numbers modulo that prime, with alpha = 3 and room for 1,920
/// pages.
pub struct Prime;

const MODULUS: u64 = 65537;

impl Field for Prime {
    const SIZE: u32 = 65537;

    ghost SIZE = { 65537 };

    const PLACES: usize = PAGE_LIMIT;

    ghost PLACES = { PAGE_LIMIT };

    const ALPHA: u32 = 3;

    ghost ALPHA = { 3 };

    ghost ops = { prime };

    ghost named = { record { size_is = refl; places_are = refl; alpha_is = refl } };

    ghost lawful = { prime_laws };

    ghost spread = { prime_spread };

    fn add(a: u32, b: u32) -> u32 {
        ((a as u64 + b as u64) % MODULUS) as u32
    }

    fn sub(a: u32, b: u32) -> u32 {
        ((a as u64 + (MODULUS - b as u64 % MODULUS)) % MODULUS) as u32
    }

    fn mul(a: u32, b: u32) -> u32 {
        (a as u64 * b as u64 % MODULUS) as u32
    }

    fn mul_add(a: u32, b: u32, c: u32) -> u32 {
        ((a as u64 * b as u64 + c as u64) % MODULUS) as u32
    }

    // Since 65537 = (65537 / x) x + 65537 % x, the inverse of x is -(65537 / x) times that of 65537 % x.
    fn inv(a: u32) -> u32 {
        let mut x = a as u64 % MODULUS;
        let mut scale = 1;
        while x > 1 {
            scale = scale * (MODULUS - MODULUS / x) % MODULUS;
            x = MODULUS % x;
        }
        (x * scale % MODULUS) as u32
    }
}
