// The field of the words of WIDTH bits, modulo a polynomial.
ghost use Rattle.std.specs.Prelude.{refl};
ghost use Rattle.binary.specs.Binary.{binary};

use crate::modulus::Modulus;
use crate::product::{invert, multiply, shift_add};
use field::Field;
use std::marker::PhantomData;

/// The field of the words of WIDTH bits; sums are without carry, products modulo the polynomial.
pub struct Binary<M> {
    modulus: PhantomData<M>,
}

impl<M: Modulus> Field for Binary<M> {
    const SIZE: u32 = M::SIZE;

    ghost SIZE = { M.SIZE };

    const PLACES: usize = M::PLACES;

    ghost PLACES = { M.PLACES };

    const ALPHA: u32 = 2;

    ghost ALPHA = { 2 };

    ghost ops = { binary M.WIDTH M.POLY M.PLACES };

    ghost named = { record { size_is = M.Modulus.sized; places_are = refl; alpha_is = refl } };

    ghost lawful = { M.Modulus.lawful };

    ghost spread = { M.Modulus.spread };

    fn add(a: u32, b: u32) -> u32 {
        (a ^ b) % M::SIZE
    }

    fn sub(a: u32, b: u32) -> u32 {
        Self::add(a, b)
    }

    // The second factor is shifted, so that a running product, as the first, is not waited for.
    fn mul(a: u32, b: u32) -> u32 {
        multiply::<M>(b, a)
    }

    fn inv(a: u32) -> u32 {
        invert::<M>(a)
    }

    fn alpha_add(a: u32, c: u32) -> u32 {
        shift_add::<M>(a, c)
    }

    fn alpha_pow(n: usize) -> u32 {
        // A match, since a closure that calls a method of this block gets no proof.
        match M::tabled_power(n) {
            Some(power) => power,
            None => Self::pow(Self::ALPHA, n),
        }
    }
}
