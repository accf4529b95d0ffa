// What the products of a binary field are.
ghost use Rattle.std.specs.Prelude.{ℕ};
ghost use Rattle.binary.specs.CarryLess.{ReducedProduct};

use crate::modulus::Modulus;

/// A theorem of every modulus: a product is the product without carry, less a multiple of the polynomial,
/// and a word of WIDTH bits.
pub fn products_are_reduced<M: Modulus>()
    ensures { (a b : ℕ) → ReducedProduct M.WIDTH M.POLY a b }
{}
