// An example to copy: a field of one's own, of 2^24 elements. docs/EXTENDING.md tells it step by step.
#![tactic(auto)]

ghost use Rattle.std.specs.Prelude.{refl};
ghost use Rattle.example_field.specs.Laws.{degree, laws, spread};

use binary::{Binary, Modulus};

/// The field of 2^24 elements: two different pages have equal signatures once in 16,777,216 times, and a job has 1,920 pages at most.
pub type Large = Binary<LargeModulus>;

/// What `Large` is made of: x^24 + x^7 + x^2 + x + 1.
pub struct LargeModulus;

// The numbers are those that `tools/binary_field 24 0x1000087` prints. Each stands twice: as the program reads it, and as the proofs do.
impl Modulus for LargeModulus {
    // a code has 24 bits
    const WIDTH: u32 = 24;

    ghost WIDTH = { 24 };

    // the polynomial, with its top bit
    const POLY: u32 = 0x1000087;

    ghost POLY = { 16777351 };

    // 2^24 codes
    const SIZE: u32 = 16777216;

    ghost SIZE = { 16777216 };

    // how many pages a job may have
    const PLACES: usize = 1920;

    ghost PLACES = { 1920 };

    // what is proved of them, in specs/Laws.antt; that SIZE is 2^WIDTH is computed here
    ghost degree = { degree };

    ghost sized = { refl };

    ghost lawful = { laws };

    ghost spread = { spread };
}
