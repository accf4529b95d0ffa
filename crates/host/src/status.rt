// What calls return beside a refusal's number, and the one way in which a refusal is told.
ghost use Rattle.std.specs.Prelude.{◌≡◌};
ghost use Rattle.refusal.specs.Numbers;

use refusal::Refusal;

// It did what it says.
pub(crate) const DONE: u32 = 0;

// The page of `place` is split, and so on: how a judgement ends that fills no rows.
pub(crate) const OVER: u32 = 251;

pub(crate) const SPLIT: u32 = 252;

pub(crate) const ASKS: u32 = 253;

// There is no solution.
pub(crate) const NONE: u32 = 254;

// No field has the number.
pub(crate) const NO_FIELD: u32 = 255;

// A refusal's number, with its place beside it.
pub(crate) fn refuse(refusal: Refusal, place: &mut usize) -> u32
    ensures status { result ≡ Numbers.number refusal }
    ensures place { place.new ≡ Numbers.place refusal }
{
    *place = refusal.place();
    refusal.number()
}
