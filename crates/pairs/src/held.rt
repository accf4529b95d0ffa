// Reading the differences of pairs. A pair of other stations than 1 to 8 reads as one without a solution.
ghost use Rattle.std.specs.Prelude.{◌≡◌, ◌+◌, ◌<◌, ◌≤◌, option_copied};
ghost use Rattle.pairs.specs.Held;
ghost use Rattle.pairs.specs.Held.{held, answered_weight, code_of, gaps_in};

use crate::difference::Difference;
use crate::pair_gaps::PairGaps;
use field::Field;
use solve::code_at;

// Where the pair s < t of 1 to 8 stands: the pairs with a lower t come first.
pub(crate) fn pair_place(s: usize, t: usize) -> usize
    requires lower { 1 ≤ s }
    requires rising { s < t }
    requires few { t ≤ 8 }
    ensures { result ≡ Held.pair_place s t }
{
    (t - 1) * (t - 2) / 2 + (s - 1)
}

impl PairGaps {
    /// The difference of the stations s and t on a page; of s > t it is the negative.
    pub fn gap<F: Field>(&self, s: usize, t: usize, page: usize) -> u32
        ensures { result ≡ gaps_in F.Field.ops self.now s t page }
    {
        if s < t {
            self.code(s, t, page)
        } else if t < s {
            F::sub(0, self.code(t, s, page))
        } else {
            0
        }
    }

    /// The weight of the difference of the stations s < t; None where it has no solution.
    pub fn weight(&self, s: usize, t: usize) -> Option<usize>
        ensures { result ≡ answered_weight self.now s t }
    {
        self.held(s, t)?.weight
    }

    // The code of a page in the difference of the stations s < t.
    fn code(&self, s: usize, t: usize, page: usize) -> u32
        ensures { result ≡ code_of self.now s t page }
    {
        self.held(s, t).map_or(0, |gap| code_at(&gap.list, page))
    }

    /// What is held of the pair s < t of the stations 1 to 8; None of any other two numbers.
    pub fn held(&self, s: usize, t: usize) -> Option<&Difference>
        ensures { option_copied result ≡ held self.now s t }
    {
        if 0 < s && s < t && t < 9 {
            self.pairs.get(pair_place(s, t))
        } else {
            None
        }
    }
}
