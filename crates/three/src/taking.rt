// Taking the pair of three stations whose difference weighs least.
ghost use Rattle.std.specs.Prelude.{◌≡◌};
ghost use Rattle.three.specs.Pairs;
ghost use Rattle.three.specs.Pairs.{WeighedOf, Lightest};

use pairs::PairGaps;

// Two stations, and the weight of their difference.
#[derive(Clone, Copy)]
pub(crate) struct TakenPair {
    pub first: usize,
    pub second: usize,
    pub weight: usize,
}

// Of {1,2}, {1,3} and {2,3} the solved pair of least weight, and of equal ones the first.
pub(crate) fn take_pair(gaps: &PairGaps) -> Option<TakenPair>
    ensures { Lightest gaps.now result }
{
    let of_two = weighed(gaps, 1, 2);
    let of_three = weighed(gaps, 1, 3);
    let others = weighed(gaps, 2, 3);
    lighter(lighter(of_two, of_three), others)
}

fn weighed(gaps: &PairGaps, first: usize, second: usize) -> Option<TakenPair>
    ensures { WeighedOf gaps.now first second result }
{
    let weight = gaps.weight(first, second)?;
    Some(TakenPair {
        first,
        second,
        weight,
    })
}

// The one of less weight, and of equal ones the first.
fn lighter(first: Option<TakenPair>, second: Option<TakenPair>) -> Option<TakenPair>
    ensures { result ≡ Pairs.lighter first second }
{
    match (first, second) {
        (Some(one), Some(other)) if other.weight < one.weight => Some(other),
        (Some(one), _) => Some(one),
        (None, other) => other,
    }
}
