// The differences that are relied on after the first asking.
ghost use Rattle.std.specs.Prelude.{◌≡◌};
ghost use Rattle.scheme.specs.Pairs.{among};
ghost use Rattle.pairs.specs.Held.{gaps_in};
ghost use Rattle.four.specs.Relied.{relied, doubted};

use crate::gaps::RowGaps;
use field::Field;
use pairs::{Doubt, PairGaps};

// The solved differences of all pairs, lent, and the shape of the suspect ones.
#[derive(Clone, Copy)]
pub(crate) struct Relied<'a> {
    pub(crate) gaps: &'a PairGaps,
    pub(crate) doubt: Doubt,
}

impl<'a> Relied<'a> {
    // The station in doubt, if there is one.
    pub(crate) fn aside(&self) -> Option<usize>
        ensures { result ≡ doubted self.now.doubt }
    {
        match self.doubt {
            Doubt::Station(station) => Some(station),
            _ => None,
        }
    }
}

impl<'a, F: Field> RowGaps<F> for Relied<'a> {
    ghost gaps = { λ x. relied F.Field.ops x.doubt (gaps_in F.Field.ops x.gaps.now) };

    fn gap(&self, s: usize, t: usize, page: usize) -> u32 {
        match self.doubt {
            Doubt::Triangle { x, y, z, outside } if is_among(x, y, z, s) && is_among(x, y, z, t) =>
                {
                    F::sub(
                        self.gaps.gap::<F>(s, outside, page),
                        self.gaps.gap::<F>(t, outside, page),
                    )
                }
            _ => self.gaps.gap::<F>(s, t, page),
        }
    }
}

// Whether a station is one of three.
fn is_among(x: usize, y: usize, z: usize, station: usize) -> bool
    ensures { result ≡ among x y z station }
{
    station == x || station == y || station == z
}
