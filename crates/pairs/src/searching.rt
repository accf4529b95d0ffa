// Seeking suspect pairs.
ghost use Rattle.std.specs.Prelude.{MatchBool};
ghost use Rattle.scheme.specs.Pairs.{TwoApart};
ghost use Rattle.pairs.specs.Suspects.{SuspectIn};
ghost use Rattle.pairs.specs.Searching.{FirstApart};

use crate::pair_gaps::PairGaps;
use crate::seeking::first_pair;
use crate::suspects::disjoint;

impl PairGaps {
    // Whether there are two disjoint suspect pairs.
    pub(crate) fn has_two_apart(&self) -> bool
        ensures { MatchBool result (TwoApart self.now.stations (SuspectIn self.now.stations self.now))
            (¬ TwoApart self.now.stations (SuspectIn self.now.stations self.now)) }
    {
        first_pair(self.stations, |s, t| {
            self.is_suspect(s, t) && self.first_apart(s, t).is_some()
        })
        .is_some()
    }

    // The first suspect pair without x and y.
    pub(crate) fn first_apart(&self, x: usize, y: usize) -> Option<(usize, usize)>
        ensures { FirstApart self.now.stations (SuspectIn self.now.stations self.now) x y result }
    {
        first_pair(self.stations, |u, v| {
            disjoint(x, y, u, v) && self.is_suspect(u, v)
        })
    }
}
