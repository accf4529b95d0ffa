// Suspect pairs: those without a solution, and those heavier than every pair disjoint from them.
ghost use Rattle.std.specs.Prelude.{MatchBool};
ghost use Rattle.scheme.specs.Pairs.{Disjoint};
ghost use Rattle.pairs.specs.Suspects.{LighterIn, AllLighter, SuspectIn};

use crate::pair_gaps::PairGaps;
use crate::seeking::first_pair;

impl PairGaps {
    // Whether the pair s < t is suspect: it has no solution, or every pair disjoint from it has one of smaller weight.
    pub fn is_suspect(&self, s: usize, t: usize) -> bool
        ensures { MatchBool result (SuspectIn self.now.stations self.now s t) (¬ SuspectIn self.now.stations self.now s t) }
    {
        match self.weight(s, t) {
            Some(weight) => self.all_lighter(weight, s, t),
            None => true,
        }
    }

    // Whether every pair disjoint from s and t has a solution of smaller weight.
    fn all_lighter(&self, weight: usize, s: usize, t: usize) -> bool
        ensures { MatchBool result (AllLighter self.now.stations self.now weight s t) (¬ AllLighter self.now.stations self.now weight s t) }
    {
        first_pair(self.stations, |u, v| {
            disjoint(s, t, u, v) && !self.is_lighter(weight, u, v)
        })
        .is_none()
    }

    // Whether the pair u < v has a solution of smaller weight.
    fn is_lighter(&self, weight: usize, u: usize, v: usize) -> bool
        ensures { MatchBool result (LighterIn self.now weight u v) (¬ LighterIn self.now weight u v) }
    {
        self.weight(u, v).is_some_and(|other| other < weight)
    }
}

// Whether the stations s and t are other than u and v.
pub(crate) fn disjoint(s: usize, t: usize, u: usize, v: usize) -> bool
    ensures { MatchBool result (Disjoint s t u v) (¬ Disjoint s t u v) }
{
    s != u && s != v && t != u && t != v
}
