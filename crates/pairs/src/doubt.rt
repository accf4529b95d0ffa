// What shape the suspect pairs have.
ghost use Rattle.std.specs.Prelude.{◌<◌, ◌≤◌, Some};
ghost use Rattle.scheme.specs.Pairs as shape;
ghost use Rattle.pairs.specs.Suspects.{SuspectIn};
ghost use Rattle.pairs.specs.Searching.{FirstApart};
ghost use Rattle.pairs.specs.Doubts.{Outside, Shape};

use crate::pair_gaps::PairGaps;

#[derive(Clone, Copy, PartialEq, Eq, Debug)]
pub enum Doubt {
    // Two suspect pairs are disjoint.
    TwoApart,
    // No pair is suspect.
    Nobody,
    // The suspect pairs are those of x < y < z; the lowest other station is outside.
    Triangle {
        x: usize,
        y: usize,
        z: usize,
        outside: usize,
    },
    // The lowest station that is in every suspect pair.
    Station(usize),
}

impl PairGaps {
    // What shape the suspect pairs have.
    pub fn doubt(&self) -> Doubt
        ensures { Shape self.now.stations (SuspectIn self.now.stations self.now) result }
    {
        if self.has_two_apart() {
            return Doubt::TwoApart;
        }
        // No station is 0: this leaves out no pair.
        match self.first_apart(0, 0) {
            Some((s, t)) => self.doubt_from(s, t),
            None => Doubt::Nobody,
        }
    }

    // The shape where no two suspect pairs are disjoint, and s < t is the first of them.
    fn doubt_from(&self, s: usize, t: usize) -> Doubt
        requires meeting { shape.TwoApart self.now.stations (SuspectIn self.now.stations self.now) → ⊥ }
        requires first { FirstApart self.now.stations (SuspectIn self.now.stations self.now) 0 0 (Some (s, t)) }
        ensures { Shape self.now.stations (SuspectIn self.now.stations self.now) result }
    {
        let Some((_, z)) = self.first_apart(s, s) else {
            return Doubt::Station(s);
        };
        let Some(_) = self.first_apart(t, t) else {
            return Doubt::Station(t);
        };
        Doubt::Triangle {
            x: s,
            y: t,
            z,
            outside: lowest_outside(s, t, z),
        }
    }
}

// The lowest station that is none of x < y < z.
fn lowest_outside(x: usize, y: usize, z: usize) -> usize
    ensures { 1 ≤ x → x < y → y < z → Outside 4 x y z result }
{
    (1..=3).find(|s| ![x, y, z].contains(s)).unwrap_or(4)
}
