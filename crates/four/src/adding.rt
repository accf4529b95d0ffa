// Whether the differences of three stations add up, on every page.
ghost use Rattle.std.specs.Prelude.{◌≤◌, MatchBool};
ghost use Rattle.scheme.specs.Four.{Fails};
ghost use Rattle.four.specs.Adding.{Adds, PagesAdd, PageBreaks, ThirdsAdd, ThirdBreaks, SecondsAdd, SecondBreaks};

use crate::gaps::RowGaps;
use crate::others::Others;
use field::Field;

impl<'a, F: Field, G: RowGaps<F>> Others<'a, F, G> {
    // No three of the others have differences that do not add up on a page.
    pub(crate) fn all_add(&self) -> bool
        ensures { MatchBool result
            (¬ Fails F.Field.ops self.now.farm.now.stations self.now.farm.now.pages (G.RowGaps.gaps self.now.gaps.now) self.now.aside)
            (Fails F.Field.ops self.now.farm.now.stations self.now.farm.now.pages (G.RowGaps.gaps self.now.gaps.now) self.now.aside) }
    {
        (1..=self.farm.stations).all(|s| s == self.aside || self.seconds_add(s))
    }

    fn seconds_add(&self, s: usize) -> bool
        requires { s ≤ self.now.farm.now.stations }
        ensures { MatchBool result
            (SecondsAdd F.Field.ops self.now.farm.now.pages (G.RowGaps.gaps self.now.gaps.now) self.now.farm.now.stations self.now.aside s)
            (SecondBreaks F.Field.ops self.now.farm.now.pages (G.RowGaps.gaps self.now.gaps.now) self.now.farm.now.stations self.now.aside s) }
    {
        (s + 1..=self.farm.stations).all(|t| t == self.aside || self.thirds_add(s, t))
    }

    fn thirds_add(&self, s: usize, t: usize) -> bool
        requires { t ≤ self.now.farm.now.stations }
        ensures { MatchBool result
            (ThirdsAdd F.Field.ops self.now.farm.now.pages (G.RowGaps.gaps self.now.gaps.now) self.now.farm.now.stations self.now.aside s t)
            (ThirdBreaks F.Field.ops self.now.farm.now.pages (G.RowGaps.gaps self.now.gaps.now) self.now.farm.now.stations self.now.aside s t) }
    {
        (t + 1..=self.farm.stations).all(|u| u == self.aside || self.pages_add(s, t, u))
    }

    fn pages_add(&self, s: usize, t: usize, u: usize) -> bool
        ensures { MatchBool result
            (PagesAdd F.Field.ops self.now.farm.now.pages (G.RowGaps.gaps self.now.gaps.now) s t u)
            (PageBreaks F.Field.ops self.now.farm.now.pages (G.RowGaps.gaps self.now.gaps.now) s t u) }
    {
        (1..=self.farm.pages).all(|page| self.adds(s, t, u, page))
    }

    fn adds(&self, s: usize, t: usize, u: usize, page: usize) -> bool
        ensures { MatchBool result
            (Adds F.Field.ops (G.RowGaps.gaps self.now.gaps.now) s t u page)
            (¬ Adds F.Field.ops (G.RowGaps.gaps self.now.gaps.now) s t u page) }
    {
        F::add(self.gaps.gap(s, t, page), self.gaps.gap(t, u, page)) == self.gaps.gap(s, u, page)
    }
}
