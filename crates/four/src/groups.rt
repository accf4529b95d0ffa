// Groups of the stations other than the one aside, by the differences of their rows.
ghost use Rattle.std.specs.Prelude.{◌≡◌, ℕ, MatchBool, MatchOption};
ghost use Rattle.algebra.specs.Vectors.{Page};
ghost use Rattle.scheme.specs.Farm.{Lowest};
ghost use Rattle.scheme.specs.Four.{group_of_others, lead_of_others, Scattered};
ghost use Rattle.four.specs.Groups.{agreeing};

use crate::gaps::RowGaps;
use crate::others::Others;
use field::Field;

impl<'a, F: Field, G: RowGaps<F>> Others<'a, F, G> {
    // The lowest page on which the largest group of the others is below half of all stations.
    pub(crate) fn first_scattered(&self) -> Option<usize>
        ensures { MatchOption result
            ((n : ℕ) → Page self.now.farm.now.pages n → ¬ Scattered self.now.farm.now.stations (G.RowGaps.gaps self.now.gaps.now) self.now.aside n)
            (Lowest self.now.farm.now.pages (Scattered self.now.farm.now.stations (G.RowGaps.gaps self.now.gaps.now) self.now.aside)) }
    {
        (1..=self.farm.pages).find(|page| self.is_scattered(*page))
    }

    fn is_scattered(&self, page: usize) -> bool
        ensures { MatchBool result
            (Scattered self.now.farm.now.stations (G.RowGaps.gaps self.now.gaps.now) self.now.aside page)
            (¬ Scattered self.now.farm.now.stations (G.RowGaps.gaps self.now.gaps.now) self.now.aside page) }
    {
        self.group_size(page, self.lead(page)) < self.farm.stations / 2
    }

    // The lowest station of the largest group of the others.
    pub(crate) fn lead(&self, page: usize) -> usize
        ensures { result ≡ lead_of_others self.now.farm.now.stations (G.RowGaps.gaps self.now.gaps.now) self.now.aside page }
    {
        let mut lead = 1;
        let mut largest = self.group_size(page, 1);
        for station in 1..=self.farm.stations {
            let size = self.group_size(page, station);
            if largest < size {
                lead = station;
                largest = size;
            }
        }
        lead
    }

    // The size of the group of a station among the others; the one aside has none.
    fn group_size(&self, page: usize, station: usize) -> usize
        ensures { result ≡ group_of_others self.now.farm.now.stations (G.RowGaps.gaps self.now.gaps.now) self.now.aside page station }
    {
        if station == self.aside {
            return 0;
        }
        (1..=self.farm.stations)
            .filter(|other| self.agrees(page, *other, station))
            .count()
    }

    // Whether a station other than the one aside agrees with another.
    fn agrees(&self, page: usize, other: usize, station: usize) -> bool
        ensures { result ≡ agreeing (G.RowGaps.gaps self.now.gaps.now) self.now.aside page station other }
    {
        other != self.aside && self.gaps.gap(other, station, page) == 0
    }
}
