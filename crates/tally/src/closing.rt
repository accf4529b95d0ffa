// Closing on filled rows: the majority of a page, from which follow the copies that are bad and the first page that is split.
ghost use Rattle.std.specs.Prelude.{◌≡◌, MatchBool, MatchOption};
ghost use Rattle.scheme.specs.Farm;
ghost use Rattle.scheme.specs.Farm.{Majority, Decided, Bad};
ghost use Rattle.scheme.specs.Closing.{Splits, Reports};
ghost use Rattle.tally.specs.Rows.{signature_in};

use crate::rows::Rows;

impl<'a> Rows<'a> {
    /// The signature of the page that more than half of the stations hold, if there is one.
    pub fn majority(&self, page: usize) -> Option<u32>
        ensures { MatchOption result (¬ Decided self.now.stations (signature_in self.now.words.now self.now.pages) page)
            (Majority self.now.stations (signature_in self.now.words.now self.now.pages) page) }
    {
        let station = (1..=self.stations).find(|station| self.is_most(*station, page))?;
        Some(self.signature(station, page))
    }

    /// Whether the station's copy of the page is bad: its signature is not the page's majority.
    pub fn is_bad(&self, station: usize, page: usize) -> bool
        ensures { MatchBool result (Bad self.now.stations (signature_in self.now.words.now self.now.pages) station page)
            (¬ Bad self.now.stations (signature_in self.now.words.now self.now.pages) station page) }
    {
        match self.majority(page) {
            Some(signature) => self.signature(station, page) != signature,
            None => true,
        }
    }

    /// The lowest page without a majority; none where there is a report.
    pub fn first_split(&self) -> Option<usize>
        ensures { MatchOption result (Reports self.now.stations self.now.pages (signature_in self.now.words.now self.now.pages))
            (Splits self.now.stations self.now.pages (signature_in self.now.words.now self.now.pages)) }
    {
        (1..=self.pages).find(|page| self.majority(*page).is_none())
    }

    // Whether more than half of the stations hold what this one holds of the page.
    fn is_most(&self, station: usize, page: usize) -> bool
        ensures { MatchBool result (¬ Bad self.now.stations (signature_in self.now.words.now self.now.pages) station page)
            (Bad self.now.stations (signature_in self.now.words.now self.now.pages) station page) }
    {
        self.holders(page, self.signature(station, page)) > self.stations / 2
    }

    // How many stations hold the signature on the page.
    fn holders(&self, page: usize, signature: u32) -> usize
        ensures { result ≡ Farm.holders self.now.stations (signature_in self.now.words.now self.now.pages) page signature }
    {
        (1..=self.stations)
            .filter(|station| self.signature(*station, page) == signature)
            .count()
    }
}
