// The rows of a tally, read. A place past its end reads as 0.
ghost use Rattle.std.specs.Prelude.{◌≡◌};
ghost use Rattle.tally.specs.Rows.{signature_in, sum_in};

use crate::places::{signature_at, sum_place, word};

// So many words as rows of stations, each its signatures, by page, and then its sums.
#[derive(Clone, Copy)]
pub struct Rows<'a> {
    pub words: &'a [u32],
    pub stations: usize,
    pub pages: usize,
}

impl<'a> Rows<'a> {
    // The signature of a page in the row of a station.
    pub fn signature(&self, station: usize, page: usize) -> u32
        ensures { result ≡ signature_in self.now.words.now self.now.pages station page }
    {
        signature_at(self.words, self.pages, station, page)
    }

    // Sum j in the row of a station.
    pub fn sum(&self, station: usize, j: usize) -> u32
        ensures { result ≡ sum_in self.now.words.now self.now.pages station j }
    {
        word(self.words, sum_place(self.pages, station, j))
    }
}
