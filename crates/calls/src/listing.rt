// Listing the bad pages of a station.
ghost use Rattle.calls.specs.Listing;

use crate::book::Book;
use crate::phases::Verdict;
use refusal::{Buffer, Refusal};
use tally::list_bad;

impl Book {
    pub(crate) fn list_pages(
        &self,
        found: Option<Verdict>,
        station: u32,
        tally: &[u32],
        out: &mut [u32],
    ) -> Result<usize, Refusal>
        ensures { Listing.Listing self.now.terms found station tally.now out.old result out.new }
    {
        if self.terms.farm.tally_size() > tally.len() {
            return Err(Refusal::Cramped(Buffer::Tally));
        }
        let Some(Verdict::Report) = found else {
            return Err(Refusal::Silent);
        };
        if station < 1 || station > self.terms.farm.stations as u32 {
            return Err(Refusal::Unknown(station));
        }
        list_bad(
            tally,
            self.terms.farm.stations,
            self.terms.farm.pages as u32,
            station as usize,
            out,
        )
    }
}
