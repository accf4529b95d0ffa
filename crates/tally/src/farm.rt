// The numbers of a farm, and what follows from them.
ghost use Rattle.std.specs.Prelude.{◌≡◌, length, Decides, MatchResult};
ghost use Rattle.field.specs.Field.{page_limit};
ghost use Rattle.refusal.specs.Rules.{Refused, Accepted, Within};
ghost use Rattle.scheme.specs.Askings;
ghost use Rattle.scheme.specs.Askings.{Plain};
ghost use Rattle.tally.specs.Judging.{farm_range, judging};
ghost use Rattle.tally.specs.Rows;

use crate::places::SUM_COUNT;
use crate::rows::Rows as TallyRows;
use field::Field;
use refusal::{Buffer, Limit, Refusal};

const STATIONS_LEAST: usize = 3;

const STATIONS_MOST: usize = 8;

/// The most stray copies that are reckoned with.
const BOUND_LIMIT: usize = 64;

/// How many stations a farm has and how many pages each, and how many stray copies are reckoned with: all within their limits in some
/// field (docs/RULES.md, "Limits"). `new` makes it, and is the one call that refuses such numbers.
#[derive(Clone, Copy, PartialEq, Eq, Debug)]
pub struct Farm {
    pub stations: usize,
    pub pages: usize,
    pub bound: usize,
    ghost stations_in: { Within 3 8 stations },
    ghost pages_in: { Within 1 1920 pages },
    ghost bound_in: { Within 1 64 bound },
}

impl Farm {
    /// Refused: the number of stations, of pages, then the bound. The pages are then few enough for the field F.
    pub fn new<F: Field>(stations: usize, pages: usize, bound: usize) -> Result<Farm, Refusal>
        ensures { MatchResult result
            (λ farm. Accepted (farm_range F.Field.ops stations pages bound)
            × (farm.stations ≡ stations) × (farm.pages ≡ pages) × (farm.bound ≡ bound) × Within 1 (page_limit F.Field.ops) farm.pages)
            (Refused (farm_range F.Field.ops stations pages bound)) }
    {
        if stations < STATIONS_LEAST || stations > STATIONS_MOST {
            return Err(Refusal::Size(Limit::Stations));
        }
        page::accept_pages::<F>(pages)?;
        if bound < 1 || bound > BOUND_LIMIT {
            return Err(Refusal::Size(Limit::Bound));
        }
        Ok(Farm {
            stations,
            pages,
            bound,
        })
    }

    /// Refused: what no farm has, then a tally that is too short for the rows.
    pub fn judged<F: Field>(
        stations: usize,
        pages: usize,
        bound: usize,
        tally: &[u32],
    ) -> Result<Farm, Refusal>
        ensures { MatchResult result
            (λ farm. Accepted (judging F.Field.ops stations pages bound (length tally.now))
            × (farm.stations ≡ stations) × (farm.pages ≡ pages) × (farm.bound ≡ bound) × Within 1 (page_limit F.Field.ops) farm.pages)
            (Refused (judging F.Field.ops stations pages bound (length tally.now))) }
    {
        let farm = Farm::new::<F>(stations, pages, bound)?;
        if farm.tally_size() > tally.len() {
            return Err(Refusal::Cramped(Buffer::Tally));
        }
        Ok(farm)
    }

    /// How many words a tally has: a row for each station, its signatures and its sums.
    pub fn tally_size(&self) -> usize
        ensures { result ≡ Rows.tally_size self.now.stations self.now.pages }
    {
        self.stations * (self.pages + SUM_COUNT)
    }

    /// The rows of a tally, read.
    pub fn rows<'a>(&self, tally: &'a [u32]) -> TallyRows<'a>
        ensures { (result.words.now ≡ tally.now) × (result.stations ≡ self.now.stations) × (result.pages ≡ self.now.pages) }
    {
        TallyRows {
            words: tally,
            stations: self.stations,
            pages: self.pages,
        }
    }

    /// Sums 1 to this are asked of every station: the bound, and of three stations half as much again, rounded up.
    pub fn first_sums(&self) -> usize
        ensures { result ≡ Askings.first_sums self.now.stations self.now.bound }
    {
        if self.stations == 3 {
            (3 * self.bound).div_ceil(2)
        } else {
            self.bound
        }
    }

    /// Sums 1 to this are told of row 1 and of a station that is asked again.
    pub fn all_sums(&self) -> usize
        ensures { result ≡ Askings.all_sums self.now.pages self.now.bound }
    {
        self.pages.min(2 * self.bound)
    }

    /// Whether all signatures are asked for instead of sums.
    pub fn is_plain(&self) -> bool
        ensures { Decides result (Plain self.now.stations self.now.pages self.now.bound) }
    {
        if self.stations == 3 {
            self.pages < self.first_sums()
        } else {
            self.pages <= self.bound
        }
    }
}
