// Refusals: each has a number and a place, and says what was wrong where.
#![tactic(auto)]

ghost use Rattle.std.specs.Prelude.{◌≡◌, ◌++◌, Some, codes, decimal};
ghost use Rattle.refusal.specs.Numbers;
ghost use Rattle.refusal.specs.Numbers.{refusal_text};

mod theorems;

use std::fmt;
pub use theorems::{Ruled, exclusive};

/// Why a call did nothing. Operators and other programs are told its number and its place (docs/RULES.md,
/// "Refusals").
#[derive(Clone, Copy, PartialEq, Eq, Debug)]
pub enum Refusal {
    /// 1: a number is outside its limits; the place says which number.
    Size(Limit),
    /// 2: a buffer is too short for what is written there; the place says which buffer.
    Cramped(Buffer),
    /// 3: the call knows no such station. The place of this and of 4 to 7 and 10 is the station.
    Unknown(u32),
    /// 4: the station's slip is out.
    Out(u32),
    /// 5: the station has answered in this asking.
    In(u32),
    /// 6: another station is asked in the second asking.
    Unasked(u32),
    /// 7: the station's reply is lacking.
    Missing(u32),
    /// 8: a word is missing, surplus, of a wrong kind or no code; the place is its position, from 1.
    Garbled(usize),
    /// 9: a header word is not the request's; the place is its position, from 1.
    Foreign(usize),
    /// 10: no slip with this request is out here.
    Stray(u32),
    /// 11, place 0: an index is outside its range, or the first is above the last; or no more slips can be
    /// counted.
    Range,
    /// 12, place 0: there is no report to list.
    Silent,
}

/// The number that is outside its limits.
#[derive(Clone, Copy, PartialEq, Eq, Debug)]
pub enum Limit {
    /// place 1: the number of a check
    Number,
    /// place 2: how many stations a farm has
    Stations,
    /// place 3: how many pages a job, a card or a farm has
    Pages,
    /// place 4: how many stray copies are reckoned with
    Bound,
    /// place 5: how many pages the shop's own copy has
    OwnCopy,
    /// place 6: how many sums a difference is solved from
    Sums,
    /// place 7: how many bytes a page has
    PageLength,
}

/// The buffer that is too short.
#[derive(Clone, Copy, PartialEq, Eq, Debug)]
pub enum Buffer {
    /// place 1: the tally of a check
    Tally,
    /// place 2: any other
    Other,
}

// By hand: the numbers and places are told to operators and other programs, and follow no order of the cases.
impl Refusal {
    /// What kind of refusal it is, 1 to 12.
    pub fn number(self) -> u32
        ensures { result ≡ Numbers.number self }
    {
        match self {
            Refusal::Size(_) => 1,
            Refusal::Cramped(_) => 2,
            Refusal::Unknown(_) => 3,
            Refusal::Out(_) => 4,
            Refusal::In(_) => 5,
            Refusal::Unasked(_) => 6,
            Refusal::Missing(_) => 7,
            Refusal::Garbled(_) => 8,
            Refusal::Foreign(_) => 9,
            Refusal::Stray(_) => 10,
            Refusal::Range => 11,
            Refusal::Silent => 12,
        }
    }

    /// Where: a limit, a buffer, a station or a position, as each case says; 0 where there is nothing to
    /// point at.
    pub fn place(self) -> usize
        ensures { result ≡ Numbers.place self }
    {
        match self {
            Refusal::Size(Limit::Number) => 1,
            Refusal::Size(Limit::Stations) => 2,
            Refusal::Size(Limit::Pages) => 3,
            Refusal::Size(Limit::Bound) => 4,
            Refusal::Size(Limit::OwnCopy) => 5,
            Refusal::Size(Limit::Sums) => 6,
            Refusal::Size(Limit::PageLength) => 7,
            Refusal::Cramped(Buffer::Tally) => 1,
            Refusal::Cramped(Buffer::Other) => 2,
            Refusal::Unknown(station)
            | Refusal::Out(station)
            | Refusal::In(station)
            | Refusal::Unasked(station)
            | Refusal::Missing(station)
            | Refusal::Stray(station) => station as usize,
            Refusal::Garbled(position) | Refusal::Foreign(position) => position,
            Refusal::Range | Refusal::Silent => 0,
        }
    }
}

/// `refused NUMBER PLACE`, in decimal.
impl fmt::Display for Refusal {
    ghost output = { λ r. Some (refusal_text r) };

    fn fmt<W: fmt::Write>(&self, f: &mut fmt::Formatter<W>) -> fmt::Result {
        let number = self.number();
        let place = self.place();
        write!(f, "refused {number} {place}")
    }
}
