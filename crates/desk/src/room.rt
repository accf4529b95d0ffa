// How much a farm in the small field, and what is written of it, takes at most.
use tally::SUM_COUNT;

const STATION_ROOM: usize = 8;

// The pages of the small field.
pub(crate) const PAGE_ROOM: usize = 255;

// A word for each signature.
pub(crate) const WORD_ROOM: usize = STATION_ROOM * PAGE_ROOM;

pub(crate) const TALLY_ROOM: usize = STATION_ROOM * (PAGE_ROOM + SUM_COUNT);

/// The bytes of the longest farm: three numbers, then a signature for each page of each station.
pub const FARM_ROOM: usize = 3 + WORD_ROOM;

/// The bytes of the longest text of findings: a line of at most 6 bytes for each signature, and `sums N` with a number of at most 20 digits.
pub const FINDINGS_ROOM: usize = WORD_ROOM * 6 + 26;
