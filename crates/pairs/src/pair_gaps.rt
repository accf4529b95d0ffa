// The differences of all pairs of at most 8 stations.
ghost use Rattle.std.specs.Prelude.{◌≡◌, ◌≤◌, length};

use crate::difference::Difference;
use solve::Entry;

/// How many stations there are, and the differences of their pairs, each at its place. Some 58 KB: it is made once, and lent from there on.
#[derive(Drop)]
pub struct PairGaps {
    pub(crate) stations: usize,
    pub(crate) pairs: [Difference; 28],
    ghost few: { stations ≤ 8 },
    ghost full: { length pairs ≡ 28 },
}

impl PairGaps {
    /// Room for the pairs of any farm; none is solved.
    pub fn none() -> PairGaps {
        PairGaps {
            stations: 0,
            pairs: [Difference {
                weight: None,
                list: [Entry { page: 0, code: 0 }; 129],
            }; 28],
        }
    }
}
