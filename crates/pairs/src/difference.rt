// A difference as it is solved.
use solve::Entry;

/// A difference of two rows: on how many pages it is not 0, and their list, as solving writes it; None where it has no solution.
#[derive(Clone, Copy)]
pub struct Difference {
    pub weight: Option<usize>,
    pub list: [Entry; 129],
}

impl Difference {
    /// Room for a difference; it holds none.
    pub fn none() -> Difference {
        Difference {
            weight: None,
            list: [Entry { page: 0, code: 0 }; 129],
        }
    }
}
