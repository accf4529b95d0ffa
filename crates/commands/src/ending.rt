// How an asking ended.

use calls::Verdict;

#[derive(Clone, Copy)]
pub(crate) enum Ending {
    Closes(Verdict),
    // This station is asked again.
    Asks(u32),
}
