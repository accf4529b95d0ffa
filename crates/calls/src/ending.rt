// How an asking ends.
use crate::phases::Verdict;

#[derive(Clone, Copy)]
pub(crate) enum Ending {
    // The check closes.
    Closes(Verdict),
    // This station is asked again.
    Asks(u32),
}
