// What a request asks for.

/// What a request asks for.
#[derive(Clone, Copy, PartialEq, Eq, Debug)]
pub enum Asked {
    /// sums of the station's row, by their number from 1
    Sums,
    /// signatures of its pages, by page from 1
    Signatures,
}
