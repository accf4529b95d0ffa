// What a call wrote into a buffer.
use refusal::Refusal;

/// What was written at the front of a buffer that a caller lent.
#[derive(Clone, Copy, PartialEq, Eq, Debug)]
pub struct Written {
    /// how many bytes
    pub count: usize,
    /// why there is no answer, if the text is a refusal's line
    pub refused: Option<Refusal>,
}
