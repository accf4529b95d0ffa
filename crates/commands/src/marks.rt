// Marks in buffers: what a call should leave alone is found as it was.

use std::alloc::{AllocError, Global};
use std::ops::Range;

// Stands in each word of a buffer or a tally before a call.
pub(crate) const MARK: u32 = 0xAAAA_AAAA;

// A buffer of so many words, all marks.
pub(crate) fn marked(heap: Global, words: usize) -> Result<Vec<u32>, AllocError> {
    vec![in heap; MARK; words]
}

// Whether one of the words is no mark any more.
pub(crate) fn is_spoilt(words: &[u32]) -> bool {
    words.iter().any(|word| *word != MARK)
}

// Whether a word outside of the touched places is another than before.
pub(crate) fn differs_outside(before: &[u32], after: &[u32], touched: &Range<usize>) -> bool {
    before.iter().zip(after).enumerate().any(|(at, (before, after))| before != after
        && !touched.contains(&at))
}
