// `FIELD job LENGTH BYTES = [SIGNATURE, ..] [SUM, ..]`: a job's bytes, cut into pages of this length; its signatures, and its sums 1 to 5.
use crate::answering::count;
use field::Field;
use std::alloc::{AllocError, Global};

pub fn answer<F: Field>(heap: Global, words: &[&str]) -> Result<Option<String>, AllocError> {
    let [length, bytes] = words else {
        return Ok(None);
    };
    let (Some(length), Ok(job)) = (count(length), hex::decode(heap, *bytes)) else {
        return Ok(None);
    };
    let job = job.as_slice();
    let Ok(pages) = page::count_pages::<F>(job.len(), length) else {
        return Ok(None);
    };
    let row: Vec<u32> = (1..=pages)
        .map(|page| page::page_signature::<F>(job, length, page))
        .collect(heap)?;
    let sums = [1, 2, 3, 4, 5].map(|j| page::row_sum::<F>(row.as_slice(), j));
    Ok(Some(format!(in heap; "{row:?} {sums:?}")?))
}
