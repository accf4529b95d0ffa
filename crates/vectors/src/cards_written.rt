// `FIELD card LENGTH COUNT = TEXT`: what is written for a job of so many bytes 1, cut into pages of this length; each line ends with `|`.
use crate::answering::count;
use cards::CARD_ROOM;
use fields::FieldName;
use std::alloc::{AllocError, Global};

pub fn answer(
    heap: Global,
    field: FieldName,
    words: &[&str],
) -> Result<Option<String>, AllocError> {
    let [length, bytes] = words else {
        return Ok(None);
    };
    let (Some(length), Some(bytes)) = (count(length), count(bytes)) else {
        return Ok(None);
    };
    let job = vec![in heap; 1u8; bytes]?;
    let mut card = vec![in heap; 0u8; CARD_ROOM]?;
    let Ok(written) = cards::card_in(field, length, job.as_slice(), card.as_mut_slice()) else {
        return Ok(None);
    };
    let text: String = card
        .as_slice()
        .iter()
        .take(written.count)
        .map(|byte| if *byte == b'\n' {
            '|'
        } else {
            char::from(*byte)
        })
        .collect(heap)?;
    Ok(Some(text))
}
