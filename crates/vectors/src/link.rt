// Words on the link, eight hexadecimal digits each. `FIELD request CHECK STATION FIRST LAST = words: WORD ..` asks for sums, and `FIELD read WORD .. = words: WORD ..`
// reads a reply to the request that the first four words are: its value words.
use crate::answering::numbers;
use field::Field;
use hex::FromHex;
use std::alloc::{AllocError, Global};
use wire::{Asked, Request, read_reply};

pub fn request(heap: Global, words: &[&str]) -> Result<Option<String>, AllocError> {
    let [check, station, first, last] = *numbers(heap, words)?.as_slice() else {
        return Ok(None);
    };
    match Request::new(check, station, Asked::Sums, first, last) {
        Some(request) => Ok(Some(with_words(String::from_str(heap, "words:")?, &request.words())?)),
        None => Ok(None),
    }
}

pub fn answer<F: Field>(heap: Global, words: &[&str]) -> Result<Option<String>, AllocError> {
    let words = link_words(heap, words)?;
    let Some((request, reply)) = words.as_slice().split_at_checked(4) else {
        return Ok(None);
    };
    let Ok(request) = Request::read(request) else {
        return Ok(None);
    };
    match read_reply::<F>(&request, reply) {
        Ok(values) => Ok(Some(with_words(String::from_str(heap, "words:")?, values)?)),
        Err(refusal) => Ok(Some(format!(in heap; "{refusal}")?)),
    }
}

/// Words, as far as they are words.
pub fn link_words(heap: Global, words: &[&str]) -> Result<Vec<u32>, AllocError> {
    words
        .iter()
        .filter_map(|word| <[u8; 4]>::from_hex(*word).ok())
        .map(|bytes| u32::from_be_bytes(bytes))
        .collect(heap)
}

/// Words behind what is written.
pub fn with_words(mut text: String, words: &[u32]) -> Result<String, AllocError> {
    for word in words {
        write!(text, " {word:08X}")?;
    }
    Ok(text)
}
