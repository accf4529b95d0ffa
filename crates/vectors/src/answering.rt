// A question: a field, what is asked of it, and the words of the question. What is no question has no answer.
use crate::{arithmetic, cards_written, jobs, link, powers, serving, solving};
use binary::{Small, Wide};
use field::Field;
use fields::FieldName;
use prime::Prime;
use std::alloc::{AllocError, Global};

/// The library's answer, or a mark that no table has.
pub fn answer(heap: Global, question: &str) -> Result<String, AllocError> {
    let words: Vec<&str> = question.split_whitespace().collect(heap)?;
    let [field, kind, rest @ ..] = words.as_slice() else {
        return String::from_str(heap, "?");
    };
    let answer = match field.parse::<FieldName>() {
        Ok(FieldName::Small) => answer_in::<Small>(heap, FieldName::Small, kind, rest)?,
        Ok(FieldName::Wide) => answer_in::<Wide>(heap, FieldName::Wide, kind, rest)?,
        Ok(FieldName::Prime) => answer_in::<Prime>(heap, FieldName::Prime, kind, rest)?,
        Err(_) => None,
    };
    match answer {
        Some(answer) => Ok(answer),
        None => String::from_str(heap, "?"),
    }
}

fn answer_in<F: Field>(
    heap: Global,
    field: FieldName,
    kind: &str,
    words: &[&str],
) -> Result<Option<String>, AllocError> {
    match kind {
        "arithmetic" => arithmetic::answer::<F>(heap, words),
        "powers" => powers::answer::<F>(heap, words),
        "job" => jobs::answer::<F>(heap, words),
        "card" => cards_written::answer(heap, field, words),
        "solve" => solving::answer::<F>(heap, words),
        "serve" => serving::answer::<F>(heap, words),
        "request" => link::request(heap, words),
        "read" => link::answer::<F>(heap, words),
        _ => Ok(None),
    }
}

/// A number that is counted with.
pub fn count(word: &str) -> Option<usize> {
    word.parse::<usize>().ok()
}

/// Numbers, as far as the words are numbers.
pub fn numbers(heap: Global, words: &[&str]) -> Result<Vec<u32>, AllocError> {
    words
        .iter()
        .filter_map(|word| word.parse::<u32>().ok())
        .collect(heap)
}
