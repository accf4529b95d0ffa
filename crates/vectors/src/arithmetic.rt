// `FIELD arithmetic A B = [SUM, DIFFERENCE, PRODUCT, INVERSE]`: the inverse is that of A.
use crate::answering::numbers;
use field::Field;
use std::alloc::{AllocError, Global};

pub fn answer<F: Field>(heap: Global, words: &[&str]) -> Result<Option<String>, AllocError> {
    let [a, b] = *numbers(heap, words)?.as_slice() else {
        return Ok(None);
    };
    let results = [F::add(a, b), F::sub(a, b), F::mul(a, b), F::inv(a)];
    Ok(Some(format!(in heap; "{results:?}")?))
}
