// `FIELD powers HOW COUNT = [POWER, ..]`: the powers of alpha from the power 0 on, called for or by squaring; or those that come next, each in one step.
use crate::answering::count;
use field::Field;
use std::alloc::{AllocError, Global};

pub fn answer<F: Field>(heap: Global, words: &[&str]) -> Result<Option<String>, AllocError> {
    let [how, due] = words else {
        return Ok(None);
    };
    let Some(due) = count(due) else {
        return Ok(None);
    };
    let powers: Vec<u32> = match *how {
        "called" => (0..due).map(|n| F::alpha_pow(n)).collect(heap)?,
        "squared" => (0..due).map(|n| F::pow(F::ALPHA, n)).collect(heap)?,
        "next" => (0..due)
            .map(|n| F::alpha_add(F::alpha_pow(n), 0))
            .collect(heap)?,
        _ => return Ok(None),
    };
    Ok(Some(format!(in heap; "{powers:?}")?))
}
