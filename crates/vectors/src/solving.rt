// `FIELD solve PAGES WEIGHT SUM .. = [(PAGE, CODE), ..]`, or `none`: the codes of at most so many of the pages that have these sums.
// The list's 129 places are 7, 7 before. Past a solution they are 0, 0, and without one they stay; wherever one is not so, ` !` is written behind the answer.
use crate::answering::{count, numbers};
use field::Field;
use solve::Entry;
use std::alloc::{AllocError, Global};

const MARKED: Entry = Entry { page: 7, code: 7 };

const BLANK: Entry = Entry { page: 0, code: 0 };

pub fn answer<F: Field>(heap: Global, words: &[&str]) -> Result<Option<String>, AllocError> {
    let [pages, weight, sums @ ..] = words else {
        return Ok(None);
    };
    let (Some(pages), Some(weight)) = (count(pages), count(weight)) else {
        return Ok(None);
    };
    let sums = numbers(heap, sums)?;
    let mut list = [MARKED; 129];
    let solved = solve::solve::<F>(pages, sums.as_slice(), weight, &mut list);
    let (text, rest, due) = match solved {
        Ok(Some(count)) => (solution_text(heap, &list[..count])?, &list[count..], BLANK),
        Ok(None) => (String::from_str(heap, "none")?, &list[..], MARKED),
        Err(refusal) => (format!(in heap; "{refusal}")?, &list[..], MARKED),
    };
    let mark = if rest.iter().all(|entry| *entry == due) {
        ""
    } else {
        " !"
    };
    Ok(Some(format!(in heap; "{text}{mark}")?))
}

fn solution_text(heap: Global, entries: &[Entry]) -> Result<String, AllocError> {
    let pairs: Vec<(usize, u32)> = entries
        .iter()
        .map(|entry| (entry.page, entry.code))
        .collect(heap)?;
    format!(in heap; "{pairs:?}")
}
