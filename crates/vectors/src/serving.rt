// `FIELD serve KIND ROOM WORD .. = COUNT: WORD ..`, or `refused NUMBER PLACE: WORD ..`: what station 4, a card or a shelf with the signatures 3, 0 and 5, makes of
// a request. The reply buffer has so many words, all of them 7; what it then holds is written whole, behind the count of the reply's words.
use crate::answering::count;
use crate::link::{link_words, with_words};
use field::Field;
use refusal::Refusal;
use station::{Card, Shelf, serve};
use std::alloc::{AllocError, Global};

pub fn answer<F: Field>(heap: Global, words: &[&str]) -> Result<Option<String>, AllocError> {
    let [kind, room, request @ ..] = words else {
        return Ok(None);
    };
    let Some(room) = count(room) else {
        return Ok(None);
    };
    let request = link_words(heap, request)?;
    let mut reply = vec![in heap; 7u32; room]?;
    let served = match *kind {
        "card" => serve_card::<F>(request.as_slice(), reply.as_mut_slice()),
        "shelf" => serve_shelf::<F>(request.as_slice(), reply.as_mut_slice()),
        _ => return Ok(None),
    };
    let head = match served {
        Ok(count) => format!(in heap; "{count}:")?,
        Err(refusal) => format!(in heap; "{refusal}:")?,
    };
    Ok(Some(with_words(head, reply.as_slice())?))
}

/// Words of a card count modulo the field's size.
fn serve_card<F: Field>(request: &[u32], reply: &mut [u32]) -> Result<usize, Refusal> {
    let words = [3, F::SIZE, F::SIZE.saturating_add(5)];
    let card: Card<F> = Card::new(&words)?;
    serve(&card, 4, request, reply)
}

fn serve_shelf<F: Field>(request: &[u32], reply: &mut [u32]) -> Result<usize, Refusal> {
    let shelf: Shelf<F> = Shelf::new(&[3, 0, 5], 1)?;
    serve(&shelf, 4, request, reply)
}
