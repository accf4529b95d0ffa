// Signing a job into a card, and the sums of a card, for programs in C and Rust.
ghost use Rattle.std.specs.Prelude.{◌≡◌, ◌≤◌, ◌++◌, length, drop, MatchResult};
ghost use Rattle.refusal.specs.Rules.{Refused, Accepted};
ghost use Rattle.page.specs.Pages.{page_count};
ghost use Rattle.station.specs.Kinds.{card_row, job_row};
ghost use Rattle.host.specs.Ending.{lent, EndsIn};
ghost use Rattle.host.specs.Signing.{signing, Signs, summing, row_sums, SumsUp};

use crate::status::{DONE, NO_FIELD, refuse};
use binary::{Small, Wide};
use field::{Field, SUM_LIMIT};
use fields::FieldName;
use prime::Prime;
use refusal::{Buffer, Refusal};
use station::{Card, Station};

// Signs a job into a card, in the field with this number: 1 small, 2 wide, 3 prime.
// Returns 0: `count` words are written. 255: no such field. Else the refusal's number, with its place.
#[unsafe(no_mangle)]
pub extern "C" fn wulambey_sign(
    field: u32,
    job: &[u8],
    page_length: usize,
    card: &mut [u32],
    count: &mut usize,
    place: &mut usize,
) -> u32
    ensures { EndsIn field (λ f. Signs f page_length job.now) (lent card.old count.old place.old) (lent card.new count.new place.new) result }
{
    match FieldName::try_from(field) {
        Ok(FieldName::Small) => sign_in::<Small>(job, page_length, card, count, place),
        Ok(FieldName::Wide) => sign_in::<Wide>(job, page_length, card, count, place),
        Ok(FieldName::Prime) => sign_in::<Prime>(job, page_length, card, count, place),
        Err(_) => NO_FIELD,
    }
}

fn sign_in<F: Field>(
    job: &[u8],
    page_length: usize,
    card: &mut [u32],
    count: &mut usize,
    place: &mut usize,
) -> u32
    ensures { Signs F.Field.ops page_length job.now (lent card.old count.old place.old) (lent card.new count.new place.new) result }
{
    match sign_job::<F>(job, page_length, card) {
        Ok(pages) => {
            *count = pages;
            DONE
        }
        Err(refusal) => refuse(refusal, place),
    }
}

// How many pages are signed.
fn sign_job<F: Field>(job: &[u8], page_length: usize, card: &mut [u32]) -> Result<usize, Refusal>
    ensures { MatchResult result
        (λ pages. Accepted (signing F.Field.ops page_length (length job.now) (length card.old)) × (pages ≡ page_count page_length (length job.now))
        × (card.new ≡ job_row F.Field.ops page_length pages job.now ++ drop pages card.old))
        (λ refusal. Refused (signing F.Field.ops page_length (length job.now) (length card.old)) refusal × (card.new ≡ card.old)) }
{
    let pages = page::count_pages::<F>(job.len(), page_length)?;
    if pages > card.len() {
        return Err(Refusal::Cramped(Buffer::Other));
    }
    sign_pages::<F>(job, page_length, &mut card[..pages]);
    Ok(pages)
}

// A page for each word.
fn sign_pages<F: Field>(job: &[u8], page_length: usize, words: &mut [u32])
    ensures { words.new ≡ job_row F.Field.ops page_length (length words.old) job.now }
{
    for (k, word) in words.iter_mut().enumerate() {
        *word = page::page_signature::<F>(job, page_length, k + 1);
    }
}

// The sums 1, 2, .. of a card, as many as there is room for, in the field with this number.
// Returns 0: they are written. 255: no such field. Else the refusal's number, with its place.
#[unsafe(no_mangle)]
pub extern "C" fn wulambey_sums(
    field: u32,
    card: &[u32],
    sums: &mut [u32],
    place: &mut usize,
) -> u32
    ensures { EndsIn field (λ f. SumsUp f card.now)
        (record { filled = sums.old; place = place.old }) (record { filled = sums.new; place = place.new }) result }
{
    match FieldName::try_from(field) {
        Ok(FieldName::Small) => sums_in::<Small>(card, sums, place),
        Ok(FieldName::Wide) => sums_in::<Wide>(card, sums, place),
        Ok(FieldName::Prime) => sums_in::<Prime>(card, sums, place),
        Err(_) => NO_FIELD,
    }
}

fn sums_in<F: Field>(card: &[u32], sums: &mut [u32], place: &mut usize) -> u32
    ensures { SumsUp F.Field.ops card.now
        (record { filled = sums.old; place = place.old }) (record { filled = sums.new; place = place.new }) result }
{
    match sum_card::<F>(card, sums) {
        Ok(()) => DONE,
        Err(refusal) => refuse(refusal, place),
    }
}

fn sum_card<F: Field>(words: &[u32], sums: &mut [u32]) -> Result<(), Refusal>
    ensures { MatchResult result
        (λ _. Accepted (summing F.Field.ops (length words.now) (length sums.old)) × (sums.new ≡ row_sums F.Field.ops (card_row F.Field.ops words.now) (length sums.old)))
        (λ refusal. Refused (summing F.Field.ops (length words.now) (length sums.old)) refusal × (sums.new ≡ sums.old)) }
{
    let card = Card::<F>::new(words)?;
    if sums.len() > SUM_LIMIT {
        return Err(Refusal::Range);
    }
    write_sums(&card, sums);
    Ok(())
}

fn write_sums<F: Field>(card: &Card<F>, sums: &mut [u32])
    requires few { length sums.old ≤ 128 }
    ensures { sums.new ≡ row_sums F.Field.ops (card_row F.Field.ops card.now.words.now) (length sums.old) }
{
    for (k, sum) in sums.iter_mut().enumerate() {
        *sum = card.sum(k + 1).unwrap();
    }
}
