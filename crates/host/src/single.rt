// One code: the signature of one page of a job, or one sum of a row, for programs in C and Rust.
ghost use Rattle.std.specs.Prelude.{◌≡◌, length, MatchResult};
ghost use Rattle.refusal.specs.Rules.{Refused, Accepted};
ghost use Rattle.page.specs.Pages.{page_signature};
ghost use Rattle.station.specs.Kinds.{card_row};
ghost use Rattle.host.specs.Ending.{EndsIn};
ghost use Rattle.host.specs.Single.{lent_code, signing_page, SignsPage, summing_row, row_sum, SumsRow};

use crate::status::{DONE, NO_FIELD, refuse};
use binary::{Small, Wide};
use field::Field;
use fields::FieldName;
use prime::Prime;
use refusal::Refusal;
use station::{Card, Shelf, Station};

// The signature of one page of a job, in the field with this number: 1 small, 2 wide, 3 prime.
// Returns 0: it is written. 255: no such field. Else the refusal's number, with its place.
#[unsafe(no_mangle)]
pub extern "C" fn wulambey_page_signature(
    field: u32,
    job: &[u8],
    page_length: usize,
    page: usize,
    signature: &mut u32,
    place: &mut usize,
) -> u32
    ensures { EndsIn field (λ f. SignsPage f page_length job.now page)
        (lent_code signature.old place.old) (lent_code signature.new place.new) result }
{
    match FieldName::try_from(field) {
        Ok(FieldName::Small) => page_in::<Small>(job, page_length, page, signature, place),
        Ok(FieldName::Wide) => page_in::<Wide>(job, page_length, page, signature, place),
        Ok(FieldName::Prime) => page_in::<Prime>(job, page_length, page, signature, place),
        Err(_) => NO_FIELD,
    }
}

fn page_in<F: Field>(
    job: &[u8],
    page_length: usize,
    page: usize,
    signature: &mut u32,
    place: &mut usize,
) -> u32
    ensures { SignsPage F.Field.ops page_length job.now page
        (lent_code signature.old place.old) (lent_code signature.new place.new) result }
{
    match sign_page::<F>(job, page_length, page) {
        Ok(code) => {
            *signature = code;
            DONE
        }
        Err(refusal) => refuse(refusal, place),
    }
}

fn sign_page<F: Field>(job: &[u8], page_length: usize, page: usize) -> Result<u32, Refusal>
    ensures { MatchResult result
        (λ code. Accepted (signing_page F.Field.ops page_length (length job.now) page)
        × (code ≡ page_signature F.Field.ops page_length job.now page))
        (Refused (signing_page F.Field.ops page_length (length job.now) page)) }
{
    Shelf::<F>::new(job, page_length)?.signature(page)
}

// Sum j of a row of signatures, in the field with this number.
// Returns 0: it is written. 255: no such field. Else the refusal's number, with its place.
#[unsafe(no_mangle)]
pub extern "C" fn wulambey_row_sum(
    field: u32,
    row: &[u32],
    j: usize,
    sum: &mut u32,
    place: &mut usize,
) -> u32
    ensures { EndsIn field (λ f. SumsRow f row.now j)
        (lent_code sum.old place.old) (lent_code sum.new place.new) result }
{
    match FieldName::try_from(field) {
        Ok(FieldName::Small) => sum_in::<Small>(row, j, sum, place),
        Ok(FieldName::Wide) => sum_in::<Wide>(row, j, sum, place),
        Ok(FieldName::Prime) => sum_in::<Prime>(row, j, sum, place),
        Err(_) => NO_FIELD,
    }
}

fn sum_in<F: Field>(row: &[u32], j: usize, sum: &mut u32, place: &mut usize) -> u32
    ensures { SumsRow F.Field.ops row.now j
        (lent_code sum.old place.old) (lent_code sum.new place.new) result }
{
    match sum_row::<F>(row, j) {
        Ok(code) => {
            *sum = code;
            DONE
        }
        Err(refusal) => refuse(refusal, place),
    }
}

fn sum_row<F: Field>(row: &[u32], j: usize) -> Result<u32, Refusal>
    ensures { MatchResult result
        (λ code. Accepted (summing_row F.Field.ops (length row.now) j)
        × (code ≡ row_sum F.Field.ops (card_row F.Field.ops row.now) j))
        (Refused (summing_row F.Field.ops (length row.now) j)) }
{
    Card::<F>::new(row)?.sum(j)
}
