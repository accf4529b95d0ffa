// One page of a job, and its signature. Only this file knows which bytes a signature runs over.
// A job's bytes and the page length stay two parameters, as other programs hand them in.
ghost use Rattle.std.specs.Prelude.{◌≡◌, fold, length};
ghost use Rattle.page.specs.Pages.{page_bytes, own_length, signed_bytes, absorb, signature, page_signature};

use crate::cut::{length_of_page, start_of_page};
use field::Field;

/// A job's own bytes of page 1, 2, .., with pages of this length, as many as `Cut` tells; none for a page that
/// the job does not have.
pub fn page_bytes(job: &[u8], page_length: usize, page: usize) -> &[u8]
    ensures is { result.now ≡ page_bytes page_length job.now page }
    ensures long { length result.now ≡ own_length page_length (length job.now) page }
{
    let start = start_of_page(job.len(), page_length, page);
    &job[start..start + length_of_page(job.len(), page_length, page)]
}

// Goes on from a signature over more bytes.
fn absorb_all<F: Field>(start: u32, bytes: &[u8]) -> u32
    ensures { result ≡ fold (absorb F.Field.ops) start bytes.now }
{
    bytes.iter().fold(start, |signature, byte| {
        F::alpha_add(signature, u32::from(*byte))
    })
}

/// The signature of a page with these bytes of its own, filled with zero bytes at its end up to the page
/// length: a code of the field (docs/RULES.md, "Pages and signatures"). More bytes than the length are
/// signed as they are.
pub fn sign<F: Field>(own: &[u8], page_length: usize) -> u32
    ensures { result ≡ signature F.Field.ops (signed_bytes page_length own.now) }
{
    let filling = page_length.saturating_sub(own.len());
    F::mul(absorb_all::<F>(0, own), F::alpha_pow(filling))
}

/// The signature of page 1, 2, .. of a job, with pages of this length; 0 for a page that the job does not
/// have.
pub fn page_signature<F: Field>(job: &[u8], page_length: usize, page: usize) -> u32
    ensures { result ≡ page_signature F.Field.ops page_length job.now page }
{
    sign::<F>(page_bytes(job, page_length, page), page_length)
}
