// The numbers that all layers share.
ghost use Rattle.std.specs.Prelude.{◌≡◌};
ghost use Rattle.field.specs.Field.{page_limit};

use crate::Field;

/// What a word on the link holds beside its kind is below this: 28 bits. So a field has no more elements.
pub const VALUE_LIMIT: u32 = 1 << 28;

/// The most pages that a job has in any field.
pub const PAGE_LIMIT: usize = 1920;

/// The sums of a row are counted from 1 to this: so many a station tells, a tally keeps, and a difference
/// is solved from at most.
pub const SUM_LIMIT: usize = 128;

/// The most pages that a job has in this field: 1,920, or the field's places if they are fewer.
pub fn page_limit<F: Field>() -> usize
    ensures { result ≡ page_limit F.Field.ops }
{
    F::PLACES.min(PAGE_LIMIT)
}
