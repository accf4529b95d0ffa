// The stations of a farm but one that may be set aside, with the differences of rows that are relied on.

use field::Field;
use std::marker::PhantomData;
use tally::Farm;

// Nobody is set aside where `aside` is 0, which is no station: an Option would have to be taken apart wherever a station is compared with it.
#[derive(Drop)]
pub(crate) struct Others<'a, F: Field, G> {
    pub farm: &'a Farm,
    pub gaps: &'a G,
    pub aside: usize,
    pub field: PhantomData<F>,
}
