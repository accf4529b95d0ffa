// What a station of the console owns, and the station of the library that is lent for a call.
ghost use Rattle.std.specs.Prelude.{List, ℕ};

use field::Field;
use refusal::Refusal;
use station::{Card, Shelf, Station};

// A kind of station, with the words or bytes that it is of.
#[derive(Drop)]
pub(crate) enum Holding {
    Card(Vec<u32>),
    Shelf { length: usize, job: Vec<u8> },
}

// The same as a station of the library: each kind is a type parameter.
#[derive(Drop)]
pub(crate) enum Lent<C, S> {
    Card(C),
    Shelf(S),
}

impl Holding {
    // Refused as making the station is.
    pub(crate) fn lend<F: Field>(&self) -> Result<Lent<Card<'_, F>, Shelf<'_, F>>, Refusal> {
        match self {
            Holding::Card(words) => Ok(Lent::Card(Card::new(words.as_slice())?)),
            Holding::Shelf { length, job } => {
                Ok(Lent::Shelf(Shelf::new(job.as_slice(), *length)?))
            }
        }
    }
}

impl<F: Field, C: Station<F>, S: Station<F>> Station<F> for Lent<C, S> {
    ghost use Rattle.commands.specs.Lent.{lent_row};

    ghost row = { lent_row C.Station.row S.Station.row };

    fn page_count(&self) -> usize {
        match self {
            Lent::Card(card) => card.page_count(),
            Lent::Shelf(shelf) => shelf.page_count(),
        }
    }

    fn signature(&self, page: usize) -> Result<u32, Refusal> {
        match self {
            Lent::Card(card) => card.signature(page),
            Lent::Shelf(shelf) => shelf.signature(page),
        }
    }

    fn sum(&self, j: usize) -> Result<u32, Refusal> {
        match self {
            Lent::Card(card) => card.sum(j),
            Lent::Shelf(shelf) => shelf.sum(j),
        }
    }
}
