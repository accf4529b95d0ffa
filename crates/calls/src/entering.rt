// Entering the own copy and the values of replies into the rows of a tally.
ghost use Rattle.std.specs.Prelude.{◌≡◌, ◌+◌, ◌≤◌, length, replicate, drop, ◌++◌, slice_set};
ghost use Rattle.field.specs.Sums.{entry, power_sum};
ghost use Rattle.algebra.specs.Vectors.{Page};
ghost use Rattle.scheme.specs.Askings.{all_sums};
ghost use Rattle.tally.specs.Rows.{tally_size, signature_place, sum_place};
ghost use Rattle.calls.specs.Entering.{Placed, RowsOpened, Entered, place_of};

use crate::terms::Terms;
use field::{Field, VALUE_LIMIT};
use station::Station;
use tally::{put_signature, put_sum};
use wire::{Asked, Request};

// Clears the rows, and fills row 1 with the signatures of the own copy and their sums.
pub(crate) fn open_rows<F: Field, S: Station<F>>(own: &S, terms: &Terms, tally: &mut [u32])
    requires whole { length (S.Station.row own.now) ≡ terms.now.farm.pages }
    requires room { tally_size terms.now.farm.stations terms.now.farm.pages ≤ length tally.old }
    ensures { RowsOpened F.Field.ops (S.Station.row own.now) terms.now.farm.stations terms.now.farm.pages (all_sums terms.now.farm.pages terms.now.farm.bound) tally.old tally.new }
{
    tally[..terms.farm.tally_size()].fill(0);
    let pages = terms.farm.pages;
    fill_signatures::<F, S>(own, pages, tally);
    fill_sums::<F, S>(own, pages, terms.farm.all_sums(), tally);
}

// Puts the signatures of all pages into row 1.
fn fill_signatures<F: Field, S: Station<F>>(own: &S, pages: usize, tally: &mut [u32])
    requires short { pages ≤ 1920 }
    requires whole { length (S.Station.row own.now) ≡ pages }
    ensures { Placed (signature_place pages 1) (entry (S.Station.row own.now)) 1 (pages + 1) tally.old tally.new }
{
    for page in 1..=pages {
        let signature = own.signature(page).unwrap();
        put_signature(tally, pages, 1, page, signature);
    }
}

// Puts the sums 1 to `sums` into row 1.
fn fill_sums<F: Field, S: Station<F>>(own: &S, pages: usize, sums: usize, tally: &mut [u32])
    requires told { sums ≤ 128 }
    requires whole { length (S.Station.row own.now) ≡ pages }
    ensures { Placed (sum_place pages 1) (power_sum F.Field.ops pages (entry (S.Station.row own.now))) 1 (sums + 1) tally.old tally.new }
{
    for j in 1..=sums {
        let sum = own.sum(j).unwrap();
        put_sum(tally, pages, 1, j, sum);
    }
}

// Puts the value words of a reply to the request into the row of its station.
// The indices start at 1: an index 0 would share its place with index 1.
pub(crate) fn enter_values(pages: usize, request: &Request, values: &[u32], tally: &mut [u32])
    requires from { 1 ≤ request.now.first }
    ensures { Entered pages request.now values.now tally.old tally.new }
{
    let station = request.station as usize;
    for (k, word) in values.iter().enumerate() {
        let index = request.first as usize + k;
        let value = *word % VALUE_LIMIT;
        enter(request.asked, pages, station, index, value, tally);
    }
}

// Puts one value into the row of the station.
fn enter(asked: Asked, pages: usize, station: usize, index: usize, value: u32, tally: &mut [u32])
    ensures { tally.new ≡ slice_set tally.old (place_of asked pages station index) value }
{
    match asked {
        Asked::Sums => put_sum(tally, pages, station, index, value),
        Asked::Signatures => put_signature(tally, pages, station, index, value),
    }
}
