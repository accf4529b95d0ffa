// Weighing four stations and more: what the first sums say.
ghost use Rattle.std.specs.Prelude.{◌≡◌, ◌≤◌, length};
ghost use Rattle.tally.specs.Rows.{sum_in, tally_size};
ghost use Rattle.pairs.specs.Solving.{PairsSolved};
ghost use Rattle.four.specs.Relied.{Relies};
ghost use Rattle.four.specs.Weighed.{Weighed};

use crate::filling::fill_rows;
use crate::others::Others;
use crate::relied::Relied;
use field::Field;
use pairs::{Doubt, PairGaps};
use std::marker::PhantomData;
use tally::{Farm, Outcome};

// What comes after the first asking. No Result, since neither is an error.
#[derive(Clone, Copy)]
pub(crate) enum Weighing {
    // it ends, and nobody is asked again
    Ended(Outcome),
    // this station is in doubt; the solved differences of the others are relied on
    Doubted(usize),
}

pub(crate) fn weigh_rows<F: Field>(farm: &Farm, gaps: &PairGaps, tally: &mut [u32]) -> Weighing
    requires least { 4 ≤ farm.now.stations }
    requires room { tally_size farm.now.stations farm.now.pages ≤ length tally.old }
    requires solved { PairsSolved F.Field.ops farm.now.stations farm.now.pages farm.now.bound (sum_in tally.old farm.now.pages) gaps.now }
    ensures { Weighed F.Field.ops farm.now.stations farm.now.pages farm.now.bound gaps.now tally.old tally.new result }
{
    let Some(relied) = rely(gaps) else {
        return Weighing::Ended(Outcome::Over);
    };
    let others = Others {
        farm,
        gaps: &relied,
        aside: relied.aside().unwrap_or(0),
        field: PhantomData::<F>,
    };
    if !others.all_add() {
        return Weighing::Ended(Outcome::Over);
    }
    let Some(aside) = relied.aside() else {
        fill_rows::<F, _>(farm, &relied, tally);
        return Weighing::Ended(Outcome::Filled);
    };
    match others.first_scattered() {
        Some(page) => Weighing::Ended(Outcome::Split(page)),
        None => Weighing::Doubted(aside),
    }
}

// The differences to be relied on; none where two suspect pairs are disjoint.
fn rely(gaps: &PairGaps) -> Option<Relied<'_>>
    ensures { Relies gaps.now result }
{
    match gaps.doubt() {
        Doubt::TwoApart => None,
        doubt => Some(Relied { gaps, doubt }),
    }
}
