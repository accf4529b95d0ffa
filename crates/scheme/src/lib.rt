// What the rules find of a farm's table by the sums that are told: the truth, where there are few enough stray copies.
#![tactic(auto)]

ghost use Rattle.scheme.specs.Theorem.{Right, One, Total, Additive, Coded, Closes, SuspectByAnswers, Leading, Sample};
ghost use Rattle.scheme.specs.Yielding.{FilledYields};

// In a plain farm, and in any other with no more stray copies than the bound, the rules end in a split of a page without a majority or in a report on
// the table's own rows, and are never over.
pub fn right()
    ensures { Right }
{}

// Whatever is told, weighing has at most one outcome, so has settling, and so have the two one after the other.
pub fn one()
    ensures { One }
{}

// Whatever is told, weighing has an outcome; where it asks a station, that is not the first, and settling has an outcome. So any tally has exactly
// one outcome of settling, by `one` and `total`.
pub fn total()
    ensures { Total }
{}

// Differences to be relied on that add up for any three stations in order add up in every order.
pub fn additive()
    ensures { Additive }
{}

// Rows that are filled are codes, if row 1 is.
pub fn coded()
    ensures { Coded }
{}

// Rows that are filled would tell all that was told, whatever was told.
pub fn filled_yields()
    ensures { FilledYields }
{}

// Any rows are split on a page, or there is a report on them, and never both.
pub fn closes()
    ensures { Closes }
{}

// Which pairs are suspect is known by what a solver answers.
pub fn suspect_by_answers()
    ensures { SuspectByAnswers }
{}

// The lead of a page is the lowest station of its largest group.
pub fn leading()
    ensures { Leading }
{}

// Tables that the first theorem speaks of are there, in every field that has places for three pages: of four stations, of three, and of a plain farm.
pub fn sample()
    ensures { Sample }
{}
