// How weighing or settling ends.

#[derive(Clone, Copy, PartialEq, Eq, Debug)]
pub enum Outcome {
    // too many stray copies for the bound
    Over,
    // this page has no majority
    Split(usize),
    // the rows are written into the tally
    Filled,
    // this station is to be asked again
    Asks(usize),
}
