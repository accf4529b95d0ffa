// The verdict on the rows of a lent tally.
#![tactic(auto)]

mod calls;
mod farms;

pub use calls::{settle, weigh};
pub use farms::{settle_farm, weigh_farm};
pub use tally::Outcome;
