// Three stations: weighing and settling them by the rows of a lent tally and the solved differences of their pairs.
#![tactic(auto)]

mod settling;
mod taking;
mod third;
mod weighing;

pub use settling::settle_three;
pub use weighing::weigh_three;
