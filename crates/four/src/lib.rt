// Four stations and more: weighing and settling them by the rows of a lent tally.
#![tactic(auto)]

mod adding;
mod calls;
mod filling;
mod gaps;
mod groups;
mod others;
mod relied;
mod settling;
mod weighing;

pub use calls::{settle_four, weigh_four};
pub use gaps::RowGaps;
