// The differences of all pairs of stations, solved from the sums of the first asking; which pairs are suspect, and what shape these have.
#![tactic(auto)]

mod difference;
mod doubt;
mod held;
mod pair_gaps;
mod searching;
mod seeking;
mod solving;
mod subtracting;
mod suspects;

pub use difference::Difference;
pub use doubt::Doubt;
pub use pair_gaps::PairGaps;
pub use solving::{solve_pair, solve_pairs, solve_sums};
pub use subtracting::put_minus;
