// A tally, lent by its owner: a row for each station, its signatures and then its sums; and what judging it comes to.
#![tactic(auto)]

mod closing;
mod farm;
mod listing;
mod outcome;
mod places;
mod row;
mod rows;

pub use farm::Farm;
pub use listing::list_bad;
pub use outcome::Outcome;
pub use places::{SUM_COUNT, put_signature, put_sum};
pub use row::put_row;
pub use rows::Rows;
