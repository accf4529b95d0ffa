// A check of a farm: its seven calls, its counts, and the promise about every run of them.
#![tactic(auto)]

mod asking;
mod book;
mod check;
mod closing;
mod counts;
mod ending;
mod entering;
mod handing;
mod listing;
mod opening;
mod phases;
mod question;
mod returning;
mod settling;
mod slip;
mod stages;
mod standing;
mod taking;
mod terms;
mod weighed;
mod weighing;

pub use check::Check;
pub use counts::Counts;
pub use phases::{Closed, First, Second, Verdict, Way};
pub use slip::{Returned, Slip};
pub use stages::{Asking, Phase};
pub use weighed::{Declined, Weighed};
