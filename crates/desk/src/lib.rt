// An operator's desk: a check of a farm's cards through all its calls, and the text of what is found.
#![tactic(auto)]

mod copies;
mod exchange;
mod line;
mod report;
mod room;
mod round;
#[cfg(test)]
mod tests;
mod text;

pub use room::{FARM_ROOM, FINDINGS_ROOM};
pub use round::check_cards;
pub use text::findings;
