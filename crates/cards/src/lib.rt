// The signature card of a job, as the text that a slicer writes.
#![tactic(auto)]

mod choice;
mod line;
mod text;

pub use choice::card_in;
pub use text::{CARD_ROOM, card_text};
