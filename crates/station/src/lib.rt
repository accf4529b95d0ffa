// Stations: what they mean, what they answer, and serving requests.
#![tactic(auto)]

mod card;
mod questions;
mod serving;
mod shelf;
mod theorems;
mod trait_station;

pub use card::Card;
pub use field::SUM_LIMIT;
pub use questions::accept_index;
pub use serving::serve;
pub use shelf::Shelf;
pub use theorems::{ends_agree, holds_codes, station_agrees};
pub use trait_station::Station;
