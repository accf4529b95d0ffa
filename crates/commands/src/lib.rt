// What an operator types: commands, one a line, and their answers, over the calls of the library.
#![tactic(auto)]

mod answer;
mod any_check;
mod checks;
mod command;
mod console;
mod conversing;
mod digits;
mod ending;
mod excuse;
mod handing;
mod holding;
mod listing;
mod making;
mod marks;
mod misread;
mod opening;
mod questions;
mod replaying;
mod returning;
mod rows;
mod serving;
mod single;
mod slip_name;
mod stage;
mod stations;
mod taking;
mod telling;
mod weighing;
mod words;

pub use console::Console;
pub use conversing::{Failure, converse};
pub use replaying::Mode;
