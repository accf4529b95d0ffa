// Calls for programs in C and Rust: numbers and slices in, numbers out.
#![tactic(auto)]

// Each call matches on the field, since each arm is another instance; a visitor in the place of seven matches is longer.
mod findings;
mod judging;
mod serving;
mod signing;
mod single;
mod solving;
mod status;
