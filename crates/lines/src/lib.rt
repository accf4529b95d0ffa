// Text of a bounded length, which needs no heap, and how it is written into a buffer that a caller lends.
#![tactic(auto)]

mod bounded;
mod written;

pub use bounded::Text;
pub use written::Written;
