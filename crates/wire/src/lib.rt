// Words on the link: requests and replies, written, read back and refused.
#![tactic(auto)]

mod asked;
mod garbled;
mod kind;
mod reply;
mod request;
mod theorems;
mod words;

pub use asked::Asked;
pub use reply::read_reply;
pub use request::Request;
pub use theorems::{replies_read_back, requests_read_back};
pub use words::value_word;
