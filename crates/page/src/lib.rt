// Pages of a job, their signatures, and the sums of a row of signatures.
#![tactic(auto)]

mod count;
mod cut;
mod page;
mod sum;

pub use count::{accept_pages, count_pages};
pub use cut::{Cut, PAGE_LENGTH_LIMIT};
pub use page::{page_bytes, page_signature, sign};
pub use sum::{job_sum, row_sum};
