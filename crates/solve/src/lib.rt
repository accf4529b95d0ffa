// Solving a difference: from a few sums of it, the pages where it is not 0, with their codes.
#![tactic(auto)]

mod answer;
mod candidates;
mod entries;
mod limits;
mod listing;
mod locator;
mod lookup;
mod polynomial;
mod verify;

pub use answer::solve;
pub use limits::LIST_SIZE;
pub use lookup::code_at;

/// One page of a solution, with its code. Solving writes a list of `LIST_SIZE`, lent by its caller, rising
/// by page; page 0 stands in all places after the last (docs/RULES.md, "Solving a difference").
#[repr(C)]
#[derive(Clone, Copy, PartialEq, Eq, Debug)]
pub struct Entry {
    /// from 1; 0 where there is none
    pub page: usize,
    /// a code of the field, not 0 where there is a page
    pub code: u32,
}
