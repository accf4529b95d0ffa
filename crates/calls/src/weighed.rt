// What weighing and settling give back.
use crate::check::Check;
use crate::phases::{Closed, Second};
use field::Field;
use refusal::Refusal;

/// What weighing leads to.
#[derive(Drop)]
pub enum Weighed<F: Field> {
    /// The check closed.
    Closes(Check<F, Closed>),
    /// One station is asked again.
    Asks(Check<F, Second>),
}

/// A call that would have taken the check was refused: the check as it was, and why.
#[derive(Drop)]
pub struct Declined<C> {
    /// As it was before the call.
    pub check: C,
    /// Why: its number and place are under "Refusals" in docs/RULES.md.
    pub refusal: Refusal,
}
