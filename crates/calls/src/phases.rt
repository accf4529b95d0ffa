// How far a check is.

/// The first asking: every station but the first is asked.
#[derive(Clone, Copy)]
pub struct First;

/// The second asking: one station is asked again.
#[derive(Clone, Copy)]
pub struct Second {
    pub(crate) station: u32,
}

/// How a check closed. Rules: docs/RULES.md, "The verdict".
#[derive(Clone, Copy, PartialEq, Eq, Debug)]
pub enum Verdict {
    /// The rows are known, and on every page more than half of them agree.
    Report,
    /// On this page, 1 to N, no signature is held by more than half.
    Split(usize),
    /// In a steady farm: there are more stray copies than the bound.
    Over,
}

/// Which call closed a check.
#[derive(Clone, Copy, PartialEq, Eq, Debug)]
pub enum Way {
    /// Weighing, after the first asking.
    ByWeighing,
    /// Settling, after this station was asked again.
    BySettling(u32),
}

/// Closed, with a verdict.
#[derive(Clone, Copy)]
pub struct Closed {
    pub(crate) way: Way,
    pub(crate) verdict: Verdict,
}
