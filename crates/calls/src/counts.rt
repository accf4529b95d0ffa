// The counts that every check tells.

/// The counts of a check, from its opening on. Rules: docs/RULES.md, "What a check tells".
#[derive(Clone, Copy, PartialEq, Eq, Debug)]
pub struct Counts {
    /// Slips handed out.
    pub handed: u32,
    /// Accepted returns that said "answered".
    pub answered: u32,
    /// Accepted returns that said "blank".
    pub blank: u32,
    /// Slips still out.
    pub out: u32,
    /// Sums and signatures taken: the value words of accepted replies.
    pub taken: u64,
}
