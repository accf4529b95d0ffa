// What an asking asks for.
ghost use Rattle.std.specs.Prelude.{◌≤◌};
ghost use Rattle.refusal.specs.Rules.{Within};

use wire::Asked;

// Sums or signatures, from the first index to the last.
#[derive(Clone, Copy)]
pub(crate) struct Question {
    pub(crate) asked: Asked,
    pub(crate) first: u32,
    pub(crate) last: u32,
    ghost first_in: { Within 1 1920 first },
    ghost last_in: { last ≤ 1920 },
}
