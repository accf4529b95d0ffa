// What a check is opened with.
ghost use Rattle.std.specs.Prelude.{◌-◌, ◌^◌};
ghost use Rattle.refusal.specs.Rules.{Within};

use tally::Farm;

#[derive(Clone, Copy)]
pub(crate) struct Terms {
    // of the check, from 1; it fits the 28 bits of a word on the link
    pub(crate) number: u32,
    pub(crate) farm: Farm,
    ghost number_in: { Within 1 (2 ^ 28 - 1) number },
}
