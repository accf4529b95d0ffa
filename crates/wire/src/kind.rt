// The kinds of a word.
ghost use Rattle.std.specs.Prelude.{◌≡◌};
ghost use Rattle.wire.specs.Kinds.{kind_number};

use crate::asked::Asked;

#[derive(Clone, Copy, PartialEq, Eq, Debug)]
pub(crate) enum Kind {
    // which check asks
    Check,
    // which station is asked
    Station,
    // the first index, and what it is an index of
    First(Asked),
    // the last index
    Last,
    // an answer
    Value,
}

impl From<Kind> for u32 {
    ghost from_gives = { λ kind number. number ≡ kind_number kind };

    fn from(kind: Kind) -> u32 {
        match kind {
            Kind::Check => 1,
            Kind::Station => 2,
            Kind::First(Asked::Sums) => 3,
            Kind::First(Asked::Signatures) => 4,
            Kind::Last => 5,
            Kind::Value => 6,
        }
    }
}
