// Where a station stands in an asking.
ghost use Rattle.std.specs.Prelude.{◌≡◌, Decides};
ghost use Rattle.calls.specs.Standings.{SlipOut};

#[derive(Clone, Copy, PartialEq, Eq, Debug)]
pub(crate) enum Standing {
    // It has no slip, and its reply is lacking.
    Free,
    // Its slip is out.
    Out,
    // Its slip is out, and its reply was taken.
    Heard,
    // Its slip came back answered.
    Done,
}

impl Standing {
    pub(crate) fn is_out(self) -> bool
        ensures { Decides result (SlipOut self) }
    {
        matches!(self, Standing::Out | Standing::Heard)
    }
}
