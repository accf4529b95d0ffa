// What the calls ask of a phase, so that each call stands once for all phases that have it.
ghost use Rattle.std.specs.Prelude.{◌≡◌, ℕ, Option, Some, None, refl};
ghost use Rattle.calls.specs.Runs;
ghost use Rattle.calls.specs.Runs.{Stage, AsksOnly, found};

use crate::phases::{Closed, First, Second, Verdict};

/// Each phase shows the stage of a run that it stands for.
pub trait Phase {
    ghost stage: { Self → Stage };

    /// The verdict, once there is one.
    fn found(&self) -> Option<Verdict>
        ensures { result ≡ found (stage self.now) };
}

impl Phase for First {
    ghost stage = { λ phase. Runs.first };

    fn found(&self) -> Option<Verdict> {
        None
    }
}

impl Phase for Second {
    ghost stage = { λ phase. Runs.second phase.station };

    fn found(&self) -> Option<Verdict> {
        None
    }
}

impl Phase for Closed {
    ghost stage = { λ phase. Runs.closed phase.way phase.verdict };

    fn found(&self) -> Option<Verdict> {
        Some(self.verdict)
    }
}

/// In an asking slips are handed out and replies taken. No closed check is one: its stage asks nobody.
pub trait Asking: Phase {
    // the one station that is asked, if not all are
    ghost only: { Self → Option ℕ };

    fn only(&self) -> Option<u32>
        ensures { result ≡ only self.now };

    ghost asks: { (phase : Self) → AsksOnly (Self.stage phase) (only phase) };
}

impl Asking for First {
    ghost only = { λ phase. None };

    ghost asks = { λ phase. refl };

    fn only(&self) -> Option<u32> {
        None
    }
}

impl Asking for Second {
    ghost only = { λ phase. Some phase.station };

    ghost asks = { λ phase. refl };

    fn only(&self) -> Option<u32> {
        Some(self.station)
    }
}
