// A slip: the token for one request.
ghost use Rattle.std.specs.Prelude.{◌≡◌};

use wire::Request;

/// The token for one request. It is not `Drop`: it ends only when it is returned, to whichever check. Rules: docs/RULES.md, "Slips".
pub struct Slip {
    pub(crate) request: Request,
}

impl Slip {
    /// What is asked, of which station.
    pub fn request(&self) -> Request
        ensures { result ≡ self.now.request }
    {
        self.request
    }
}

/// What a return says.
#[derive(Clone, Copy, PartialEq, Eq, Debug)]
pub enum Returned {
    /// A reply to its request was taken.
    Answered,
    /// None was.
    Blank,
}
