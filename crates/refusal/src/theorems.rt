// A call is either accepted or refused.
ghost use Rattle.std.specs.Prelude.{List};
ghost use Rattle.refusal.specs.Rules.{Rule, Exclusive};

/// The rules by which a call is refused, in the order in which they are tried.
pub trait Ruled {
    ghost rules: { List Rule };
}

/// A theorem of every list of rules: no call is both accepted and refused by it.
pub fn exclusive<R: Ruled>()
    ensures { Exclusive R.rules }
{}
