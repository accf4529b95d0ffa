// Small examples that anybody can work out by hand, as one theorem: what the definitions give, and what two checks come to.
#![tactic(auto)]

ghost use Rattle.worked.specs.Examples.{WorkedExamples};
ghost use Rattle.worked.specs.Limits.{Limits};
ghost use Rattle.worked.specs.Worked.{Worked};

mod checks;

/// All of them: the limits as numbers, the definitions on small inputs, a farm that is over at weighing, and two checks through their calls, with the second reply's words and the count of
/// sums taken.
pub fn worked()
    ensures { Worked }
{
    limits();
    worked_examples();
    checks::worked_checks();
}

// What the definitions give.
fn worked_examples()
    ensures { WorkedExamples }
{}

// Which numbers the limits are.
fn limits()
    ensures { Limits }
{}
