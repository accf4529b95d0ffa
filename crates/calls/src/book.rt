// What a check keeps between its calls.
ghost use Rattle.std.specs.Prelude.{◌≡◌, ◌+◌, ◌*◌, ◌^◌, ◌<◌, ◌≤◌, length};
ghost use Rattle.calls.specs.Standings.{still_out, replies_out};

use crate::counts::Counts;
use crate::question::Question;
use crate::standing::Standing;
use crate::terms::Terms;

#[derive(Clone, Copy)]
pub(crate) struct Book {
    pub(crate) terms: Terms,
    // what this asking asks for
    pub(crate) question: Question,
    // station s stands at index s
    pub(crate) standings: [Standing; 9],
    pub(crate) counts: Counts,
    ghost full: { length standings ≡ 9 },
    ghost countable: { counts.handed < 2 ^ 32 },
    ghost balance: { counts.handed ≡ counts.answered + counts.blank + counts.out },
    ghost outs: { counts.out ≡ still_out standings },
    ghost modest: { counts.taken ≤ 1920 * (counts.answered + replies_out standings) },
}
