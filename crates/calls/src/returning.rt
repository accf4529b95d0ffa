// The return of slips.
ghost use Rattle.std.specs.Prelude.{◌≡◌};
ghost use Rattle.calls.specs.Slips.{Returns};

use crate::book::Book;
use crate::slip::Returned;
use crate::standing::Standing;
use refusal::Refusal;
use wire::Request;

impl Book {
    pub(crate) fn end(&mut self, request: &Request) -> Result<Returned, Refusal>
        ensures { Returns self.old request.now result self.new }
    {
        if !self.is_out_here(request) {
            return Err(Refusal::Stray(request.station));
        }
        let station = request.station as usize;
        self.counts.out -= 1;
        if self.standings[station] == Standing::Heard {
            self.standings[station] = Standing::Done;
            self.counts.answered += 1;
            Ok(Returned::Answered)
        } else {
            self.standings[station] = Standing::Free;
            self.counts.blank += 1;
            Ok(Returned::Blank)
        }
    }
}
