// Taking replies.
ghost use Rattle.std.specs.Prelude.{◌≡◌, ◌≤◌, Decides, length, MatchResult};
ghost use Rattle.refusal.specs.Rules.{Refused, Accepted};
ghost use Rattle.wire.specs.Reading.{Reply};
ghost use Rattle.calls.specs.Slips;
ghost use Rattle.calls.specs.Slips.{OutHere, taking, Takes};

use crate::book::Book;
use crate::entering::enter_values;
use crate::standing::Standing;
use field::Field;
use refusal::{Buffer, Refusal};
use wire::{Request, read_reply};

impl Book {
    pub(crate) fn take_in<F: Field>(
        &mut self,
        request: &Request,
        reply: &[u32],
        tally: &mut [u32],
    ) -> Result<(), Refusal>
        ensures { Takes F.Field.ops self.old request.now reply.now tally.old result self.new tally.new }
    {
        let values = self.can_take::<F>(request, reply, tally.len())?;
        enter_values(self.terms.farm.pages, request, values, tally);
        self.standings[request.station as usize] = Standing::Heard;
        self.counts.taken += values.len() as u64;
        Ok(())
    }

    // The value words of a reply that can be taken.
    fn can_take<'a, F: Field>(
        &self,
        request: &Request,
        reply: &'a [u32],
        room: usize,
    ) -> Result<&'a [u32], Refusal>
        ensures { MatchResult result
            (λ values. Accepted (taking F.Field.ops self.now request.now reply.now room)
            × Reply F.Field.ops request.now reply.now values.now)
            (Refused (taking F.Field.ops self.now request.now reply.now room)) }
    {
        if self.terms.farm.tally_size() > room {
            return Err(Refusal::Cramped(Buffer::Tally));
        }
        if !self.is_out_here(request) {
            return Err(Refusal::Stray(request.station));
        }
        if self.standing(request.station) == Standing::Heard {
            return Err(Refusal::In(request.station));
        }
        read_reply::<F>(request, reply)
    }

    // Whether a slip with this request is out here.
    pub(crate) fn is_out_here(&self, request: &Request) -> bool
        ensures { Decides result (OutHere self.now request.now) }
    {
        request.check == self.terms.number
            && request.asked == self.question.asked
            && request.first == self.question.first
            && request.last == self.question.last
            && self.standing(request.station).is_out()
    }

    // Where the station stands; a number that no station has stands free.
    pub(crate) fn standing(&self, station: u32) -> Standing
        ensures { result ≡ Slips.standing self.now station }
    {
        self.standings
            .get(station as usize)
            .copied()
            .unwrap_or(Standing::Free)
    }
}
