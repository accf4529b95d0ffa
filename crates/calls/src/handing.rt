// Handing out slips.
ghost use Rattle.std.specs.Prelude.{◌≡◌, ◌≤◌, ◌++◌, length, drop, MatchResult};
ghost use Rattle.refusal.specs.Rules.{Refused, Accepted, Within};
ghost use Rattle.wire.specs.Requests.{request_words};
ghost use Rattle.calls.specs.Slips.{slipping, OfAsking, Slips};

use crate::book::Book;
use crate::slip::Slip;
use crate::standing::Standing;
use refusal::{Buffer, Refusal};
use wire::Request;

impl Book {
    pub(crate) fn hand_out(
        &mut self,
        only: Option<u32>,
        station: u32,
        words: &mut [u32],
    ) -> Result<Slip, Refusal>
        ensures { Slips self.old only station words.old result self.new words.new }
    {
        self.can_hand_out(only, station, words.len())?;
        let request = self.request_to(station);
        words[..4].copy_from_slice(&request.words());
        self.standings[station as usize] = Standing::Out;
        self.counts.handed += 1;
        self.counts.out += 1;
        Ok(Slip { request })
    }

    fn can_hand_out(&self, only: Option<u32>, station: u32, room: usize) -> Result<(), Refusal>
        ensures { MatchResult result (λ _. Accepted (slipping self.now only station room)) (Refused (slipping self.now only station room)) }
    {
        if room < 4 {
            return Err(Refusal::Cramped(Buffer::Other));
        }
        if station < 2 || station > self.terms.farm.stations as u32 {
            return Err(Refusal::Unknown(station));
        }
        if only.is_some_and(|asked| asked != station) {
            return Err(Refusal::Unasked(station));
        }
        match self.standings[station as usize] {
            Standing::Out | Standing::Heard => return Err(Refusal::Out(station)),
            Standing::Done => return Err(Refusal::In(station)),
            Standing::Free => {}
        }
        if self.counts.handed == u32::MAX {
            return Err(Refusal::Range);
        }
        Ok(())
    }

    // The request of this asking to the station.
    fn request_to(&self, station: u32) -> Request
        requires { station ≤ 8 }
        ensures { OfAsking self.now station result }
    {
        let question = self.question;
        Request::new(
            self.terms.number,
            station,
            question.asked,
            question.first,
            question.last,
        )
        .unwrap()
    }
}
