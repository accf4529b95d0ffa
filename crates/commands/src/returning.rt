// `return`: the return of a slip.

use crate::answer::{Answer, Reply};
use crate::any_check::AnyCheck;
use crate::console::Console;
use crate::excuse::Stop;
use crate::misread::Misread;
use crate::slip_name::SlipName;
use crate::words::Words;
use calls::Returned;
use refusal::Refusal;

// return A SLIP
#[derive(Drop)]
pub(crate) struct Return {
    check: String,
    slip: SlipName,
}

impl Return {
    pub(crate) fn read(words: &mut Words) -> Result<Return, Misread> {
        Ok(Return {
            check: words.name()?,
            slip: words.slip_name()?,
        })
    }

    pub(crate) fn carry_out(self, console: &mut Console) -> Result<Reply, Stop> {
        let check = console.take_out(self.check.as_str())?;
        let (check, returned) = self.give_back(console, check);
        console.put(check)?;
        Ok(Answer::of(returned?.map(Answer::Returned)).into())
    }

    // A slip of the check's own, or of another check that is kept.
    fn give_back(
        &self,
        console: &mut Console,
        check: AnyCheck,
    ) -> (AnyCheck, Result<Result<Returned, Refusal>, Stop>) {
        let station = self.slip.station;
        match self.slip.other_than(self.check.as_str()) {
            None => {
                let (check, returned) = check.return_own(station);
                (check, returned.map_err(Stop::Excused))
            }
            Some(holder) => match console.lift(holder, station) {
                Ok(slip) => {
                    let (check, returned) = check.return_slip(slip);
                    (check, Ok(returned))
                }
                Err(stop) => (check, Err(stop)),
            },
        }
    }
}
