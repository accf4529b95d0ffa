// What the two askings ask for.
ghost use Rattle.calls.specs.Questions.{FirstAsks, SecondAsks};

use crate::question::Question;
use crate::terms::Terms;
use wire::Asked;

impl Terms {
    // All signatures in a plain check, and the first sums in any other.
    pub(crate) fn first_question(&self) -> Question
        ensures { FirstAsks self.now result }
    {
        if self.farm.is_plain() {
            Question {
                asked: Asked::Signatures,
                first: 1,
                last: self.farm.pages as u32,
            }
        } else {
            Question {
                asked: Asked::Sums,
                first: 1,
                last: self.farm.first_sums() as u32,
            }
        }
    }

    // The sums that are left.
    pub(crate) fn second_question(&self) -> Question
        ensures { SecondAsks self.now result }
    {
        Question {
            asked: Asked::Sums,
            first: self.farm.first_sums() as u32 + 1,
            last: self.farm.all_sums() as u32,
        }
    }
}
