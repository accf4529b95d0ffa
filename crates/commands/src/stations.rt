// The stations of a script: each has a name, a field, and what it owns. A question is answered in the station's field.

use crate::holding::Holding;
use binary::{Small, Wide};
use fields::FieldName;
use prime::Prime;
use refusal::Refusal;
use station::Station;

#[derive(Drop)]
pub(crate) struct KeptStation {
    pub(crate) name: String,
    pub(crate) field: FieldName,
    pub(crate) holding: Holding,
}

impl KeptStation {
    pub(crate) fn page_count(&self) -> Result<usize, Refusal> {
        match self.field {
            FieldName::Small => Ok(self.holding.lend::<Small>()?.page_count()),
            FieldName::Wide => Ok(self.holding.lend::<Wide>()?.page_count()),
            FieldName::Prime => Ok(self.holding.lend::<Prime>()?.page_count()),
        }
    }

    pub(crate) fn signature(&self, page: usize) -> Result<u32, Refusal> {
        match self.field {
            FieldName::Small => self.holding.lend::<Small>()?.signature(page),
            FieldName::Wide => self.holding.lend::<Wide>()?.signature(page),
            FieldName::Prime => self.holding.lend::<Prime>()?.signature(page),
        }
    }

    pub(crate) fn sum(&self, j: usize) -> Result<u32, Refusal> {
        match self.field {
            FieldName::Small => self.holding.lend::<Small>()?.sum(j),
            FieldName::Wide => self.holding.lend::<Wide>()?.sum(j),
            FieldName::Prime => self.holding.lend::<Prime>()?.sum(j),
        }
    }

    // As the station with this number: how many words of the reply are written.
    pub(crate) fn serve(
        &self,
        number: u32,
        request: &[u32],
        reply: &mut [u32],
    ) -> Result<usize, Refusal> {
        match self.field {
            FieldName::Small => {
                station::serve(&self.holding.lend::<Small>()?, number, request, reply)
            }
            FieldName::Wide => {
                station::serve(&self.holding.lend::<Wide>()?, number, request, reply)
            }
            FieldName::Prime => {
                station::serve(&self.holding.lend::<Prime>()?, number, request, reply)
            }
        }
    }
}
