// `row`: a row of a tally.

use crate::answer::{Answer, Reply, Row};
use crate::checks::OpenCheck;
use crate::console::Console;
use crate::excuse::{Excuse, Stop};
use crate::misread::Misread;
use crate::words::Words;
use field::Field;
use tally::SUM_COUNT;

// row A s
#[derive(Drop)]
pub(crate) struct ShowRow {
    check: String,
    station: usize,
}

impl ShowRow {
    pub(crate) fn read(words: &mut Words) -> Result<ShowRow, Misread> {
        Ok(ShowRow {
            check: words.name()?,
            station: words.number()?,
        })
    }

    pub(crate) fn carry_out(self, console: &Console) -> Result<Reply, Stop> {
        let check = console.check(self.check.as_str())?;
        let Some((signatures, sums)) = check.row(self.station) else {
            return Err(Excuse::NoRow.into());
        };
        Ok(Answer::Row(Row {
            signatures: Vec::from_slice(console.heap, signatures)?,
            sums: Vec::from_slice(console.heap, sums)?,
        })
        .into())
    }
}

impl<F: Field> OpenCheck<F> {
    // The signatures and the sums in the row of a station.
    pub(crate) fn row(&self, station: usize) -> Option<(&[u32], &[u32])> {
        if station > self.stations {
            return None;
        }
        let length = self.pages.saturating_add(SUM_COUNT);
        let start = station.checked_sub(1)?.saturating_mul(length);
        let row = self.tally.get(start..start.saturating_add(length))?;
        row.split_at_checked(self.pages)
    }
}
