// A check of a script: its name, its stage, its tally, and the slips that it handed out and that are held.

ghost use Rattle.std.specs.Prelude.{◌≤◌, vec_len};

use crate::excuse::Excuse;
use crate::stage::Stage;
use calls::{Returned, Slip};
use field::Field;
use refusal::Refusal;
use std::alloc::AllocError;

// Not `Drop`: its slips are returned, by `close`.
pub(crate) struct OpenCheck<F: Field> {
    pub(crate) name: String,
    pub(crate) stations: usize,
    pub(crate) pages: usize,
    pub(crate) stage: Stage<F>,
    pub(crate) tally: Vec<u32>,
    // the first handed out first
    pub(crate) slips: Vec<Slip>,
}

impl<F: Field> OpenCheck<F> {
    // The first held slip for a station.
    pub(crate) fn find_slip(&self, station: u32) -> Option<&Slip> {
        self.slips
            .iter()
            .find(|slip| slip.request().station == station)
    }

    // Takes the first held slip for a station from those that are held, with its place.
    pub(crate) fn lift(&mut self, station: u32) -> Option<(usize, Slip)> {
        let at = self
            .slips
            .iter()
            .position(|slip| slip.request().station == station)?;
        Some((at, self.slips.remove(at)))
    }

    // Holds a slip at this place; where there is no memory for it, it is returned here.
    pub(crate) fn hold(&mut self, at: usize, slip: Slip) -> Result<(), AllocError> {
        let at = at.min(self.slips.len());
        match self.slips.insert(at, slip) {
            Ok(()) => Ok(()),
            Err(failed) => {
                let _ = self.stage.return_slip(failed.value);
                Err(AllocError)
            }
        }
    }

    // Returns a slip that is held here.
    pub(crate) fn return_own(&mut self, station: u32) -> Result<Result<Returned, Refusal>, Excuse> {
        match self.lift(station) {
            Some((_, slip)) => Ok(self.stage.return_slip(slip)),
            None => Err(Excuse::NoSlip(station)),
        }
    }

    // How many words of the tally are handed in: so many, or all.
    pub(crate) fn room(&self, room: Option<usize>) -> usize
        ensures { result ≤ vec_len self.now.tally }
    {
        self.tally.len().min(room.unwrap_or(usize::MAX))
    }

    // Returns all slips that are held, and ends.
    pub(crate) fn close(self) {
        let OpenCheck {
            name: _,
            stations: _,
            pages: _,
            mut stage,
            tally: _,
            mut slips,
        } = self;
        while let Some(slip) = slips.pop() {
            let _ = stage.return_slip(slip);
        }
        slips.destroy_empty();
    }
}
