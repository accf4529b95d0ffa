// `pages`, `sig`, `sum` and `sigs`: what a station tells.

use crate::answer::{Answer, Reply};
use crate::console::Console;
use crate::excuse::Stop;
use crate::misread::Misread;
use crate::stations::KeptStation;
use crate::words::Words;
use refusal::Refusal;
use std::alloc::{AllocError, Global};

// pages S
#[derive(Drop)]
pub(crate) struct AskPages {
    station: String,
}

// sig S n
#[derive(Drop)]
pub(crate) struct AskSignature {
    station: String,
    page: usize,
}

// sum S j
#[derive(Drop)]
pub(crate) struct AskSum {
    station: String,
    sum: usize,
}

// sigs S
#[derive(Drop)]
pub(crate) struct AskSignatures {
    station: String,
}

impl AskPages {
    pub(crate) fn read(words: &mut Words) -> Result<AskPages, Misread> {
        Ok(AskPages {
            station: words.name()?,
        })
    }

    pub(crate) fn carry_out(self, console: &Console) -> Result<Reply, Stop> {
        let station = console.station(self.station.as_str())?;
        Ok(Answer::of(station.page_count().map(Answer::Pages)).into())
    }
}

impl AskSignature {
    pub(crate) fn read(words: &mut Words) -> Result<AskSignature, Misread> {
        Ok(AskSignature {
            station: words.name()?,
            page: words.number()?,
        })
    }

    pub(crate) fn carry_out(self, console: &Console) -> Result<Reply, Stop> {
        let station = console.station(self.station.as_str())?;
        Ok(Answer::of(station.signature(self.page).map(Answer::Signature)).into())
    }
}

impl AskSum {
    pub(crate) fn read(words: &mut Words) -> Result<AskSum, Misread> {
        Ok(AskSum {
            station: words.name()?,
            sum: words.number()?,
        })
    }

    pub(crate) fn carry_out(self, console: &Console) -> Result<Reply, Stop> {
        let station = console.station(self.station.as_str())?;
        Ok(Answer::of(station.sum(self.sum).map(Answer::Sum)).into())
    }
}

impl AskSignatures {
    pub(crate) fn read(words: &mut Words) -> Result<AskSignatures, Misread> {
        Ok(AskSignatures {
            station: words.name()?,
        })
    }

    pub(crate) fn carry_out(self, console: &Console) -> Result<Reply, Stop> {
        let station = console.station(self.station.as_str())?;
        let signatures = all_signatures(console.heap, station)?;
        Ok(Answer::of(signatures.map(Answer::Signatures)).into())
    }
}

// The signatures of all pages, in order.
fn all_signatures(
    heap: Global,
    station: &KeptStation,
) -> Result<Result<Vec<u32>, Refusal>, AllocError> {
    let pages = match station.page_count() {
        Ok(pages) => pages,
        Err(refusal) => return Ok(Err(refusal)),
    };
    let mut signatures = Vec::new(heap);
    for page in 1..=pages {
        match station.signature(page) {
            Ok(signature) => signatures.push(signature)?,
            Err(refusal) => return Ok(Err(refusal)),
        }
    }
    Ok(Ok(signatures))
}
