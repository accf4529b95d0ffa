// The commands: one for each first word. Each is read and carried out in its own file.

use crate::answer::Reply;
use crate::console::Console;
use crate::excuse::Stop;
use crate::handing::HandOut;
use crate::listing::ListBad;
use crate::making::{MakeCard, MakeShelf};
use crate::misread::Misread;
use crate::opening::Open;
use crate::questions::{AskPages, AskSignature, AskSignatures, AskSum};
use crate::returning::Return;
use crate::rows::ShowRow;
use crate::serving::Serve;
use crate::single::{Sign, Solve};
use crate::taking::{Fetch, Take};
use crate::telling::{TellCounts, TellVerdict};
use crate::weighing::{Settle, Weigh};
use crate::words::Words;
use std::alloc::Global;

#[derive(Drop)]
pub(crate) enum Command {
    Card(MakeCard),
    Shelf(MakeShelf),
    Pages(AskPages),
    Signature(AskSignature),
    Sum(AskSum),
    Signatures(AskSignatures),
    Serve(Serve),
    Sign(Sign),
    Solve(Solve),
    Open(Open),
    Slip(HandOut),
    Take(Take),
    Fetch(Fetch),
    Return(Return),
    Weigh(Weigh),
    Settle(Settle),
    Verdict(TellVerdict),
    Counts(TellCounts),
    Row(ShowRow),
    List(ListBad),
}

impl Command {
    // The command of a line; none for a blank line or a comment.
    pub(crate) fn read(heap: Global, line: &str) -> Result<Option<Command>, Misread> {
        let mut line = line.split_ascii_whitespace();
        let Some(first) = line.next() else {
            return Ok(None);
        };
        if first.starts_with('#') {
            return Ok(None);
        }
        let mut words = Words::new(heap, line)?;
        let command = Command::read_as(first, &mut words)?;
        words.end()?;
        Ok(Some(command))
    }

    // The command that begins with this word, of the words behind it.
    fn read_as(first: &str, words: &mut Words) -> Result<Command, Misread> {
        Ok(match first {
            "card" => Command::Card(MakeCard::read(words)?),
            "shelf" => Command::Shelf(MakeShelf::read(words)?),
            "pages" => Command::Pages(AskPages::read(words)?),
            "sig" => Command::Signature(AskSignature::read(words)?),
            "sum" => Command::Sum(AskSum::read(words)?),
            "sigs" => Command::Signatures(AskSignatures::read(words)?),
            "serve" => Command::Serve(Serve::read(words)?),
            "sign" => Command::Sign(Sign::read(words)?),
            "solve" => Command::Solve(Solve::read(words)?),
            "open" => Command::Open(Open::read(words)?),
            "slip" => Command::Slip(HandOut::read(words)?),
            "take" => Command::Take(Take::read(words)?),
            "fetch" => Command::Fetch(Fetch::read(words)?),
            "return" => Command::Return(Return::read(words)?),
            "weigh" => Command::Weigh(Weigh::read(words)?),
            "settle" => Command::Settle(Settle::read(words)?),
            "verdict" => Command::Verdict(TellVerdict::read(words)?),
            "counts" => Command::Counts(TellCounts::read(words)?),
            "row" => Command::Row(ShowRow::read(words)?),
            "list" => Command::List(ListBad::read(words)?),
            _ => return Err(Misread::unknown(words.heap(), first)),
        })
    }

    pub(crate) fn carry_out(self, console: &mut Console) -> Result<Reply, Stop> {
        match self {
            Command::Card(command) => command.carry_out(console),
            Command::Shelf(command) => command.carry_out(console),
            Command::Pages(command) => command.carry_out(console),
            Command::Signature(command) => command.carry_out(console),
            Command::Sum(command) => command.carry_out(console),
            Command::Signatures(command) => command.carry_out(console),
            Command::Serve(command) => command.carry_out(console),
            Command::Sign(command) => command.carry_out(),
            Command::Solve(command) => command.carry_out(console),
            Command::Open(command) => command.carry_out(console),
            Command::Slip(command) => command.carry_out(console),
            Command::Take(command) => command.carry_out(console),
            Command::Fetch(command) => command.carry_out(console),
            Command::Return(command) => command.carry_out(console),
            Command::Weigh(command) => command.carry_out(console),
            Command::Settle(command) => command.carry_out(console),
            Command::Verdict(command) => command.carry_out(console),
            Command::Counts(command) => command.carry_out(console),
            Command::Row(command) => command.carry_out(console),
            Command::List(command) => command.carry_out(console),
        }
    }
}
