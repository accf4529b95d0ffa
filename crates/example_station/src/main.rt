// An example to copy: a whole check over a station and a field of one's own. docs/EXTENDING.md tells it step by step.
//
// `example_station < FARM` reads lines of decimal numbers: the pages and the bound first, then for each station the signatures of its copy.
#![tactic(auto)]

mod ledger;
mod round;
mod telling;

use example_field::Large;
use ledger::Ledger;
use round::check_farm;
use station::SUM_LIMIT;
use std::alloc::{AllocError, Global};
use std::io;

/// The numbers of a line; what is no number is passed over.
fn numbers_of(heap: Global, line: &str) -> Result<Vec<u32>, AllocError> {
    line.split_whitespace()
        .filter_map(|word| word.parse::<u32>().ok())
        .collect(heap)
}

/// A ledger for each line.
fn ledgers_of(heap: Global, lines: &str) -> Result<Vec<Ledger<Large>>, AllocError> {
    let mut ledgers = Vec::new(heap);
    for line in lines.lines() {
        ledgers.push(Ledger::new(numbers_of(heap, line)?))?;
    }
    Ok(ledgers)
}

fn main(rt: HostRuntime) -> io::Result<()> {
    let heap = rt.alloc();
    let text = io::read_to_string(heap, rt.stdin())?;
    let Some((head, lines)) = text.as_str().split_once('\n') else {
        return println!(rt; "a line with the pages and the bound comes first");
    };
    let [pages, bound] = *numbers_of(heap, head)?.as_slice() else {
        return println!(rt; "the first line has two numbers, the pages and the bound");
    };
    let stations = ledgers_of(heap, lines)?;
    // Eight rows of as many pages as there can be: any check has room.
    let mut tally = vec![in heap; 0u32; 8 * (1920 + SUM_LIMIT)]?;
    match check_farm(stations.as_slice(), pages, bound, tally.as_mut_slice()) {
        Ok(round) => telling::tell(&rt, &round, tally.as_slice()),
        Err(refusal) => println!(rt; "{refusal}"),
    }
}
