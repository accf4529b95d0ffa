// `vectors < TABLE` answers the questions of a table: each line `QUESTION = ANSWER` is written again, with the library's own answer in place of the one that was
// read. The answers of the table come from elsewhere, so the program is right if it writes what it reads. Any other line, as a heading, stays as it is.
#![tactic(auto)]

mod answering;
mod arithmetic;
mod cards_written;
mod jobs;
mod link;
mod powers;
mod serving;
mod solving;

use answering::answer;
use std::io;

fn main(rt: HostRuntime) -> io::Result<()> {
    let heap = rt.alloc();
    let table = io::read_to_string(heap, rt.stdin())?;
    for line in table.as_str().lines() {
        match line.split_once(" = ") {
            Some((question, _)) => {
                let answer = answer(heap, question)?;
                println!(rt; "{question} = {answer}")?;
            }
            None => println!(rt; "{line}")?,
        }
    }
    Ok(())
}
