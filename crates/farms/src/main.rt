// `farms < TABLE` checks many farms: a line of hexadecimal digits for each, as the bytes that `wulambey` reads. It writes what is found, and an empty line.
#![tactic(auto)]

ghost use Rattle.std.specs.Prelude.{◌≤◌};
ghost use Rattle.desk.specs.declared.room.TheConstants.{FINDINGS_ROOM};

use desk::FINDINGS_ROOM;
use std::alloc::Global;
use std::io;
use std::io::{Read, Write};

// Writes the findings on the farm of one line into the buffer, and tells how many bytes they are; of a line of other characters none.
fn findings_of(heap: Global, line: &[u8], text: &mut [u8; FINDINGS_ROOM]) -> usize
    ensures { result ≤ FINDINGS_ROOM }
{
    match hex::decode(heap, line) {
        Ok(farm) => desk::findings(farm.as_slice(), text).unwrap().count,
        Err(_) => 0,
    }
}

fn main(rt: HostRuntime) -> io::Result<()> {
    let heap = rt.alloc();
    let mut table = Vec::new(heap);
    rt.stdin().read_to_end(&mut table)?;
    let mut text = [0; FINDINGS_ROOM];
    for line in table.as_slice().split(|byte| *byte == b'\n') {
        let count = findings_of(heap, line, &mut text);
        rt.stdout().write_all(&text[..count])?;
        rt.stdout().write_all(b"\n")?;
    }
    Ok(())
}
