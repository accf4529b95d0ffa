// The findings on a farm for programs in C and Rust.
ghost use Rattle.std.specs.Prelude.{◌≡◌, ◌≤◌, length};
ghost use Rattle.desk.specs.declared.room.TheConstants.{FINDINGS_ROOM};
ghost use Rattle.host.specs.Ending.{lent};
ghost use Rattle.host.specs.Findings.{Finds};

use crate::status::{DONE, refuse};

/// All bytes that the program of a desk writes for the bytes of a farm in the small field, also a refusal's line.
/// Returns 0: `count` bytes of the text are written, and the rest of the buffer stays as it was. Else a refusal's number, with its place: the text buffer
/// is too short (2, place 2), and stays as it was. It needs no heap; 12,266 bytes are always enough.
#[unsafe(no_mangle)]
pub extern "C" fn wulambey_findings(
    input: &[u8],
    text: &mut [u8],
    count: &mut usize,
    place: &mut usize,
) -> u32
    ensures answers { Finds input.now (lent text.old count.old place.old) (lent text.new count.new place.new) result }
    ensures enough { FINDINGS_ROOM ≤ length text.old → result ≡ 0 }
{
    match desk::findings(input, text) {
        Ok(written) => {
            *count = written.count;
            DONE
        }
        Err(refusal) => refuse(refusal, place),
    }
}
