// Looking up a page in the list of a solution.
ghost use Rattle.std.specs.Prelude.{◌≡◌};
ghost use Rattle.solve.specs.Answer;

use crate::Entry;
use crate::limits::LIST_SIZE;

/// The code that a list gives a page, 0 if it has none for it; what stands after the first page 0 counts
/// for nothing.
pub fn code_at(list: &[Entry; LIST_SIZE], page: usize) -> u32
    ensures { result ≡ Answer.code_at list.now page }
{
    // A loop, since what a chain of take_while and find comes to stays open.
    for entry in list {
        if entry.page == 0 {
            return 0;
        }
        if entry.page == page {
            return entry.code;
        }
    }
    0
}
