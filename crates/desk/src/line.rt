// The lines that a desk writes.
ghost use Rattle.std.specs.Prelude.{◌≡◌, ◌+◌, ◌++◌, ◌≤◌, length};
ghost use Rattle.desk.specs.Lines.{copy_line, split_line, over_line, sums_line};

use crate::room::FINDINGS_ROOM;
use lines::Text;

// A bad copy.
pub(crate) fn put_copy(text: &mut Text<FINDINGS_ROOM>, station: u32, page: u32)
    requires { length text.old + length (copy_line station page) ≤ FINDINGS_ROOM }
    ensures { text.new ≡ text.old ++ copy_line station page }
{
    text.put_number(u64::from(station));
    text.put(b" ");
    text.put_number(u64::from(page));
    text.put(b"\n");
}

pub(crate) fn put_split(text: &mut Text<FINDINGS_ROOM>, page: usize)
    requires { length text.old + 27 ≤ FINDINGS_ROOM }
    ensures line { text.new ≡ text.old ++ split_line page }
    ensures short { length text.new ≤ length text.old + 27 }
{
    text.put(b"split ");
    text.put_number(page as u64);
    text.put(b"\n");
}

pub(crate) fn put_over(text: &mut Text<FINDINGS_ROOM>)
    requires { length text.old + length over_line ≤ FINDINGS_ROOM }
    ensures { text.new ≡ text.old ++ over_line }
{
    text.put(b"over\n");
}

pub(crate) fn put_sums(text: &mut Text<FINDINGS_ROOM>, count: u64)
    requires { length text.old + 26 ≤ FINDINGS_ROOM }
    ensures { text.new ≡ text.old ++ sums_line count }
{
    text.put(b"sums ");
    text.put_number(count);
    text.put(b"\n");
}
