// The lines of a card.
ghost use Rattle.std.specs.Prelude.{◌≡◌, ◌+◌, ◌++◌, ◌≤◌, length};
ghost use Rattle.cards.specs.Card.{page_line, last_line};

use lines::Text;

pub(crate) fn put_page<const N: usize>(text: &mut Text<N>, page: usize, signature: u32)
    requires { length text.old + length (page_line page signature) ≤ N }
    ensures { text.new ≡ text.old ++ page_line page signature }
{
    text.put_number(page as u64);
    text.put(b" ");
    text.put_number(u64::from(signature));
    text.put(b"\n");
}

pub(crate) fn put_count<const N: usize>(text: &mut Text<N>, pages: usize)
    requires { length text.old + length (last_line pages) ≤ N }
    ensures { text.new ≡ text.old ++ last_line pages }
{
    text.put(b"pages ");
    text.put_number(pages as u64);
    text.put(b"\n");
}
