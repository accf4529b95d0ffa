// Text of a bounded length.
ghost use Rattle.std.specs.Prelude.{◌≡◌, ℕ, ◌+◌, ◌≤◌, List, [], ◌++◌, length, decimal, IsOk};
ghost use Rattle.lines.specs.Text.{refusal_line, Writes};

use arrayvec::ArrayVec;
use refusal::{Buffer, Refusal};
use std::marker::Model;

/// Text of at most `N` bytes. The bytes lie in the value itself, so nothing is allocated.
#[derive(Drop)]
pub struct Text<const N: usize> {
    bytes: ArrayVec<u8, N>,
}

impl<const N: usize> Model for Text<N> {
    ghost Value = { List ℕ };

    ghost view = { λ t. t.bytes.items };

    ghost inverse = { λ xs. record { bytes = record { items = xs } } };
}

impl<const N: usize> Text<N> {
    /// No text yet.
    pub fn new() -> Self
        ensures { result ≡ [] }
    {
        Text {
            bytes: ArrayVec::new(),
        }
    }

    /// Appends these bytes.
    pub fn put(&mut self, bytes: &[u8])
        requires { length self.old + length bytes.now ≤ N }
        ensures { self.new ≡ self.old ++ bytes.now }
    {
        self.bytes.try_extend_from_slice(bytes).unwrap();
    }

    /// Appends a number in decimal.
    pub fn put_number(&mut self, number: u64)
        requires { length self.old + length (decimal number) ≤ N }
        ensures { self.new ≡ self.old ++ decimal number }
    {
        let mut digits = itoa::Buffer::new();
        self.put(digits.format(number).as_bytes());
    }

    /// Appends `refused NUMBER PLACE`, with the line's end.
    pub fn put_refusal(&mut self, refusal: Refusal)
        requires { length self.old + length (refusal_line refusal) ≤ N }
        ensures { self.new ≡ self.old ++ refusal_line refusal }
    {
        self.put(b"refused ");
        self.put_number(u64::from(refusal.number()));
        self.put(b" ");
        self.put_number(refusal.place() as u64);
        self.put(b"\n");
    }

    /// Writes the text at the front of a buffer, tells how many bytes it has, and leaves the rest of the buffer as it was.
    /// Refused: a buffer that is shorter than the text (2, place 2), which then stays as it was.
    pub fn write_to(&self, out: &mut [u8]) -> Result<usize, Refusal>
        ensures writes { Writes self.now out.old result out.new }
        ensures enough { N ≤ length out.old → IsOk result }
    {
        let text = self.bytes.as_slice();
        if text.len() > out.len() {
            return Err(Refusal::Cramped(Buffer::Other));
        }
        out[..text.len()].copy_from_slice(text);
        Ok(text.len())
    }
}
