// Numbers, words of the link and bytes, as they are written in a line.
ghost use Rattle.std.specs.Prelude.{IfSome, Ok};

use std::alloc::{AllocError, Global};

// A decimal number; digits alone, without a sign.
pub(crate) fn decimal<N: std::str::FromStr>(text: &str) -> Option<N>
where
    N::Err: Drop,
    ensures { IfSome result (λ n. N.from_str_gives text.now (Ok n)) }
{
    if !text.bytes().all(|byte| byte.is_ascii_digit()) {
        return None;
    }
    match text.parse::<N>() {
        Ok(number) => Some(number),
        Err(_) => None,
    }
}

fn is_small_hex(byte: u8) -> bool {
    byte.is_ascii_digit() || (b'a'..=b'f').contains(&byte)
}

// A word of the link: 8 hexadecimal digits, small letters.
pub(crate) fn link_word(text: &str) -> Option<u32> {
    if text.len() != 8 || !text.bytes().all(is_small_hex) {
        return None;
    }
    u32::from_str_radix(text, 16).ok()
}

// Bytes: hexadecimal digits without blanks, two a byte; `-` for none.
pub(crate) fn bytes(heap: Global, text: &str) -> Result<Option<Vec<u8>>, AllocError> {
    if text == "-" {
        return Ok(Some(Vec::new(heap)));
    }
    if !text.bytes().all(is_small_hex) {
        return Ok(None);
    }
    match hex::decode(heap, text) {
        Ok(bytes) => Ok(Some(bytes)),
        Err(hex::FromHexError::OutOfMemory) => Err(AllocError),
        Err(_) => Ok(None),
    }
}
