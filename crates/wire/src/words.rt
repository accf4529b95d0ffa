// Words on the link: a kind in the top 4 bits, a value in the other 28.
ghost use Rattle.std.specs.Prelude.{◌≡◌, ◌<◌, Decides};
ghost use Rattle.wire.specs.Kinds.{kind_number};
ghost use Rattle.wire.specs.Words;

use crate::kind::Kind;
use field::VALUE_LIMIT;

/// The value word of a reply that carries this number, counted modulo 2^28 (docs/RULES.md, "Words on the
/// link").
pub fn value_word(number: u32) -> u32
    ensures { result ≡ Words.word 6 (Words.value_of number) }
{
    word(Kind::Value, value(number))
}

// A word of this kind with this value.
pub(crate) fn word(kind: Kind, value: u32) -> u32
    requires { value < VALUE_LIMIT }
    ensures { result ≡ Words.word (kind_number kind) value }
{
    u32::from(kind) * VALUE_LIMIT + value
}

// Whether a word has this kind.
pub(crate) fn has_kind(word: u32, kind: Kind) -> bool
    ensures { Decides result (Words.kind_of word ≡ kind_number kind) }
{
    word / VALUE_LIMIT == u32::from(kind)
}

// What a word holds beside its kind.
pub(crate) fn value(word: u32) -> u32
    ensures { result ≡ Words.value_of word }
{
    word % VALUE_LIMIT
}
