// The words of a line behind the first, read one after the other; and its options, which may stand anywhere among them.
ghost use Rattle.std.specs.Prelude.{◌≡◌, ◌∷◌, IfOk, Ok, string_bytes};
ghost use Rattle.commands.specs.Typed.{ReadsWord, scheme_name};

use crate::digits;
use crate::misread::{Misread, Part};
use crate::opening::Scheme;
use crate::slip_name::SlipName;
use fields::FieldName;
use std::alloc::Global;
use std::collections::VecDeque;
use std::mem;
use std::str::FromStr;

// The longest tally or buffer that an option can ask for.
const ROOM_LIMIT: usize = 1 << 20;

#[derive(Drop)]
pub(crate) struct Words {
    heap: Global,
    words: VecDeque<String>,
    options: Vec<String>,
}

impl Words {
    pub(crate) fn new(
        heap: Global,
        line: std::str::SplitAsciiWhitespace<'_>,
    ) -> Result<Words, Misread> {
        let mut words = VecDeque::new(heap);
        let mut options = Vec::new(heap);
        for word in line {
            let is_option = word.contains('=');
            let word = String::from_str(heap, word)?;
            if is_option {
                options.push(word)?;
            } else {
                words.push_back(word)?;
            }
        }
        Ok(Words {
            heap,
            words,
            options,
        })
    }

    pub(crate) fn heap(&self) -> Global {
        self.heap
    }

    // The next word, which is to be this.
    fn due(&mut self, part: Part) -> Result<String, Misread>
        ensures { IfOk result (λ word. self.old.words.items ≡ word ∷ self.new.words.items) }
    {
        match self.words.pop_front() {
            Some(word) => Ok(word),
            None => Err(Misread::Missing(part)),
        }
    }

    // A name of letters and digits.
    pub(crate) fn name(&mut self) -> Result<String, Misread>
        ensures { IfOk result (λ name. self.old.words.items ≡ name ∷ self.new.words.items) }
    {
        let word = self.due(Part::Name)?;
        if is_name(word.as_str()) {
            Ok(word)
        } else {
            Err(Misread::Wrong(word, Part::Name))
        }
    }

    pub(crate) fn field(&mut self) -> Result<FieldName, Misread> {
        let word = self.due(Part::Field)?;
        match word.as_str().parse::<FieldName>() {
            Ok(field) => Ok(field),
            Err(_) => Err(Misread::Wrong(word, Part::Field)),
        }
    }

    // A decimal number that fits its type.
    pub(crate) fn number<N: FromStr>(&mut self) -> Result<N, Misread>
    where
        N::Err: Drop,
        ensures { IfOk result (λ n. ReadsWord string_bytes self.old.words.items self.new.words.items
            (λ text. N.from_str_gives text (Ok n))) }
    {
        let word = self.due(Part::Number)?;
        match digits::decimal(word.as_str()) {
            Some(number) => Ok(number),
            None => Err(Misread::Wrong(word, Part::Number)),
        }
    }

    pub(crate) fn bytes(&mut self) -> Result<Vec<u8>, Misread> {
        let word = self.due(Part::Bytes)?;
        match digits::bytes(self.heap, word.as_str())? {
            Some(bytes) => Ok(bytes),
            None => Err(Misread::Wrong(word, Part::Bytes)),
        }
    }

    pub(crate) fn slip_name(&mut self) -> Result<SlipName, Misread> {
        let word = self.due(Part::Slip)?;
        match SlipName::read(self.heap, word.as_str())? {
            Some(name) => Ok(name),
            None => Err(Misread::Wrong(word, Part::Slip)),
        }
    }

    pub(crate) fn scheme(&mut self) -> Result<Scheme, Misread>
        ensures { IfOk result (λ scheme. ReadsWord string_bytes self.old.words.items self.new.words.items
            (λ text. text ≡ scheme_name scheme)) }
    {
        let word = self.due(Part::Scheme)?;
        match Scheme::named(word.as_str()) {
            Some(scheme) => Ok(scheme),
            None => Err(Misread::Wrong(word, Part::Scheme)),
        }
    }

    // All words that are left, as decimal numbers.
    pub(crate) fn numbers(&mut self) -> Result<Vec<u32>, Misread> {
        let mut numbers = Vec::new(self.heap);
        for word in &self.rest() {
            match digits::decimal(word.as_str()) {
                Some(number) => numbers.push(number)?,
                None => return Err(Misread::wrong(self.heap, word.as_str(), Part::Number)),
            }
        }
        Ok(numbers)
    }

    // All words that are left, as words of the link.
    pub(crate) fn link_words(&mut self) -> Result<Vec<u32>, Misread> {
        let mut words = Vec::new(self.heap);
        for word in &self.rest() {
            match digits::link_word(word.as_str()) {
                Some(word) => words.push(word)?,
                None => return Err(Misread::wrong(self.heap, word.as_str(), Part::Word)),
            }
        }
        Ok(words)
    }

    // Takes all words that are left.
    fn rest(&mut self) -> VecDeque<String> {
        mem::replace(&mut self.words, VecDeque::new(self.heap))
    }

    // The number of an option, if it is there; `key` ends in `=`.
    pub(crate) fn option(&mut self, key: &str) -> Result<Option<usize>, Misread>
        ensures { self.new.words ≡ self.old.words }
    {
        let found = self
            .options
            .iter()
            .position(|word| word.as_str().starts_with(key));
        let Some(at) = found else {
            return Ok(None);
        };
        let word = self.options.remove(at);
        match option_number(key, word.as_str()) {
            Some(number) => Ok(Some(number)),
            None => Err(Misread::Wrong(word, Part::Number)),
        }
    }

    // The line ends here.
    pub(crate) fn end(mut self) -> Result<(), Misread> {
        match self.words.pop_front().or(self.options.pop()) {
            Some(word) => Err(Misread::Surplus(word)),
            None => Ok(()),
        }
    }
}

// The number behind the key of an option.
fn option_number(key: &str, word: &str) -> Option<usize> {
    word.strip_prefix(key)
        .and_then(digits::decimal::<usize>)
        .filter(|number| *number <= ROOM_LIMIT)
}

// Letters and digits.
pub(crate) fn is_name(text: &str) -> bool {
    !text.is_empty() && text.bytes().all(|byte| byte.is_ascii_alphanumeric())
}
