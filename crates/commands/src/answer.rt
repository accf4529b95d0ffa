// The answers, as they are printed.
ghost use Rattle.std.specs.Prelude.{◌≡◌, Some};
ghost use Rattle.commands.specs.Answers.{answer_text, ending_text, reply_text, answer_of};

use crate::ending::Ending;
use crate::excuse::Excuse;
use crate::misread::Misread;
use calls::{Counts, Returned, Verdict};
use refusal::Refusal;
use solve::Entry;
use std::fmt;

#[derive(Drop)]
pub(crate) enum Answer {
    Card,
    Shelf,
    Pages(usize),
    Signature(u32),
    Sum(u32),
    Signatures(Vec<u32>),
    // the words of a reply
    Reply(Vec<u32>),
    Solution(Vec<Entry>),
    NoSolution,
    Opened,
    // the words of a request
    Slip([u32; 4]),
    Taken,
    Returned(Returned),
    Ended(Ending),
    NotClosed,
    Counts(Counts),
    Row(Row),
    // bad pages
    Bad(Vec<u32>),
    Refused(Refusal),
    // The station refused to serve; nothing was taken.
    ServingRefused(Refusal),
    Excused(Excuse),
    Misread(Misread),
}

// A row of a tally: its signatures and its sums.
#[derive(Drop)]
pub(crate) struct Row {
    pub(crate) signatures: Vec<u32>,
    pub(crate) sums: Vec<u32>,
}

// An answer, and whether a word was written that should have been left alone.
#[derive(Drop)]
pub(crate) struct Reply {
    pub(crate) answer: Answer,
    pub(crate) spoilt: bool,
}

impl From<Answer> for Reply {
    fn from(answer: Answer) -> Reply {
        Reply {
            answer,
            spoilt: false,
        }
    }
}

impl Answer {
    // What a call gave, or its refusal.
    pub(crate) fn of(outcome: Result<Answer, Refusal>) -> Answer
        ensures { result ≡ answer_of outcome }
    {
        match outcome {
            Ok(answer) => answer,
            Err(refusal) => Answer::Refused(refusal),
        }
    }
}

impl fmt::Display for Reply {
    ghost output = { λ reply. reply_text reply.spoilt (answer_text reply.answer) };

    fn fmt<W: fmt::Write>(&self, f: &mut fmt::Formatter<W>) -> fmt::Result {
        let answer = &self.answer;
        if self.spoilt {
            write!(f, "{answer} spoilt")
        } else {
            write!(f, "{answer}")
        }
    }
}

impl fmt::Display for Answer {
    ghost output = { answer_text };

    fn fmt<W: fmt::Write>(&self, f: &mut fmt::Formatter<W>) -> fmt::Result {
        match self {
            Answer::Card => write!(f, "card"),
            Answer::Shelf => write!(f, "shelf"),
            Answer::Pages(count) => write!(f, "pages {count}"),
            Answer::Signature(code) => write!(f, "sig {code}"),
            Answer::Sum(code) => write!(f, "sum {code}"),
            Answer::Signatures(codes) => write_numbers(f, "sigs", codes),
            Answer::Reply(words) => write_link_words(f, "reply", words),
            Answer::Solution(entries) => write_entries(f, entries),
            Answer::NoSolution => write!(f, "none"),
            Answer::Opened => write!(f, "open"),
            Answer::Slip(request) => write_link_words(f, "slip", request),
            Answer::Taken => write!(f, "taken"),
            Answer::Returned(Returned::Answered) => write!(f, "answered"),
            Answer::Returned(Returned::Blank) => write!(f, "blank"),
            Answer::Ended(ending) => write!(f, "{ending}"),
            Answer::NotClosed => write!(f, "not closed"),
            Answer::Counts(counts) => write_counts(f, counts),
            Answer::Row(row) => write!(f, "{row}"),
            Answer::Bad(pages) => write_numbers(f, "bad", pages),
            Answer::Refused(refusal) => write!(f, "{refusal}"),
            Answer::ServingRefused(refusal) => write!(f, "serving {refusal}"),
            Answer::Excused(excuse) => write!(f, "{excuse}"),
            Answer::Misread(misread) => write!(f, "{misread}"),
        }
    }
}

impl fmt::Display for Ending {
    ghost output = { λ ending. Some (ending_text ending) };

    fn fmt<W: fmt::Write>(&self, f: &mut fmt::Formatter<W>) -> fmt::Result {
        match self {
            Ending::Closes(Verdict::Report) => write!(f, "report"),
            Ending::Closes(Verdict::Split(page)) => write!(f, "split {page}"),
            Ending::Closes(Verdict::Over) => write!(f, "over"),
            Ending::Asks(station) => write!(f, "asks {station}"),
        }
    }
}

impl fmt::Display for Row {
    fn fmt<W: fmt::Write>(&self, f: &mut fmt::Formatter<W>) -> fmt::Result {
        write_numbers(f, "row", &self.signatures)?;
        write!(f, " |")?;
        for (before, sum) in self.sums.iter().enumerate() {
            if *sum != 0 {
                let j = before + 1;
                write!(f, " {j}:{sum}")?;
            }
        }
        Ok(())
    }
}

// A word, and decimal numbers.
pub(crate) fn write_numbers<W: fmt::Write>(
    f: &mut fmt::Formatter<W>,
    word: &str,
    numbers: &[u32],
) -> fmt::Result {
    write!(f, "{word}")?;
    for number in numbers {
        write!(f, " {number}")?;
    }
    Ok(())
}

// A word, and words of the link.
pub(crate) fn write_link_words<W: fmt::Write>(
    f: &mut fmt::Formatter<W>,
    word: &str,
    words: &[u32],
) -> fmt::Result {
    write!(f, "{word}")?;
    for word in words {
        write!(f, " {word:08x}")?;
    }
    Ok(())
}

// The pages of a solution with their codes, those before the first page 0.
fn write_entries<W: fmt::Write>(f: &mut fmt::Formatter<W>, entries: &[Entry]) -> fmt::Result {
    write!(f, "solution")?;
    for entry in entries {
        let page = entry.page;
        let code = entry.code;
        if page == 0 {
            break;
        }
        write!(f, " {page}:{code}")?;
    }
    Ok(())
}

fn write_counts<W: fmt::Write>(f: &mut fmt::Formatter<W>, counts: &Counts) -> fmt::Result {
    let Counts {
        handed,
        answered,
        blank,
        out,
        taken,
    } = *counts;
    write!(
        f,
        "handed {handed} answered {answered} blank {blank} out {out} taken {taken}"
    )
}
