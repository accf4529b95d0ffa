// The lines that are written for a line that is read.

use crate::console::Console;
use std::alloc::AllocError;

// What the input is.
#[derive(Clone, Copy, PartialEq, Eq, Debug)]
pub enum Mode {
    // commands alone
    Commands,
    // scripts with their answers, which are replaced
    Transcript,
}

impl Console {
    // The lines to write for a line of the input, each with its end.
    pub fn respond(&mut self, mode: Mode, line: &str) -> Result<String, AllocError> {
        match mode {
            Mode::Commands => self.answer_line(line),
            Mode::Transcript => self.replay(line),
        }
    }

    // The answer to a command.
    fn answer_line(&mut self, line: &str) -> Result<String, AllocError> {
        match self.answer(line)? {
            Some(answer) => format!(in self.heap; "{answer}\n"),
            None => Ok(String::new(self.heap)),
        }
    }

    // A command, behind `> `, and its answer; the other lines of a transcript are its answers, comments and blank lines, and `== ID`, where a new script begins.
    fn replay(&mut self, line: &str) -> Result<String, AllocError> {
        if let Some(command) = line.strip_prefix("> ") {
            let answer = self.answer_line(command)?;
            return format!(in self.heap; "{line}\n{answer}");
        }
        if line.starts_with("== ") {
            self.clear();
        } else if !line.is_empty() && !line.starts_with('#') {
            return Ok(String::new(self.heap));
        }
        format!(in self.heap; "{line}\n")
    }
}
