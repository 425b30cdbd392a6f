// Reading a case file: what its lines set, its script, and the replies that are wanted.
use crate::failures::Failure;
use slate_live::read_number;
use slate_store::FailingCall;
use std::alloc::{AllocError, Global};
use std::str;

/// A script, how it is run, and what comes of it.
#[derive(Drop)]
pub struct Case {
    /// The words of the command line.
    pub words: Vec<String>,
    /// The calls of the store that fail.
    pub failing: Vec<FailingCall>,
    /// The status that is wanted.
    pub status: u8,
    pub script: Vec<u8>,
    /// The text of the replies that are wanted.
    pub replies: Vec<u8>,
}

impl Case {
    /// The case that the text of a file spells.
    pub fn parse(alloc: Global, text: &[u8]) -> Result<Case, Failure> {
        let (settings, rest) = split_at_line(text, b"script").ok_or(Failure::ScriptMissing)?;
        let (script, replies) = split_at_line(rest, b"replies").ok_or(Failure::RepliesMissing)?;
        let mut case = Case {
            words: Vec::new(alloc),
            failing: Vec::new(alloc),
            status: 0,
            script: Vec::from_slice(alloc, script)?,
            replies: Vec::from_slice(alloc, replies)?,
        };
        let mut number = 0u64;
        for line in settings.split_inclusive(is_newline) {
            number = number.saturating_add(1);
            if !case.set(alloc, without_newline(line))? {
                return Err(Failure::Setting(number));
            }
        }
        Ok(case)
    }

    /// Takes what a line before the script sets, and answers whether it sets something.
    fn set(&mut self, alloc: Global, line: &[u8]) -> Result<bool, AllocError> {
        let fields: Vec<&[u8]> = line.split(|byte| *byte == b' ').collect(alloc)?;
        match fields.as_slice() {
            [b"words", words @ ..] => self.add_words(alloc, words),
            [b"fails", number, b"lost"] => self.add_failing(number, false),
            [b"fails", number, b"landed"] => self.add_failing(number, true),
            [b"status", number] => Ok(self.set_status(number)),
            _ => Ok(false),
        }
    }

    fn add_words(&mut self, alloc: Global, words: &[&[u8]]) -> Result<bool, AllocError> {
        for word in words {
            let Ok(word) = str::from_utf8(word) else {
                return Ok(false);
            };
            self.words.push(String::from_str(alloc, word)?)?;
        }
        Ok(true)
    }

    fn add_failing(&mut self, number: &[u8], landed: bool) -> Result<bool, AllocError> {
        let Some(at) = read_number(number) else {
            return Ok(false);
        };
        self.failing.push(FailingCall { at, landed })?;
        Ok(true)
    }

    fn set_status(&mut self, number: &[u8]) -> bool {
        let Some(status) = read_number(number).and_then(|number| u8::try_from(number).ok()) else {
            return false;
        };
        self.status = status;
        true
    }
}

pub(crate) fn is_newline(byte: &u8) -> bool {
    *byte == b'\n'
}

fn without_newline(line: &[u8]) -> &[u8] {
    line.strip_suffix(b"\n").unwrap_or(line)
}

/// What stands before the first line of this text, and what stands after it.
fn split_at_line<'a>(text: &'a [u8], mark: &[u8]) -> Option<(&'a [u8], &'a [u8])> {
    let mut start = 0usize;
    for line in text.split_inclusive(is_newline) {
        let end = start.saturating_add(line.len());
        if without_newline(line) == mark {
            return Some((text.get(..start)?, text.get(end..)?));
        }
        start = end;
    }
    None
}
