// A line of a file of calls: the words of its call, and the answer so far.
use crate::answers::Answer;
use crate::subjects::CallFailure;
use bytes::Bytes;
use slate_errors::{Error, SlateError, write_error};
use slate_text::{
    read_byte_word, read_number, write_byte_word, write_number, write_signed, write_text,
};
use slate_types::KeyValue;
use std::alloc::{AllocError, Global};
use std::fmt::Debug;
use std::{mem, str};

/// What a word stands for in a table.
pub fn look_up<T: Copy>(table: &[(&[u8], T)], word: &[u8]) -> Option<T> {
    for (spelled, meaning) in table {
        if *spelled == word {
            return Some(*meaning);
        }
    }
    None
}

/// The words of a call, which are read one after the other, and the answer so far. What goes wrong is noted, and a word
/// that spells nothing of what is read is read as something empty: so a call is made without a test between, and what it
/// answered counts only where there is no failure.
pub struct CallLine<'a> {
    alloc: Global,
    words: Vec<&'a [u8]>,
    /// How many of the words are read.
    read: usize,
    answer: Vec<u8>,
    /// What went wrong first.
    failure: Option<CallFailure>,
}

impl Drop for CallLine<'_> {
    fn drop(self) {
        let CallLine {
            alloc: _,
            words: _,
            read: _,
            answer: _,
            failure: _,
        } = self;
    }
}

impl<'a> CallLine<'a> {
    /// A line of which nothing is read yet, with its words, which have a blank between each two.
    pub fn new(alloc: Global, call: &'a [u8]) -> Result<CallLine<'a>, AllocError> {
        Ok(CallLine {
            alloc,
            words: call.split(|byte| *byte == b' ').collect(alloc)?,
            read: 0,
            answer: Vec::new(alloc),
            failure: None,
        })
    }

    pub fn alloc(&self) -> Global {
        self.alloc
    }

    /// The answer so far.
    pub fn answer(&self) -> &[u8] {
        self.answer.as_slice()
    }

    /// The answer so far, which begins anew.
    pub fn take_answer(&mut self) -> Vec<u8> {
        mem::replace(&mut self.answer, Vec::new(self.alloc))
    }

    /// What went wrong first. Words that are left spell no call.
    pub fn failure(&self) -> Option<CallFailure> {
        if self.failure.is_none() && !self.is_read() {
            return Some(CallFailure::Unread);
        }
        self.failure
    }

    /// Notes that the words spell no call.
    pub fn unread(&mut self) {
        self.fail(CallFailure::Unread);
    }

    /// Notes that memory ran out.
    pub fn no_memory(&mut self) {
        self.fail(CallFailure::Memory);
    }

    /// Notes what went wrong.
    pub fn fail(&mut self, failure: CallFailure) {
        if self.failure.is_none() {
            self.failure = Some(failure);
        }
    }

    /// How many words are left.
    pub fn left(&self) -> usize {
        self.words.len().saturating_sub(self.read)
    }

    /// Whether all words are read.
    pub fn is_read(&self) -> bool {
        self.left() == 0
    }

    /// How many words are read.
    pub fn place(&self) -> usize {
        self.read
    }

    /// Goes back to where so many words were read.
    pub fn go_back(&mut self, place: usize) {
        self.read = place;
    }

    /// The next word.
    pub fn word(&mut self) -> &'a [u8] {
        match self.words.get(self.read) {
            Some(word) => {
                self.read += 1;
                word
            }
            None => {
                self.unread();
                b""
            }
        }
    }

    /// Whether the next word is this one.
    pub fn is_next(&self, word: &[u8]) -> bool {
        self.words.get(self.read) == Some(&word)
    }

    /// Whether the next word is this one, which then is read.
    pub fn takes(&mut self, word: &[u8]) -> bool {
        let is_next = self.is_next(word);
        if is_next {
            let _word = self.word();
        }
        is_next
    }

    /// Whether there is another word before the next `;`, which else is read.
    pub fn has_more(&mut self) -> bool {
        !self.is_read() && !self.takes(b";")
    }

    /// What the next word stands for in a table. It is read only where it stands there.
    pub fn find<T: Copy>(&mut self, table: &[(&[u8], T)]) -> Option<T> {
        let found = look_up(table, self.words.get(self.read)?);
        if found.is_some() {
            let _word = self.word();
        }
        found
    }

    /// What the next word stands for in a table, where it has to stand.
    pub fn name<T: Copy>(&mut self, table: &[(&[u8], T)]) -> Option<T> {
        let found = self.find(table);
        if found.is_none() {
            self.unread();
        }
        found
    }

    /// The number that the next word spells.
    pub fn number(&mut self) -> u64 {
        match read_number(self.word()) {
            Some(number) => number,
            None => {
                self.unread();
                0
            }
        }
    }

    /// The number of a place or of bytes that the next word spells.
    pub fn size(&mut self) -> usize {
        self.number() as usize
    }

    /// The number that the next word spells, where it has 32 bits.
    pub fn short(&mut self) -> u32 {
        match u32::try_from(self.number()) {
            Ok(number) => number,
            Err(_) => {
                self.unread();
                0
            }
        }
    }

    /// The numbers that the words that are left spell.
    pub fn numbers(&mut self) -> Vec<u64> {
        let mut numbers = Vec::new(self.alloc);
        for _ in 0..self.left() {
            let number = self.number();
            let pushed = numbers.push(number);
            self.note(pushed.is_ok());
        }
        numbers
    }

    /// The next word as a text.
    pub fn text(&mut self) -> &'a str {
        match str::from_utf8(self.word()) {
            Ok(text) => text,
            Err(_) => {
                self.unread();
                ""
            }
        }
    }

    /// The time that the next word spells, in milliseconds or seconds, or another signed number: with `-` before one that
    /// is negative.
    pub fn time(&mut self) -> i64 {
        match self.text().parse() {
            Ok(time) => time,
            Err(_) => {
                self.unread();
                0
            }
        }
    }

    /// The time at which something ends, or `none`.
    pub fn end(&mut self) -> Option<i64> {
        if self.takes(b"none") {
            return None;
        }
        Some(self.time())
    }

    /// A number, or `none`.
    pub fn bound(&mut self) -> Option<u64> {
        if self.takes(b"none") {
            return None;
        }
        Some(self.number())
    }

    /// The bytes that the next word spells.
    pub fn bytes(&mut self) -> Bytes {
        let word = self.word();
        self.bytes_of(word)
    }

    /// The bytes that a word spells.
    pub fn bytes_of(&mut self, word: &[u8]) -> Bytes {
        match read_byte_word(self.alloc, word) {
            Ok(Some(bytes)) => return bytes,
            Ok(None) => self.unread(),
            Err(_) => self.no_memory(),
        }
        Bytes::new()
    }

    /// The same as a list.
    pub fn byte_list(&mut self) -> Vec<u8> {
        let mut list = Vec::new(self.alloc);
        let bytes = self.bytes();
        let copied = list.extend_from_slice(bytes.as_slice());
        self.note(copied.is_ok());
        list
    }

    /// The text whose bytes the next word spells.
    pub fn string(&mut self) -> String {
        let bytes = self.bytes();
        let Ok(text) = str::from_utf8(bytes.as_slice()) else {
            self.unread();
            return String::new(self.alloc);
        };
        match String::from_str(self.alloc, text) {
            Ok(string) => string,
            Err(_) => {
                self.no_memory();
                String::new(self.alloc)
            }
        }
    }

    /// The texts whose bytes the words that are left spell.
    pub fn strings(&mut self) -> Vec<String> {
        let mut strings = Vec::new(self.alloc);
        for _ in 0..self.left() {
            let string = self.string();
            let pushed = strings.push(string);
            self.note(pushed.is_ok());
        }
        strings
    }

    /// The words that are left, with a blank between each two.
    pub fn joined(&mut self) -> Vec<u8> {
        let mut joined = Vec::new(self.alloc);
        for place in 0..self.left() {
            let blank: &[u8] = if place == 0 { b"" } else { b" " };
            let word = self.word();
            let pushed = joined.extend_from_slice(blank).is_ok();
            self.note(pushed && joined.extend_from_slice(word).is_ok());
        }
        joined
    }

    /// What was made, where it was; else its fault is printed.
    pub fn made<T, E: Answer>(&mut self, made: Result<T, E>) -> Option<T> {
        match made {
            Ok(value) => Some(value),
            Err(fault) => {
                fault.print(self);
                None
            }
        }
    }

    /// Notes whether there was memory.
    pub fn note(&mut self, is_done: bool) {
        if !is_done {
            self.no_memory();
        }
    }

    /// Appends a text.
    pub fn print_text(&mut self, text: &str) {
        let printed = write_text(&mut self.answer, text);
        self.note(printed.is_ok());
    }

    /// Appends a number.
    pub fn print_number(&mut self, number: u64) {
        let printed = write_number(&mut self.answer, number);
        self.note(printed.is_ok());
    }

    /// Appends a time.
    pub fn print_time(&mut self, time: i64) {
        let printed = write_signed(&mut self.answer, time);
        self.note(printed.is_ok());
    }

    /// Appends bytes as a word.
    pub fn print_bytes(&mut self, bytes: &[u8]) {
        let printed = write_byte_word(&mut self.answer, bytes);
        self.note(printed.is_ok());
    }

    /// Appends bytes as they are.
    pub fn print_plain(&mut self, bytes: &[u8]) {
        let printed = self.answer.extend_from_slice(bytes);
        self.note(printed.is_ok());
    }

    /// Appends lines as one, with a text between each two.
    pub fn print_lines(&mut self, lines: &[u8], between: &str) {
        let lines = lines.strip_suffix(b"\n").unwrap_or(lines);
        for (place, line) in lines.split(|byte| *byte == b'\n').enumerate() {
            if place > 0 {
                self.print_text(between);
            }
            self.print_plain(line);
        }
    }

    /// Appends a blank, where something stands before it.
    pub fn print_blank(&mut self) {
        if !self.answer.is_empty() {
            self.print_text(" ");
        }
    }

    /// Appends a number, with a blank between it and what stands before it.
    pub fn add_number(&mut self, number: u64) {
        self.print_blank();
        self.print_number(number);
    }

    /// Appends numbers, with a blank before each that doesn't stand first.
    pub fn print_numbers(&mut self, numbers: &[u64]) {
        for number in numbers {
            self.add_number(*number);
        }
    }

    /// Appends the text of an error.
    pub fn print_text_of(&mut self, error: &SlateError) {
        let printed = write_error(&mut self.answer, error);
        self.note(printed.is_ok());
    }

    /// Appends the text of an error as a caller sees it.
    pub fn print_public(&mut self, error: &Error) {
        let printed = error.write_text(&mut self.answer);
        self.note(printed.is_ok());
    }

    /// Appends an error, as `error` and its text.
    pub fn print_error(&mut self, error: &SlateError) {
        self.print_text("error ");
        self.print_text_of(error);
    }

    /// Appends rows, each as `key=value@number+time`, and `-end` where it expires, with a blank between each two.
    pub fn print_rows(&mut self, rows: &[KeyValue]) {
        for row in rows {
            self.print_blank();
            self.print_row(row);
        }
    }

    /// Appends a row, as `print_rows` does.
    pub fn print_row(&mut self, row: &KeyValue) {
        self.print_bytes(row.key.as_slice());
        self.print_text("=");
        self.print_bytes(row.value.as_slice());
        self.print_text("@");
        self.print_number(row.seq);
        self.print_text("+");
        self.print_time(row.create_ts);
        if let Some(end) = row.expire_ts {
            self.print_text("-");
            self.print_time(end);
        }
    }

    /// Appends a value as `Debug` shows it.
    pub fn print_debug<T: Debug>(&mut self, value: &T) {
        match format!(in self.alloc; "{value:?}") {
            Ok(text) => self.print_text(text.as_str()),
            Err(_) => self.no_memory(),
        }
    }

    /// Appends `error` and why something was refused, as `Debug` shows it.
    pub fn print_fault<F: Debug>(&mut self, fault: &F) {
        self.print_text("error ");
        self.print_debug(fault);
    }
}
