//! The line of the text at which a record begins, and the quotation mark that makes it run over several
//! lines.

use crate::prelude::*;

/// How far the bytes of a record were looked at.
#[derive(Clone, Copy, PartialEq, Eq)]
pub enum State {
    /// Before the record: line ends may come that are no record's.
    Before,
    /// A field begins.
    Begins,
    /// In a field without quotes, or behind its quotes.
    Plain,
    /// Behind a quotation mark that opened a field.
    Quoted,
    /// Behind a quotation mark in a quoted field: it closes the field, or is doubled.
    Closing,
    /// Behind the record.
    Done,
}

/// What the bytes of a record say.
#[derive(Clone, Copy)]
pub struct Span {
    state: State,
    line: u64,
    /// The line at which the record begins, from 1.
    pub begins: u64,
    /// The line of the last quotation mark that opened a field.
    opened: u64,
    /// The lines of the first quoted field that runs over several: where it opens and where it closes.
    pub over: Option<(u64, u64)>,
    /// The line of the first quotation mark behind a backslash.
    pub escaped: Option<u64>,
    is_behind_backslash: bool,
    /// Whether each of these two lines has one quotation mark.
    pub is_single: bool,
    /// How many quotation marks came so far in the line.
    marks: u64,
}

impl Span {
    fn new(line: u64) -> Span {
        Span {
            state: State::Before,
            line,
            begins: line,
            opened: line,
            over: None,
            escaped: None,
            is_behind_backslash: false,
            is_single: true,
            marks: 0,
        }
    }

    /// The line of a quotation mark that is never closed.
    pub fn unclosed(&self) -> Option<u64> {
        match self.state {
            State::Quoted => Some(self.opened),
            _ => None,
        }
    }

    /// Takes the next byte.
    fn take(&mut self, byte: u8) {
        match (self.state, byte) {
            (State::Before, b'\n') => {
                self.line = self.line.saturating_add(1);
                self.begins = self.line;
            }
            (State::Quoted, b'\n') => self.end_line(),
            (State::Before | State::Begins, b'"') => self.opened = self.line,
            (State::Closing, b'"') => {}
            (State::Closing, _) if self.over.is_none() && self.opened < self.line => {
                self.over = Some((self.opened, self.line));
                self.is_single &= self.marks == 1;
            }
            _ => {}
        }
        if byte == b'"' {
            self.take_mark();
            if self.is_behind_backslash && self.escaped.is_none() {
                self.escaped = Some(self.line);
            }
        }
        self.is_behind_backslash = byte == b'\\';
        self.state = self.state.behind(byte);
    }

    /// Takes a line end in quotes.
    fn end_line(&mut self) {
        if self.over.is_none() && self.opened == self.line {
            self.is_single = self.marks == 1;
        }
        self.line = self.line.saturating_add(1);
        self.marks = 0;
    }

    /// Takes a quotation mark. Behind the one that closes the field over several lines there should be no
    /// other in its line.
    fn take_mark(&mut self) {
        self.marks = self.marks.saturating_add(1);
        if let Some((_, closes)) = self.over {
            self.is_single &= closes != self.line;
        }
    }
}

impl State {
    /// The state behind the next byte.
    pub fn behind(self, byte: u8) -> State {
        match (self, byte) {
            (State::Done, _) => State::Done,
            (State::Before, b'\n' | b'\r') => State::Before,
            (State::Quoted, b'"') => State::Closing,
            (State::Quoted, _) => State::Quoted,
            (State::Before | State::Begins | State::Closing, b'"') => State::Quoted,
            (_, b';') => State::Begins,
            (_, b'\n' | b'\r') => State::Done,
            _ => State::Plain,
        }
    }
}

/// What the bytes say of the record with this mark, where the text is a file that can be read again. Of
/// another text no more is known than the mark.
pub fn span_of<R: Files>(text: &Text<'_, R>, mark: Mark) -> Span {
    let Some(mut file) = text.open_at(mark.byte) else {
        return Span::new(mark.line);
    };
    let span = scan(&mut file, mark.line);
    drop(file);
    span
}

/// Reads a record to its end.
fn scan<F: Read>(file: &mut F, line: u64) -> Span {
    let mut span = Span::new(line);
    let mut buffer = [0u8; 4096];
    for _ in 0..u64::MAX {
        let Ok(count) = file.read(&mut buffer) else {
            return span;
        };
        if count == 0 {
            return span;
        }
        if take_all(&mut span, &buffer[..count]) {
            return span;
        }
    }
    span
}

/// Takes these bytes, and answers whether the record has ended.
fn take_all(span: &mut Span, bytes: &[u8]) -> bool {
    for byte in bytes {
        span.take(*byte);
    }
    matches!(span.state, State::Done)
}
