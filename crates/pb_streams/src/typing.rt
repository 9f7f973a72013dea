//! Requests that come in: at a terminal it is said how to ask, of a row why it is none or that it goes on,
//! and by ids what its answer is; elsewhere it is said of the first rows that are none why.

use crate::answered_rows::AnsweredRows;
use pb_core::answer::Answer;
use pb_witness::last_rows::LastRows;
use pb_words::answer_words::answer_words;
use pb_words::prompts::{OPEN_ROW, how_to_ask};
use pb_words::script_words::last_row_words;
use pb_words::{say, say_words};
use std::cell::Cell;
use std::io::{Read, Result};

/// What is said of the requests that come in.
#[derive(Clone, Copy, PartialEq, Eq)]
pub enum Telling {
    /// Nothing.
    Nothing,
    /// Of the first rows that are not of the form, why.
    FirstRows,
    /// To whoever types, how to ask, of each row that is not of the form, why, and by ids each answer.
    All,
}

/// So many rows that are not of the form are explained where nobody types.
const MOST_EXPLAINED: u64 = 5;

/// What is said of the requests that come in, and what is heard of the answers.
#[derive(Drop)]
pub struct Typing {
    telling: Telling,
    /// Whether rows name projects by their ids.
    by_id: bool,
    /// Whether the desk was shut before the first row.
    is_shut: Cell<bool>,
    /// How many rows were not of the form.
    bad_rows: Cell<u64>,
    /// The numbers of those of them that are still to be explained; 0 is none.
    unexplained: Cell<[u64; 5]>,
    /// The rows that were read last, once requests are read that may be typed.
    rows: Cell<Option<LastRows>>,
    answered: Cell<AnsweredRows>,
}

impl Typing {
    pub fn new(telling: Telling, by_id: bool) -> Typing {
        Typing {
            telling,
            by_id,
            is_shut: Cell::new(false),
            bad_rows: Cell::new(0),
            unexplained: Cell::new([0; 5]),
            rows: Cell::new(None),
            answered: Cell::new(AnsweredRows::new()),
        }
    }

    /// Whether rows name projects by their ids.
    pub fn by_id(&self) -> bool {
        self.by_id
    }

    /// Whether somebody types who is told how.
    fn is_told(&self) -> bool {
        self.telling == Telling::All
    }

    /// Whether a further row that is not of the form is explained.
    fn explains(&self) -> bool {
        match self.telling {
            Telling::Nothing => false,
            Telling::FirstRows => self.bad_rows.get() < MOST_EXPLAINED,
            Telling::All => true,
        }
    }

    /// Hears whether the desk is shut, before its first row.
    pub fn opens(&self, is_shut: bool) {
        self.is_shut.set(is_shut);
    }

    /// Hears that the row with this number, from 1, is not of the form.
    pub fn hear_bad_row(&self, row: u64) {
        if self.explains() {
            self.keep(row);
        }
        self.bad_rows.set(self.bad_rows.get().saturating_add(1));
    }

    /// Hears that the row with this number, from 1, is refused, for its form or by a rule.
    pub fn hear_refused(&self, row: u64) {
        let mut answered = self.answered.get();
        answered.refuse(row);
        self.answered.set(answered);
    }

    /// Hears the answer to the next row that is not refused. Whoever types by ids is told it in words.
    pub fn hear_answer<R: Eprint + AllocGlobal>(&self, rt: &R, answer: Answer) {
        let mut answered = self.answered.get();
        let number = answered.answer();
        self.answered.set(answered);
        if self.by_id && self.is_told() {
            if let Some(rows) = self.rows.replace(None) {
                say_words(rt, answer_words(rt.alloc(), &rows, number, answer));
                drop(self.rows.replace(Some(rows)));
            }
        }
    }

    /// Says why the row with this number, from 1, is none.
    fn explain<R: Eprint + AllocGlobal>(&self, rt: &R, number: u64) {
        if let Some(rows) = self.rows.replace(None) {
            say_words(rt, last_row_words(rt.alloc(), &rows, number));
            drop(self.rows.replace(Some(rows)));
        }
    }

    /// Takes the next piece of the rows, and answers whether its last row goes on.
    fn take(&self, piece: &[u8]) -> bool {
        let Some(mut rows) = self.rows.replace(None) else {
            return false;
        };
        rows.take(piece);
        let is_open = rows.is_open();
        drop(self.rows.replace(Some(rows)));
        is_open
    }

    /// Keeps the number of a row that is to be explained.
    fn keep(&self, number: u64) {
        let mut rows = self.unexplained.get();
        for i in 0..5usize {
            if rows[i] == 0 {
                rows[i] = number;
                self.unexplained.set(rows);
                return;
            }
        }
    }
}

/// A reader of requests. Behind the end it asks for nothing more: at a terminal that would wait for a second
/// end.
#[derive(Drop)]
pub struct TypedReader<'a, R: Input> {
    rt: &'a R,
    reader: R::Reader,
    typing: &'a Typing,
    has_begun: bool,
    has_ended: bool,
}

impl<'a, R: Input + Eprint + AllocGlobal> TypedReader<'a, R> {
    /// Standard input, where somebody may type.
    pub fn new(rt: &'a R, typing: &'a Typing) -> TypedReader<'a, R> {
        drop(typing.rows.replace(Some(LastRows::new(rt.alloc()))));
        TypedReader {
            rt,
            reader: rt.reader(),
            typing,
            has_begun: false,
            has_ended: false,
        }
    }

    /// Says how to ask before the first row, and then of the rows that were answered why some are none.
    fn say_before(&mut self) {
        if !self.has_begun && self.typing.is_told() {
            let (by_id, is_shut) = (self.typing.by_id, self.typing.is_shut.get());
            say(self.rt, how_to_ask(by_id, is_shut));
        }
        self.has_begun = true;
        for number in self.typing.unexplained.replace([0; 5]) {
            if number > 0 {
                self.typing.explain(self.rt, number);
            }
        }
    }
}

impl<R: Input + Eprint + AllocGlobal> Read for TypedReader<'_, R> {
    fn read(&mut self, buf: &mut [u8]) -> Result<usize> {
        self.say_before();
        if self.has_ended {
            return Ok(0);
        }
        let count = self.reader.read(buf)?;
        self.has_ended = count == 0 && !buf.is_empty();
        if self.typing.explains() && 0 < count && count <= buf.len() {
            let is_open = self.typing.take(&buf[..count]);
            if is_open && self.typing.is_told() {
                say(self.rt, OPEN_ROW);
            }
        }
        Ok(count)
    }
}
