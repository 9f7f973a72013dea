//! The rows that were read last of requests that come in pieces, and whether the last one goes on.

use crate::quote::State;
use crate::records::TextRecords;
use pb_seen::mark::Mark;
use std::alloc::Global;

/// The most bytes of the rows that are kept.
const MOST_KEPT: usize = 1 << 18;

/// The rows of the piece that was read last, from the beginning of its first row on.
#[derive(Drop)]
pub struct LastRows {
    alloc: Global,
    bytes: Vec<u8>,
    /// Whether all of their bytes are there.
    is_whole: bool,
    state: State,
    /// How many rows came before those that are kept.
    before: u64,
    /// How many rows have begun.
    count: u64,
    /// Where the row begins that has begun last.
    begins: usize,
}

impl LastRows {
    /// No row yet.
    pub fn new(alloc: Global) -> LastRows {
        LastRows {
            alloc,
            bytes: Vec::new(alloc),
            is_whole: true,
            state: State::Done,
            before: 0,
            count: 0,
            begins: 0,
        }
    }

    /// Takes the next piece. Of the rows before it only one is kept that goes on.
    pub fn take(&mut self, piece: &[u8]) {
        self.forget_ended();
        for byte in piece {
            self.take_byte(*byte);
        }
    }

    /// Forgets the rows that have ended.
    fn forget_ended(&mut self) {
        if self.state == State::Done {
            self.bytes.clear();
            self.is_whole = true;
            self.before = self.count;
        } else if 0 < self.begins && self.begins < self.bytes.len() {
            let mut rest = Vec::new(self.alloc);
            let kept = rest.extend_from_slice(&self.bytes[self.begins..]);
            self.is_whole &= kept.is_ok();
            self.bytes = rest;
            self.before = self.count.saturating_sub(1);
        }
        self.begins = 0;
    }

    fn take_byte(&mut self, byte: u8) {
        if self.state == State::Done {
            if byte == b'\n' || byte == b'\r' {
                return;
            }
            self.state = State::Before;
            self.begins = self.bytes.len();
            self.count = self.count.saturating_add(1);
        }
        self.state = self.state.behind(byte);
        if self.bytes.len() >= MOST_KEPT || self.bytes.push(byte).is_err() {
            self.is_whole = false;
        }
    }

    /// Whether a quotation mark is open, so that the row goes on with the next piece.
    pub fn is_open(&self) -> bool {
        self.state == State::Quoted
    }

    /// The rows up to the one with this number, from 1, which is read last, if it is among them and all bytes
    /// are there.
    pub fn records_to(&self, number: u64) -> Option<TextRecords<&[u8]>> {
        if number <= self.before || !self.is_whole {
            return None;
        }
        let start = Mark {
            at: self.before,
            ..Mark::start()
        };
        let mut records = TextRecords::new(self.alloc, self.bytes.as_slice(), start);
        if records.advance_to(number) {
            return Some(records);
        }
        drop(records);
        None
    }
}
