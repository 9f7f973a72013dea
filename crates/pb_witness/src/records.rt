//! The records of a file that is read again, each with the place at which it begins.

use crate::prelude::*;
use csv::{Reader, ReaderBuilder};

/// The records of a text, read one at a time.
#[derive(Drop)]
pub struct TextRecords<F: Read> {
    reader: Reader<F>,
    /// The record that was read last.
    pub last: ByteRecord,
    /// The number of that record.
    pub at: u64,
    /// Where reading began.
    start: Mark,
}

impl<F: Read> TextRecords<F> {
    /// The records of the text that a reader gives from this mark on.
    pub fn new(alloc: Global, reader: F, start: Mark) -> TextRecords<F> {
        let reader = ReaderBuilder::new()
            .delimiter(b';')
            .has_headers(false)
            .flexible(true)
            .from_reader(alloc, reader);
        TextRecords {
            reader,
            last: ByteRecord::new(alloc),
            at: start.at,
            start,
        }
    }

    /// Reads the next record, and answers whether there was one; a reader that fails has none.
    pub fn advance(&mut self) -> bool {
        let is_read = self.reader.read_byte_record(&mut self.last);
        let has_next = is_read.unwrap_or(false);
        self.at = self.at.saturating_add(u64::from(has_next));
        has_next
    }

    /// Reads on to the record with this number, and answers whether there is one.
    pub fn advance_to(&mut self, at: u64) -> bool {
        for _ in self.at..at {
            if !self.advance() {
                return false;
            }
        }
        true
    }

    /// Reads on to the next record that is so, and answers whether there is one.
    pub fn find<P: Fn(&ByteRecord) -> bool>(&mut self, is_so: P) -> bool
        requires { P.IsAlwaysCallable is_so }
    {
        for _ in 0..u64::MAX {
            if !self.advance() {
                return false;
            }
            if is_so(&self.last) {
                return true;
            }
        }
        false
    }

    /// Where the record begins that was read last.
    pub fn mark(&self) -> Mark {
        let Mark { at, byte, line } = Mark::of(&self.last, self.at);
        Mark {
            at,
            byte: self.start.byte.saturating_add(byte),
            line: self.start.line.saturating_add(line).saturating_sub(1),
        }
    }
}
