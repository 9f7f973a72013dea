//! Where a record begins in its text.

use csv::{ByteRecord, Position};

/// Where a record begins in its text. The bytes before it may end with blank lines that are no records.
#[derive(Clone, Copy)]
pub struct Mark {
    /// The record's number, from 1.
    pub at: u64,
    /// How many bytes come before it.
    pub byte: u64,
    /// The line of those bytes' end, from 1.
    pub line: u64,
}

impl Mark {
    /// The start of a text.
    pub fn start() -> Mark {
        Mark {
            at: 0,
            byte: 0,
            line: 1,
        }
    }

    /// Where the record with this number begins, as its reader says.
    pub fn of(record: &ByteRecord, at: u64) -> Mark {
        let position = record.position().unwrap_or(Position::new());
        Mark {
            at,
            byte: position.byte(),
            line: position.line(),
        }
    }

    /// The same place, where the record that begins here is still to be read.
    pub fn before(self) -> Mark {
        Mark {
            at: self.at.saturating_sub(1),
            ..self
        }
    }
}
