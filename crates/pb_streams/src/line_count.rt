//! A writer that counts lines.

use std::io::{Result, Write};

/// A writer that counts the line ends which go by.
#[derive(Drop)]
pub struct LineCount<'w, W> {
    writer: &'w mut W,
    /// How many have gone by.
    pub lines: u64,
}

impl<'w, W> LineCount<'w, W> {
    /// No line yet.
    pub fn new(writer: &'w mut W) -> LineCount<'w, W> {
        LineCount { writer, lines: 0 }
    }
}

impl<W: Write> Write for LineCount<'_, W> {
    fn write(&mut self, buf: &[u8]) -> Result<usize> {
        let count = self.writer.write(buf)?;
        let ends = buf
            .iter()
            .take(count)
            .filter(|byte| **byte == b'\n')
            .count();
        self.lines = self.lines.saturating_add(ends as u64);
        Ok(count)
    }

    fn flush(&mut self) -> Result<()> {
        self.writer.flush()
    }
}
