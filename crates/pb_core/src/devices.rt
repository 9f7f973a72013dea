//! Readers and writers that fail or take little, for tests of what is said of a failed device.

ghost use Rattle.std.specs.Prelude.{◌≡◌, ◌-◌, ◌≤◌, [], Ok, Some, IfOk, IsErr};
ghost use Rattle.std.specs.Io.{ReadsAtMost, WritesAtMost};
ghost use Rattle.std.specs.Io.KnownBytes.{Keeps, ReadConsumes, WriteAppends};

use std::io::{Error, ErrorKind, Read, Result, Write};

/// A reader that gives its bytes, and then fails at each read.
#[derive(Drop)]
pub struct FailsAfter<'a> {
    bytes: &'a [u8],
}

impl<'a> FailsAfter<'a> {
    /// A reader that fails after these bytes.
    pub fn new(bytes: &'a [u8]) -> FailsAfter<'a>
        ensures { result.bytes.now ≡ bytes.now }
    {
        FailsAfter { bytes }
    }
}

impl<'a> Read for FailsAfter<'a> {
    ghost remaining = { λ reader. Some reader.bytes.now };

    fn read(&mut self, buf: &mut [u8]) -> Result<usize>
        ensures bound { ReadsAtMost result buf.new }
        ensures bytes { ReadConsumes (Some self.old.bytes.now) (Some self.new.bytes.now) result buf.new }
        ensures fails { self.old.bytes.now ≡ [] → IsErr result }
    {
        if self.bytes.is_empty() {
            return Err(Error::from(ErrorKind::Other));
        }
        self.bytes.read(buf)
    }
}

/// A writer that hands this many writes to another, and then fails at each, and at each flush.
#[derive(Drop)]
pub struct FailsAt<W: Write> {
    writer: W,
    writes_left: u32,
}

impl<W: Write> FailsAt<W> {
    /// A writer that fails after this many writes.
    pub fn new(writer: W, writes: u32) -> FailsAt<W>
        ensures { result ≡ record { writer = writer; writes_left = writes } }
    {
        FailsAt {
            writer,
            writes_left: writes,
        }
    }

    /// The writer underneath.
    pub fn into_inner(self) -> W
        ensures { result ≡ self.writer }
    {
        self.writer
    }
}

impl<W: Write> Write for FailsAt<W> {
    ghost contents = { λ writer. W.contents writer.writer };

    fn write(&mut self, buf: &[u8]) -> Result<usize>
        ensures bound { WritesAtMost result buf.now }
        ensures bytes { WriteAppends (W.contents self.old.writer) (W.contents self.new.writer)
            result buf.now }
        ensures fails { self.old.writes_left ≡ 0 → IsErr result }
        ensures counts { self.new.writes_left ≡ self.old.writes_left - 1 }
    {
        if self.writes_left == 0 {
            return Err(Error::from(ErrorKind::Other));
        }
        self.writes_left -= 1;
        self.writer.write(buf)
    }

    fn flush(&mut self) -> Result<()>
        ensures bytes { Keeps (W.contents self.old.writer) (W.contents self.new.writer) }
        ensures fails { self.old.writes_left ≡ 0 → IsErr result }
    {
        if self.writes_left == 0 {
            return Err(Error::from(ErrorKind::Other));
        }
        self.writer.flush()
    }
}

/// A writer that takes no byte.
#[derive(Drop)]
pub struct TakesNone;

impl Write for TakesNone {
    ghost contents = { λ _. Some [] };

    fn write(&mut self, buf: &[u8]) -> Result<usize>
        ensures bound { WritesAtMost result buf.now }
        ensures bytes { WriteAppends (Some []) (Some []) result buf.now }
        ensures none { result ≡ Ok 0 }
    {
        let _ = buf;
        Ok(0)
    }

    fn flush(&mut self) -> Result<()> {
        Ok(())
    }
}

/// A writer that takes at most one byte at each write, and hands it to another.
#[derive(Drop)]
pub struct TakesOne<W: Write> {
    writer: W,
}

impl<W: Write> TakesOne<W> {
    /// A writer that hands bytes to this one.
    pub fn new(writer: W) -> TakesOne<W>
        ensures { result.writer ≡ writer }
    {
        TakesOne { writer }
    }

    /// The writer underneath.
    pub fn into_inner(self) -> W
        ensures { result ≡ self.writer }
    {
        self.writer
    }
}

impl<W: Write> Write for TakesOne<W> {
    ghost contents = { λ writer. W.contents writer.writer };

    fn write(&mut self, buf: &[u8]) -> Result<usize>
        ensures bound { WritesAtMost result buf.now }
        ensures bytes { WriteAppends (W.contents self.old.writer) (W.contents self.new.writer)
            result buf.now }
        ensures one { IfOk result (λ count. count ≤ 1) }
    {
        match buf {
            [] => Ok(0),
            [first, ..] => self.writer.write(&[*first]),
        }
    }

    fn flush(&mut self) -> Result<()> {
        self.writer.flush()
    }
}
