//! How a row at a time is handed out.

ghost use Rattle.std.specs.Prelude.{◌≡◌, ◌<◌, ◌≤◌, ◌++◌, [], Option, ℕ, List, length, take, IfOk, IfSome};
ghost use Rattle.std.specs.Prelude.{◌-◌, IsSome, IsTrue, drop};
ghost use Rattle.std.specs.Io.KnownBytes.{prepend_known};
ghost use Rattle.csv.specs.Machine.{is_end, step};
ghost use Rattle.pb_durable.specs.RowPosition.{state_at};
ghost use Rattle.pb_rows.specs.Reading.{pb_config};
ghost use Rattle.pb_serving.specs.Inner.Rows.{first_row, state_after};
ghost use Rattle.pb_serving.specs.Inner.AtHand.{read_ahead};

use crate::paced::{AtHand, Paced};
use pb_durable::row_position::RowPosition;
use std::alloc::{AllocError, Global};
use std::io::{Read, Result};

/// How many bytes of the input are read at once, at most.
const CHUNK: usize = 1 << 16;

/// Whether a row ends with this byte. A line end within quotes ends none, nor does that of an empty line.
fn ends_row(place: RowPosition, byte: u8) -> bool
    ensures { result ≡ is_end (step pb_config (state_at place) byte).1 }
{
    match place {
        RowPosition::FieldStart | RowPosition::InField | RowPosition::BehindQuote => byte == b'\n'
            || byte == b'\r',
        RowPosition::RowStart | RowPosition::InQuotes | RowPosition::BehindReturn => false,
    }
}

/// Where the byte after all of these stands.
fn after_all(place: RowPosition, bytes: &[u8]) -> RowPosition
    ensures { state_at result ≡ state_after (state_at place) bytes.now }
{
    let mut place = place;
    for byte in bytes {
        place = place.after(*byte);
    }
    place
}

/// How many bytes there are up to the end of the first row, with its line end; none where it doesn't end
/// among them.
fn row_length(place: RowPosition, bytes: &[u8]) -> Option<usize>
    ensures row { result ≡ first_row (state_at place) bytes.now }
    ensures some { IfSome result (λ count. (0 < count) × (count ≤ length bytes.now)) }
{
    let mut place = place;
    let mut count = 0;
    for byte in bytes {
        count += 1;
        if ends_row(place, *byte) {
            return Some(count);
        }
        place = place.after(*byte);
    }
    None
}

impl<'a, P: Read + Drop> Paced<'a, P> {
    /// A reader that gives what this one gives.
    pub fn new(
        alloc: Global,
        reader: P,
        at_hand: &'a AtHand,
    ) -> std::result::Result<Paced<'a, P>, AllocError>
        ensures { IfOk result (λ paced. (paced.start ≡ paced.end) × (paced.reader ≡ reader)) }
    {
        let mut chunk = Vec::new(alloc);
        chunk.resize(CHUNK, 0)?;
        Ok(Paced {
            reader,
            at_hand,
            chunk,
            start: 0,
            end: 0,
            place: RowPosition::RowStart,
        })
    }

    /// What was read and not yet handed out.
    fn rest(&self) -> &[u8]
        ensures { result.now ≡ read_ahead self.now }
    {
        &self.chunk[self.start..self.end]
    }

    /// Whether a row ends among these bytes, before which all that was handed out is whole rows.
    fn has_row(&self) -> bool
        ensures { IsTrue result → IsSome (first_row (state_at self.now.place) (read_ahead self.now)) }
    {
        match self.place {
            RowPosition::RowStart | RowPosition::BehindReturn => {
                row_length(self.place, self.rest()).is_some()
            }
            RowPosition::FieldStart
            | RowPosition::InField
            | RowPosition::InQuotes
            | RowPosition::BehindQuote => false,
        }
    }

    /// Hands out the row that goes on, or all of it that is there.
    fn hand_out(&mut self, buf: &mut [u8]) -> usize
        ensures bound { result ≤ length buf.new }
        ensures bytes { read_ahead self.old ≡ take result buf.new ++ read_ahead self.new }
        ensures some { 0 < length buf.new → 0 < length (read_ahead self.old) → 0 < result }
        ensures reader { self.new.reader ≡ self.old.reader }
        ensures place { state_at self.new.place ≡ state_after (state_at self.old.place)
            (take result buf.new) }
    {
        let rest = self.rest();
        let row = row_length(self.place, rest).unwrap_or(rest.len());
        let count = row.min(rest.len()).min(buf.len());
        let handed = &rest[..count];
        buf[..count].copy_from_slice(handed);
        let place = after_all(self.place, handed);
        self.place = place;
        self.start += count;
        let is_next = self.has_row();
        self.at_hand.0.set(is_next);
        count
    }
}

impl<P: Read + Drop> Read for Paced<'_, P> {
    ghost remaining = { λ paced. prepend_known
        (take (paced.end - paced.start) (drop paced.start paced.chunk.items)) (P.remaining paced.reader) };

    fn read(&mut self, buf: &mut [u8]) -> Result<usize> {
        if self.start >= self.end {
            self.start = 0;
            self.end = 0;
            let end = self.reader.read(&mut self.chunk)?;
            self.end = end;
        }
        Ok(self.hand_out(buf))
    }
}
