//! The text that words speak of. Where it is a file it is read again.

use crate::prelude::*;
use crate::records::TextRecords;
use pb_seen::fields::{JoinedBy, joined, number_in};
use std::io::{Seek, SeekFrom};
use std::{fs, str};

/// The text that words speak of, with what it takes to read it again.
#[derive(Drop)]
pub struct Text<'a, R> {
    pub rt: &'a R,
    pub alloc: Global,
    /// Its path; none is standard input.
    pub path: Option<&'a str>,
    /// How many records come before the one with number 1.
    pub before: u64,
}

impl<'a, R> Text<'a, R> {
    /// The text with this path; no path is standard input.
    pub fn new(rt: &'a R, alloc: Global, path: Option<&'a str>) -> Text<'a, R> {
        Text {
            rt,
            alloc,
            path,
            before: 0,
        }
    }
}

impl<'a, R: Files> Text<'a, R> {
    /// Whether it is a file, which can be read again.
    pub fn is_file(&self) -> bool {
        self.path.is_some_and(|path| is_file(self.rt, path))
    }

    /// Opens the text again behind so many bytes, if it is a file.
    pub fn open_at(&self, byte: u64) -> Option<R::File> {
        let path = self.path?;
        if !is_file(self.rt, path) {
            return None;
        }
        behind(fs::open(self.rt, path).ok()?, byte)
    }

    /// Puts its first bytes into a buffer, if it is a file, and answers how many they are.
    pub fn read_start(&self, buffer: &mut [u8]) -> Option<usize> {
        let mut file = self.open_at(0)?;
        let count = file.read(buffer).unwrap_or(0);
        drop(file);
        Some(count)
    }

    /// The line with this number, from 1; the empty text where it can't be read again.
    pub fn line_at(&self, number: u32) -> Result<String, AllocError> {
        let Some(mut file) = self.open_at(0) else {
            return Ok(String::new(self.alloc));
        };
        let mut bytes = Vec::new(self.alloc);
        let _ = file.read_to_end(&mut bytes);
        drop(file);
        let line: Result<_, _> = String::from_str(self.alloc, nth_line(bytes.as_slice(), number));
        drop(bytes);
        Ok(line?)
    }

    /// The record with this mark, if it can be read again.
    pub fn row_at(&self, mark: Mark) -> Option<ByteRecord> {
        Some(self.record_at(mark)?.last)
    }

    /// The record behind the one with this mark, if there is one that can be read again. Behind the start of
    /// the text it is the first record.
    pub fn row_behind(&self, mark: Mark) -> Option<ByteRecord> {
        Some(self.find(mark, |_| true)?.0)
    }

    /// The first record behind the one with this mark that is so, and where it stands.
    pub fn find<P: Fn(&ByteRecord) -> bool>(
        &self,
        mark: Mark,
        is_so: P,
    ) -> Option<(ByteRecord, Mark)>
        requires { P.IsAlwaysCallable is_so }
    {
        let mut records = self.record_at(mark)?;
        let is_found = records.find(is_so);
        let mark = records.mark();
        let row = records.last;
        if is_found { Some((row, mark)) } else { None }
    }

    /// Why the record with this mark is one field that seems to be a whole row, if it is one.
    pub fn joined_at(&self, mark: Mark) -> Option<JoinedBy> {
        joined(&self.row_at(mark)?)
    }

    /// The same of the record behind it.
    pub fn joined_behind(&self, mark: Mark) -> Option<JoinedBy> {
        joined(&self.row_behind(mark)?)
    }

    /// The number that the first row of META with this key gives, if it gives one.
    pub fn number_of(&self, key: &str) -> Option<u32> {
        let is_so = |row: &ByteRecord| {
            let word = text_at(row, 0);
            word.eq_ignore_ascii_case("PROJECTS") || word.eq_ignore_ascii_case(key)
        };
        number_in(text_at(&self.find(Mark::start(), is_so)?.0, 1).as_bytes())
    }

    /// Whether the record with this mark is the last one.
    pub fn is_last(&self, mark: Mark) -> bool {
        self.row_at(mark).is_some() && self.row_behind(mark).is_none()
    }

    /// Its records from this mark on, if it is a file that can be read again.
    pub fn records_from(&self, start: Mark) -> Option<TextRecords<R::File>> {
        let file = self.open_at(start.byte)?;
        Some(TextRecords::new(self.alloc, file, start))
    }

    /// The record that begins at this mark, which is read last; none where there is no such record any more.
    pub fn record_at(&self, mark: Mark) -> Option<TextRecords<R::File>> {
        self.records_at(mark.before(), mark.at)
    }

    /// Its records from the one with this number on, which is read last; none where it has no such record.
    pub fn records_at(&self, start: Mark, at: u64) -> Option<TextRecords<R::File>> {
        let mut records = self.records_from(start)?;
        if records.advance_to(at) {
            return Some(records);
        }
        drop(records);
        None
    }
}

/// Whether a path names a file. A pipe or a device is none: it has given what it had.
pub fn is_file<R: Files>(rt: &R, path: &str) -> bool {
    fs::metadata(rt, path).is_ok_and(|metadata| metadata.is_file())
}

/// The line with this number, from 1; the empty text where it is none.
fn nth_line(bytes: &[u8], number: u32) -> &str {
    let place = (number as usize).saturating_sub(1);
    let line = bytes.split(|byte| *byte == b'\n').nth(place);
    str::from_utf8(line.unwrap_or(b"")).unwrap_or("")
}

/// A file behind so many bytes.
fn behind<F: Seek + Drop>(mut file: F, byte: u64) -> Option<F> {
    if file.seek(SeekFrom::Start(byte)).is_ok() {
        return Some(file);
    }
    drop(file);
    None
}

/// Whether a text begins as JSON does: with an opening bracket, and a further one or a quotation mark behind
/// it.
pub fn is_json(bytes: &[u8]) -> bool {
    let (first, rest) = without_blanks(bytes).split_first().unwrap_or((&0, b""));
    let next = without_blanks(rest).first();
    matches!(first, b'{' | b'[') && matches!(next, Some(b'{' | b'[' | b'"'))
}

/// Whether a text begins as a web page does: with a `<` behind white space and perhaps a byte order mark.
pub fn is_web_page(bytes: &[u8]) -> bool {
    without_blanks(bytes).starts_with(b"<")
}

/// A text without the white space and the byte order marks at its start.
fn without_blanks(bytes: &[u8]) -> &[u8] {
    let is_blank = |byte: &u8| matches!(byte, b' ' | b'\t' | b'\r' | b'\n' | 0xef | 0xbb | 0xbf);
    let first = bytes.iter().position(|byte| !is_blank(byte));
    bytes.get(first.unwrap_or(bytes.len())..).unwrap_or(b"")
}
