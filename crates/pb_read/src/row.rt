//! A record of the file as its trimmed fields.

ghost use Rattle.std.specs.Prelude.{◌≡◌, ◌≢◌, Err, None, Some, IfErr, IfOk, OnOk};
ghost use Rattle.std.specs.Str.{trim};
ghost use Rattle.csv.specs.Records.{fields_of};
ghost use Rattle.pb_rows.specs.Inner.Reading.{HasReadAtMost};
ghost use Rattle.pb_read.specs.Columns.{column, has_fields};
ghost use Rattle.pb_read.specs.Inner.Fields.{trimmed};
ghost use Rattle.pb_read.specs.Rows.{field, is_blank, is_word};
ghost use Rattle.pb_read.specs.Inner.Checking.{HasFound};

use csv::{ByteRecord, StringRecord};
use pb_rows::{Records, RecordsFault};
use std::alloc::Global;
use std::io::Read;
use std::marker::Model;
use std::mem;

/// What was read of a text whose records need not be text.
#[derive(Clone, Copy)]
pub(crate) enum Found {
    /// A record that is text.
    Text,
    /// A record with a field that is none.
    NoText,
    /// The end.
    End,
}

/// A record of the file. A contract sees its fields without the white space at their ends.
#[derive(Drop)]
pub(crate) struct Row {
    untrimmed: StringRecord,
}

impl Model for Row {
    ghost use Rattle.csv.specs.Records.{fields_of};
    ghost use Rattle.pb_rows.specs.Reading.{Fields};
    ghost use Rattle.pb_read.specs.Inner.Fields.{trimmed};

    ghost Value = { Fields };

    ghost view = { λ row. trimmed (fields_of row.untrimmed) };
}

impl Row {
    /// A row to read records into.
    pub(crate) fn new(alloc: Global) -> Row {
        Row {
            untrimmed: StringRecord::new(alloc),
        }
    }

    /// Reads the next record, which need not be text: into this row where it is, and else into `raw`.
    pub(crate) fn read_any<R: Read>(
        &mut self,
        alloc: Global,
        raw: &mut ByteRecord,
        records: &mut Records<R>,
    ) -> Result<Found, RecordsFault>
        ensures found { IfOk result (HasFound records.old.left records.new.left self.new) }
        ensures goes_on { OnOk result (records.new.fault ≡ None) }
        ensures stops { IfErr result (λ fault. records.new.fault ≡ Some fault) }
        ensures bytes { records.old.fault ≡ None → result ≢ Err RecordsFault.NotText }
        ensures read { HasReadAtMost 1 records.old.left records.new.left }
    {
        if !records.read_bytes(raw)? {
            return Ok(Found::End);
        }
        let bytes = mem::replace(raw, ByteRecord::new(alloc));
        match StringRecord::from_byte_record(bytes) {
            Ok(text) => {
                let before = mem::replace(&mut self.untrimmed, text);
                drop(mem::replace(raw, before.into_byte_record()));
                Ok(Found::Text)
            }
            Err(refused) => {
                drop(mem::replace(raw, refused.into_byte_record()));
                Ok(Found::NoText)
            }
        }
    }

    /// The record as it stands in the file.
    pub(crate) fn bytes(&self) -> &ByteRecord
        ensures { trimmed (fields_of result.now) ≡ self.now }
    {
        self.untrimmed.as_byte_record()
    }

    /// Whether the record has a field at each of two places, from 0.
    pub(crate) fn has_fields(&self, place: usize, other: usize) -> bool
        ensures { result ≡ has_fields place other self.now }
    {
        let fields = self.untrimmed.len();
        place < fields && other < fields
    }

    /// The field at a place, from 0; the empty text where the record ends before it.
    pub(crate) fn field(&self, place: usize) -> &str
        ensures field { result.now ≡ field self.now place }
        ensures tidy { trim result.now ≡ result.now }
    {
        whole_field(&self.untrimmed, place).trim()
    }

    /// Whether all fields are empty.
    pub(crate) fn is_blank(&self) -> bool
        ensures { result ≡ is_blank self.now }
    {
        for place in 0..self.untrimmed.len() {
            if !self.field(place).is_empty() {
                return false;
            }
        }
        true
    }

    /// The first place, from 0, at which this header row names a column.
    pub(crate) fn column(&self, name: &str) -> Option<usize>
        ensures { result ≡ column name.now self.now }
    {
        for place in 0..self.untrimmed.len() {
            if is_word(name, self.field(place)) {
                return Some(place);
            }
        }
        None
    }
}

/// The field at a place as it stands, with the white space at its ends.
fn whole_field(untrimmed: &StringRecord, place: usize) -> &str
    ensures { trim result.now ≡ field (trimmed (fields_of untrimmed.now)) place }
{
    match untrimmed.get(place) {
        Some(text) => text,
        None => "",
    }
}

/// Whether a text is this word, upper and lower case of ASCII aside.
pub(crate) fn is_word(word: &str, text: &str) -> bool
    ensures { result ≡ is_word word.now text.now }
{
    word.eq_ignore_ascii_case(text)
}
