//! The fields of a record, trimmed as the readers trim them.

use csv::ByteRecord;
use pb_rows::read_number;
use std::str;

/// The bytes of a field; none where the record ends before it.
pub fn bytes_at(record: &ByteRecord, place: usize) -> &[u8] {
    match record.get(place) {
        Some(field) => field,
        None => b"",
    }
}

/// The text of a field as it stands; the empty text where it is none.
pub fn raw_text(record: &ByteRecord, place: usize) -> &str {
    match str::from_utf8(bytes_at(record, place)) {
        Ok(text) => text,
        Err(_) => "",
    }
}

/// The text of a field without the white space at its ends; the empty text where it is none.
pub fn text_at(record: &ByteRecord, place: usize) -> &str {
    raw_text(record, place).trim()
}

/// Whether bytes have this one.
pub fn has_byte(bytes: &[u8], byte: u8) -> bool {
    for other in bytes {
        if *other == byte {
            return true;
        }
    }
    false
}

/// How often this byte stands among others.
pub fn count_of(bytes: &[u8], byte: u8) -> usize {
    let mut count = 0usize;
    for other in bytes {
        count = count.saturating_add(usize::from(*other == byte));
    }
    count
}

/// Whether a field of a record has several lines.
pub fn has_lines(record: &ByteRecord) -> bool {
    has_byte(record.as_slice(), b'\n')
}

/// Whether a field behind the first has a text.
pub fn has_more(record: &ByteRecord) -> bool {
    (1..record.len()).any(|place| !text_at(record, place).is_empty())
}

/// Whether a record has nothing but white space.
pub fn is_blank(record: &ByteRecord) -> bool {
    (0..record.len()).all(|place| text_at(record, place).is_empty())
}

/// The first place at which the record has this word, in any case.
pub fn column_of(record: &ByteRecord, name: &str) -> Option<usize> {
    (0..record.len()).find(|place| text_at(record, *place).eq_ignore_ascii_case(name))
}

/// The first place of a field that is no text.
pub fn place_of_no_text(record: &ByteRecord) -> Option<usize> {
    (0..record.len()).find(|place| str::from_utf8(bytes_at(record, *place)).is_err())
}

/// The number that a field is, if it is one.
pub fn number_in(field: &[u8]) -> Option<u32> {
    read_number(str::from_utf8(field).ok()?)
}

/// Whether a row seems to be one of a journal: that of its version, or an entry.
pub fn is_of_journal(row: &ByteRecord) -> bool {
    let is_entry = row.len() == 6 && number_in(bytes_at(row, 0)).is_some();
    is_entry || raw_text(row, 0) == "journal"
}

/// Why a whole row is one field.
#[derive(Clone, Copy)]
pub enum JoinedBy {
    /// It stands in quotation marks, with its `;`.
    Quotes,
    /// It has no `;`, and these seem to separate its fields.
    Tabs,
    Commas,
    Bars,
}

impl JoinedBy {
    /// What separates the fields in place of `;`, if something does.
    pub fn separators(self) -> Option<&'static str> {
        match self {
            JoinedBy::Quotes => None,
            JoinedBy::Tabs => Some("tabs"),
            JoinedBy::Commas => Some("commas"),
            JoinedBy::Bars => Some("bars (`|`)"),
        }
    }
}

/// What may be in a field that is a whole row.
const MARKS: [(u8, JoinedBy); 3] = [
    (b';', JoinedBy::Quotes),
    (b'\t', JoinedBy::Tabs),
    (b',', JoinedBy::Commas),
];

/// Why a record is one field that seems to be a whole row, if it is one.
pub fn joined(record: &ByteRecord) -> Option<JoinedBy> {
    if record.len() != 1 {
        return None;
    }
    let field = bytes_at(record, 0);
    if field.starts_with(b"|") {
        return Some(JoinedBy::Bars);
    }
    let (_, joined) = MARKS.iter().find(|(mark, _)| field.contains(mark))?;
    Some(*joined)
}
