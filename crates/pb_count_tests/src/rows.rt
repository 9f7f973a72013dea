//! Records and rows, numbers and lists of places.

use crate::checks::{holds, same, shows};
use csv::StringRecord;
use pb_rows::{
    Field, Records, RecordsFault, RowsWriter, read_number, read_place_list, write_places,
};
use std::alloc::Global;
use std::io;
use std::io::{ErrorKind, Read};
use std::process::Abort;

/// Each field in brackets, and a bar.
fn show_row(rt: &impl Abort, shown: &mut String, row: &StringRecord) {
    for field in row.iter() {
        write!(shown, "[{field}]").expect(rt, "memory");
    }
    shown.push('|').expect(rt, "memory");
}

/// What a read gave.
fn show_read(
    rt: &impl Abort,
    shown: &mut String,
    read: Result<bool, RecordsFault>,
    row: &StringRecord,
) {
    match read {
        Ok(true) => show_row(rt, shown, row),
        Ok(false) if row.is_empty() => shown.push('.').expect(rt, "memory"),
        Ok(false) => show_row(rt, shown, row),
        Err(fault) => write!(shown, "({fault})").expect(rt, "memory"),
    }
}

/// What this many reads give, one after the other: each record's fields in brackets, and a bar; a point at
/// the end, where the record is empty; and the fault of a read that fails.
fn shown<R: Read + Drop>(rt: &impl Abort, alloc: Global, reader: R, reads: u32) -> String {
    let mut records = Records::new(alloc, reader);
    let mut row = StringRecord::new(alloc);
    let mut shown = String::new(alloc);
    for _ in 0..reads {
        let read = records.read(&mut row);
        show_read(rt, &mut shown, read, &row);
    }
    drop(row);
    drop(records);
    shown
}

/// Texts, how many reads, and what they give.
const RECORDS: &[(&[u8], u32, &str)] = &[
    (b"", 1, "."),
    (b"a;b\nc;d;e\nf", 4, "[a][b]|[c][d][e]|[f]|."),
    (
        b"\"x;y\";\"say \"\"hi\"\"\"\r\nz",
        3,
        "[x;y][say \"hi\"]|[z]|.",
    ),
    (b"\"two\nlines\"; b \n", 2, "[two\nlines][ b ]|."),
    (b"a,b\n\n\r\nc\n", 3, "[a,b]|[c]|."),
    (b";\n\"\"\n", 3, "[][]|[]|."),
    (b"\xef\xbb\xbfa\n\xef\xbb\xbfb\n", 3, "[a]|[\u{feff}b]|."),
    (b"\xef\xbb\xbf\xef\xbb\xbfa", 2, "[\u{feff}a]|."),
    // The end stays the end, and so does a field that is no text.
    (b"a\n", 3, "[a]|.."),
    (
        b"a\nb;\xff\nc\n",
        3,
        "[a]|(a field is not UTF-8)(a field is not UTF-8)",
    ),
];

/// Gives its text byte by byte, and then an error, and then an end.
#[derive(Drop)]
struct Broken<'a> {
    text: &'a [u8],
    has_failed: bool,
}

impl<'a> Read for Broken<'a> {
    fn read(&mut self, buf: &mut [u8]) -> io::Result<usize> {
        match (self.text.split_first(), buf.first_mut()) {
            (Some((byte, rest)), Some(place)) => {
                *place = *byte;
                self.text = rest;
                Ok(1)
            }
            _ if self.has_failed => Ok(0),
            _ => {
                self.has_failed = true;
                Err(io::Error::from(ErrorKind::Other))
            }
        }
    }
}

#[test]
fn records(rt: HostRuntime) {
    for (text, reads, wanted) in RECORDS {
        let found = shown(&rt, rt.alloc(), *text, *reads);
        same(&rt, found.as_str(), *wanted, wanted);
    }
    let broken = Broken {
        text: b"a;b\nc",
        has_failed: false,
    };
    let found = shown(&rt, rt.alloc(), broken, 3);
    let wanted = "[a][b]|(the reader failed)(the reader failed)";
    same(&rt, found.as_str(), wanted, "a failed reader");
}

#[test]
fn tells_that_memory_is_out(rt: HostRuntime) {
    let fault = RecordsFault::NoMemory;
    shows(&rt, rt.alloc(), &fault, "out of memory");
}

/// The text of these rows.
fn written(rt: &impl Abort, alloc: Global, rows: &[&[&str]]) -> Vec<u8> {
    let mut text = RowsWriter::start(alloc);
    for row in rows {
        text.put_row(row).expect(rt, "memory");
    }
    text.finish().expect(rt, "memory")
}

#[test]
fn rows(rt: HostRuntime) {
    let rows: &[&[&str]] = &[
        &["budget", "10.00"],
        &["a;b", "say \"hi\"", "two\nlines", " c,d "],
        &[""],
        &["", ""],
    ];
    let found = written(&rt, rt.alloc(), rows);
    let wanted = "budget;10.00\n\"a;b\";\"say \"\"hi\"\"\";\"two\nlines\"; c,d \n\"\"\n;\n";
    same(&rt, found.as_slice(), wanted.as_bytes(), "four rows");
    let nothing = written(&rt, rt.alloc(), &[]);
    holds(&rt, nothing.is_empty(), "no row");
}

/// Amounts in hundredths, what each is divided by, and the row of it.
const EXACT: &[(u128, u64, &str)] = &[
    (0, 7, "0.00\n"),
    (1_230, 1, "12.30\n"),
    (10_000, 4, "25.00\n"),
    (10_000, 3, "100/3\n"),
    (1, 3, "1/300\n"),
    (12, 8, "3/200\n"),
    (50, 30, "1/60\n"),
    (5, 0, "0.05\n"),
    (1, u64::MAX, "1/1844674407370955161500\n"),
    (u128::MAX, u64::MAX, "184467440737095516.17\n"),
];

#[test]
fn exact_amounts(rt: HostRuntime) {
    for (amount, divisor, wanted) in EXACT {
        let mut rows = RowsWriter::start(rt.alloc());
        rows.put_fields(&[Field::Exact(*amount, *divisor)])
            .expect(&rt, "memory");
        let found = rows.finish().expect(&rt, "memory");
        same(&rt, found.as_slice(), wanted.as_bytes(), wanted);
    }
}

/// Texts, and the number that each spells.
const NUMBERS: &[(&str, Option<u32>)] = &[
    ("0", Some(0)),
    ("7", Some(7)),
    ("10", Some(10)),
    ("4294967295", Some(4_294_967_295)),
    ("4294967296", None),
    ("007", None),
    ("00", None),
    ("+5", None),
    ("-5", None),
    ("+", None),
    ("", None),
    (" 5", None),
    ("5 ", None),
    ("1.0", None),
];

#[test]
fn numbers(rt: HostRuntime) {
    for (text, wanted) in NUMBERS {
        same(&rt, read_number(text), *wanted, text);
    }
}

/// Texts, and whether each is a list of places.
const PLACES: &[(&str, bool)] = &[
    ("", true),
    ("0", true),
    ("0,2,9", true),
    ("4294967295", true),
    ("2,1", true),
    ("7,0,7", true),
    ("1,1", true),
    ("1,", false),
    (",", false),
    ("1,,2", false),
    ("01", false),
    ("1, 2", false),
    ("1;2", false),
];

/// The list is written after this text, which it leaves as it is.
fn written_after(rt: &impl Abort, alloc: Global, before: &str, places: &[u32]) -> String {
    let mut text = String::from_str(alloc, before).expect(rt, "memory");
    write_places(places, &mut text).expect(rt, "memory");
    text
}

/// Whether the text is a list of places. A list is written again as it stood.
fn is_read(rt: &impl Abort, alloc: Global, text: &str, is_list: bool) {
    let mut list = Vec::new(alloc);
    same(rt, read_place_list(text, &mut list), Ok(is_list), text);
    if is_list {
        let back = written_after(rt, alloc, "", list.as_slice());
        same(rt, back.as_str(), text, "a list written");
    }
}

#[test]
fn places(rt: HostRuntime) {
    for (text, is_list) in PLACES {
        is_read(&rt, rt.alloc(), text, *is_list);
    }
    let text = written_after(&rt, rt.alloc(), "places ", &[0, 2, 10]);
    same(&rt, text.as_str(), "places 0,2,10", "after a text");
}
