//! What a file looks like that is none of the program's texts.

use crate::command_words::put_clean;
use crate::prelude::*;
use pb_witness::text::{is_json, is_web_page};

/// What files look like that begin with certain bytes, and what to do with them.
const LOOKS: &[(&[u8], &str)] = &[
    (
        b"\x1f\x8b",
        ": the file looks like a gzip archive.\nUnpack it first, for example with `gunzip`.\n",
    ),
    (b"BZh", ARCHIVE),
    (b"\xfd7zXZ", ARCHIVE),
    (b"7z\xbc\xaf", ARCHIVE),
    (b"Rar!", ARCHIVE),
    (b"SQLite format 3", DATABASE),
    (b"-- MySQL dump", DATABASE),
    (b"--\n-- PostgreSQL", DATABASE),
    (
        b"\xd0\xcf\x11\xe0",
        ": the file looks like a spreadsheet in the old format .xls.\nSave it as text with `;` between the fields, or as .xlsx, which `pb_clean` reads.\n",
    ),
    (
        b"{\\rtf",
        ": the file looks like a document of an office program (RTF).\nSave it as plain text.\n",
    ),
    (
        b"PK\x03\x04",
        ": the file looks like a zip archive, or a document of an office program.\nUnpack it first, or save the document as text with `;` between the fields, or as .xlsx, which `pb_clean` reads.\n",
    ),
    (
        b"journal;",
        ": this is the journal of a desk, not a .pb file.\nTo check it and count its ballots, run `pb_app audit FILE JOURNAL`. FILE is the .pb file of the desk.\n",
    ),
    (b"-----BEGIN PKCS7-----", SIGNED_TEXT),
    (
        b"%PDF",
        ": the file looks like a PDF document.\nGet the .pb file itself, which is text.\n",
    ),
];

const DATABASE: &str =
    ": the file looks like that of a database.\nExport the .pb file, which is text with `;` between the fields.\n";

const ARCHIVE: &str = ": the file looks like an archive.\nUnpack it first.\n";

const WORKBOOK: &str =
    ": the file looks like a spreadsheet (.xlsx).\nSave it as text with `;` between the fields.\n";

/// What is said of a file with a signature: in bytes, as a text, as an e-mail.
const SIGNED: &str =
    ": the file looks like a signed file (.p7m).\nTake the file out of it by the program for signatures, or by `openssl cms -verify -noverify -inform DER -in FILE -out NEW`.\n";

const SIGNED_TEXT: &str =
    ": the file looks like a signed file.\nTake the file out of it by the program for signatures, or by `openssl cms -verify -noverify -inform PEM -in FILE -out NEW`.\n";

const SIGNED_MAIL: &str =
    ": the file looks like a signed e-mail.\nTake the file out of it by the program for signatures, or by `openssl cms -verify -noverify -inform SMIME -in FILE -out NEW`.\n";

/// How signed data are called within the first bytes of such a file.
const SIGNED_DATA: &[u8] = b"\x06\x09\x2a\x86\x48\x86\xf7\x0d\x01\x07\x02";

const JSON: &str =
    ": the file looks like JSON.\nGet the .pb file itself, which is text with `;` between the fields.\n";

const WIDE: &str =
    ": the file looks like text in the encoding UTF-16 or UTF-32.\nSave the file again with the encoding UTF-8.\n";

/// What is said of a file in which no line has a text.
pub(crate) const EMPTY: &str = ": the file is empty.\nGet or save the file again.\n";

/// Puts what a text that is a file looks like by its first bytes, and what to do, and answers whether they
/// say something.
pub(crate) fn put_looks<R: Files>(out: &mut WordsWriter, text: &Text<R>) -> bool {
    let mut buffer = [0u8; 512];
    let Some(count) = text.read_start(&mut buffer) else {
        return false;
    };
    let bytes = &buffer[..count.min(512)];
    let is_wide = is_wide(bytes);
    let is_workbook = bytes.starts_with(b"PK")
        && text.path.is_some_and(|path| path.ends_with(".xlsx"));
    let looks = match looks_by(bytes) {
        _ if is_workbook => Some(WORKBOOK),
        _ if is_wide => Some(WIDE),
        looks => looks,
    };
    let Some(looks) = looks else {
        return false;
    };
    out.fill("{}{}", &[Name(text.path), Own(looks)]);
    if is_wide || is_workbook {
        put_clean(out, text, "");
    }
    true
}

/// Whether a text seems to be encoded in UTF-16 or UTF-32: it has the mark of it, or each second byte is 0.
fn is_wide(bytes: &[u8]) -> bool {
    let is_0 = |place: usize| bytes.get(place) == Some(&0);
    let is_pair = |first: usize, second: usize| is_0(first) && !is_0(second);
    bytes.starts_with(b"\xff\xfe")
        || bytes.starts_with(b"\xfe\xff")
        || bytes.starts_with(b"\0\0\xfe\xff")
        || (is_pair(0, 1) && is_pair(2, 3))
        || (is_pair(1, 0) && is_pair(3, 2) && bytes.len() > 3)
}

/// What a text looks like that begins with these bytes.
fn looks_by(bytes: &[u8]) -> Option<&'static str> {
    match LOOKS.iter().find(|(begins, _)| bytes.starts_with(begins)) {
        Some((_, words)) => Some(*words),
        None if bytes.is_empty() => Some(EMPTY),
        None if is_web_page(bytes) => Some(
            ": the file looks like a web page.\nGet the file itself, and not the page that shows it.\n",
        ),
        None if is_json(bytes) => Some(JSON),
        None if bytes.starts_with(b"0") && has(bytes, SIGNED_DATA, 32) => Some(SIGNED),
        None if bytes.starts_with(b"MIME-") && has(bytes, b"pkcs7-mime", 512) => {
            Some(SIGNED_MAIL)
        }
        None => None,
    }
}

/// Whether one of so many first places of a text has this part.
fn has(bytes: &[u8], part: &[u8], most: usize) -> bool {
    let is_here = |start: usize| bytes.get(start..start.saturating_add(part.len())) == Some(part);
    (0..most).any(is_here)
}
