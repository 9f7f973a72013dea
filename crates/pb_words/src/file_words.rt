//! Words for files: those that cannot be opened, read or written.

use crate::prelude::*;
use pb_witness::failures::{is_folder, opening_failure, reading_failure};
use pb_witness::text::is_file;
use std::io::{Error, ErrorKind};

/// What is said of a folder in the place of a file.
pub(crate) const FOLDER: &str = "{}: this is a folder.\nName a file in it.\n";

/// What is said where memory is refused.
pub const NO_MEMORY: &str = ": memory ran out.\nRun again on a machine with more memory.\n";

/// Words for a file that could not be opened. It is tried once more, for the system's reason.
pub fn open_words<R: Files>(rt: &R, alloc: Global, path: &str) -> Said {
    let reason = opening_failure(rt, path);
    let remedy = match reason.as_ref().map(Error::kind) {
        Some(ErrorKind::NotFound) =>
            "Check the file's name, and the folder that the command runs in.\n",
        Some(ErrorKind::PermissionDenied) => "Get permission to read the file.\n",
        Some(_) => "Check the file's name, and that you may read it.\n",
        None => "Run again.\n",
    };
    let otherwise = ": the file could not be opened.\n";
    failed(alloc, Name(Some(path)), reason.as_ref(), otherwise, remedy)
}

/// Words for an output that could not be written, for this reason.
pub fn write_words(alloc: Global, path: Option<&str>, reason: Option<&Error>) -> Said {
    let (name, remedy) = match (path, reason.map(Error::kind)) {
        (Some(""), _) => {
            return said(
                alloc,
                "--output: the name of the file is empty.\nName a file.\n",
                &[],
            );
        }
        (Some(_), Some(ErrorKind::IsADirectory)) => return said(alloc, FOLDER, &[Name(path)]),
        (Some(_), Some(ErrorKind::NotFound)) => (
            Name(path),
            "The result was not written. Name a file in a folder that exists.\n",
        ),
        (Some(_), _) => (
            Name(path),
            "The result was not written. Check that you may write to this folder, and that the disk is not full. A file that already had this name is unchanged.\n",
        ),
        (None, _) => (
            Own("standard output"),
            "Check for a full disk or a closed pipe. Do not use the part that was written.\n",
        ),
    };
    failed(
        alloc,
        name,
        reason,
        ": the output could not be written.\n",
        remedy,
    )
}

/// Puts why a text could not be read to its end, at the record with this number where there is one, if it has
/// a path; answers whether it has. A file is tried once more, for the system's reason.
pub(crate) fn put_reading_failed<R: Files>(
    out: &mut WordsWriter,
    text: &Text<R>,
    at: Option<u64>,
) -> bool {
    let Some(path) = text.path else {
        return false;
    };
    if is_folder(text.rt, path) {
        out.fill(FOLDER, &[Name(text.path)]);
        return true;
    }
    match at {
        Some(at) => put_record_number(out, text, at),
        None => out.fill("{}", &[Name(text.path)]),
    }
    if is_file(text.rt, path) {
        let otherwise = ": reading failed, but a second try read the whole file.\n";
        out.put_reason(reading_failure(text.rt, path).as_ref(), otherwise);
    } else {
        out.put(": reading failed.\n");
    }
    out.put("Check the disk or the connection, then run again.\n");
    true
}

/// Words for a file that could not be read to its end.
pub fn unread_words<R: Files>(rt: &R, alloc: Global, path: &str) -> Said {
    let mut out = WordsWriter::new(alloc);
    let _ = put_reading_failed(&mut out, &Text::new(rt, alloc, Some(path)), None);
    out.finish()
}

/// Words for a command line that names a file in place of a command.
pub fn mistaken_words(alloc: Global, path: &str) -> Said {
    let form = "Did you mean `pb_app count {}`?\n";
    said(alloc, form, &[Name(Some(path))])
}
