//! Words for a desk that stands on a file: why it does not, and which rows it did not take.

use crate::file_words::FOLDER;
use crate::prelude::*;
use std::io::{Error, ErrorKind};

/// The end of the row that shuts a desk.
const SHUT: &[u8] = b";shut;;;done";

/// Words for a journal that another run serves.
pub fn locked_words(alloc: Global, path: &str) -> Said {
    said(
        alloc,
        "{}: another `pb_app serve` is using this journal.\nWait until it ends, or type your requests where it runs.\n",
        &[Name(Some(path))],
    )
}

/// Words for a journal that could not be opened or made, for this reason.
pub fn unopened_words(alloc: Global, path: &str, reason: &Error) -> Said {
    let form = match reason.kind() {
        ErrorKind::IsADirectory => FOLDER,
        ErrorKind::Unsupported => "{}: this is not an ordinary file.\nName another file.\n",
        _ => {
            let remedy =
                "Name an ordinary file. Its folder must exist, and you must be allowed to read and write \
                there.\n";
            return failed(alloc, Name(Some(path)), Some(reason), "", remedy);
        }
    };
    said(alloc, form, &[Name(Some(path))])
}

/// Words for a journal, or the file beside it whose name has this end more, that could not be written, synced
/// or cut, for this reason.
pub fn unkept_words(alloc: Global, journal: &str, end: &str, reason: &Error) -> Said {
    let remedy = "Every request that got an answer is kept. Check for a full or failing disk. \
        Then run `serve` again, and send each request that got no answer.\n";
    failed(alloc, Beside(journal, end), Some(reason), "", remedy)
}

/// Words for a journal whose name leads elsewhere, and whose text is kept in this file.
pub fn moved_words(alloc: Global, path: &str, kept: &str) -> Said {
    said(
        alloc,
        "{} was moved, replaced or deleted while `pb_app serve` was using it.\nThe whole journal is now in {}, with every request that got an answer.\nIf there is a file {} now, compare the two. Give the one that has all rows the name {}. Run `serve` again. Then send each request that got no answer.\n",
        &[
            Name(Some(path)),
            Name(Some(kept)),
            Name(Some(path)),
            Name(Some(path)),
        ],
    )
}

/// Words for a journal whose name leads elsewhere, and whose text could not be kept beside it, for this
/// reason.
pub fn lost_words(alloc: Global, path: &str, reason: &Error) -> Said {
    let remedy =
        "The journal was moved, replaced or deleted while `pb_app serve` was using it, and it could \
        not be saved beside its old place.
Find the file under its new name: it has every request that got an answer.\n";
    failed(alloc, Name(Some(path)), Some(reason), "", remedy)
}

/// Words for a journal that somebody has written over, and whose own text is kept in this file.
pub fn overwritten_words(alloc: Global, path: &str, kept: &str) -> Said {
    said(
        alloc,
        "{} was overwritten or edited while `pb_app serve` was using it.\nThe whole journal is now in {}, with every request that got an answer. `serve` did not repair {}.\nFind out what wrote to {}, and keep a copy of it. Then give {} the name {}. Run `serve` again. Then send each request that got no answer.\n",
        &[
            Name(Some(path)),
            Name(Some(kept)),
            Name(Some(path)),
            Name(Some(path)),
            Name(Some(kept)),
            Name(Some(path)),
        ],
    )
}

/// Words for a journal that somebody has written over, and whose own text could not be kept beside it, for
/// this reason.
pub fn unkept_text_words(alloc: Global, path: &str, reason: &Error) -> Said {
    let remedy =
        "The journal was overwritten or edited while `pb_app serve` was using it, and its own text \
        could not be saved beside it.
Keep the answers of this run: they are the journal's last rows. Get the rows before them from last evening's copy.\n";
    failed(alloc, Name(Some(path)), Some(reason), "", remedy)
}

/// Words for a journal that somebody has written over while it was opened.
pub fn changed_words(alloc: Global, path: &str) -> Said {
    said(
        alloc,
        "{} was overwritten or edited while `pb_app serve` was opening it.\nNo request was answered. Find out what wrote to the file, and compare it with last evening's copy. Then run `serve` again.\n",
        &[Name(Some(path))],
    )
}

/// Words for an answer that could not be written, for this reason.
pub fn unanswered_words(alloc: Global, reason: Option<&Error>) -> Said {
    let otherwise = ": an answer could not be written.\n";
    let remedy =
        "The journal has every request that was taken, whether its answer was printed or not.\n";
    failed(alloc, Own("standard output"), reason, otherwise, remedy)
}

/// Words for a journal that is legal, and not spelled as a desk spells it.
pub fn spelling_words(alloc: Global, path: &str) -> Said {
    said(
        alloc,
        "{}: the rows are right, but another program saved the file again: it has other line ends, extra quotation marks, or an invisible mark at its start.\n`pb_app serve` did not change the file. Get the journal from last evening's copy. Do not open a journal in a spreadsheet or a text program.\n",
        &[Name(Some(path))],
    )
}

/// Words for a journal of a desk that is open and was to be shut.
pub fn open_desk_words(alloc: Global, journal: Option<&str>) -> Said {
    said(
        alloc,
        "{}: the desk is still open.\nIf it was shut since, get the journal from the desk's machine. If not, shut the desk first: give `pb_app serve` the request `0;shut;;`.\n",
        &[Name(journal)],
    )
}

/// Words for these bytes from behind a journal's text that are kept in this file.
pub fn torn_words(alloc: Global, path: &str, bytes: &[u8]) -> Said {
    let (unit, warning) = match (bytes.len(), has_shut_row(bytes)) {
        (_, true) => (
            "bytes were",
            "Careful: one of the rows that were cut off shuts the desk, and without them the desk is open.\n",
        ),
        (1, _) => ("byte was", ""),
        _ => ("bytes were", ""),
    };
    said(
        alloc,
        "The journal was read up to its first empty line or incomplete row. After that, {} {} cut off, and kept in {}.\nIf the power failed, the disk was full or the program was ended, this is normal: send again each request that got no answer. If not, compare the journal with last evening's copy.\n{}",
        &[
            Number(bytes.len() as u64),
            Own(unit),
            Name(Some(path)),
            Own(warning),
        ],
    )
}

/// Whether one of these rows shuts a desk.
fn has_shut_row(rows: &[u8]) -> bool {
    rows.split(|byte| *byte == b'\n')
        .any(|row| row.ends_with(SHUT))
}

/// Words for so many rows that were not of the form.
pub fn bad_rows_words(alloc: Global, rows: u64) -> Said {
    let form = if rows == 1 {
        "{} row is not a valid request, and is not in the journal.\nCorrect it, and send it again: `pb_app serve --help` shows the form of a request.\n"
    } else {
        "{} rows are not valid requests, and are not in the journal. Each of them has a line `fault;script;2;BadRow;ROW` among the answers.\nCorrect them, and send them again: `pb_app serve --help` shows the form of a request.\n"
    };
    said(alloc, form, &[Number(rows)])
}
