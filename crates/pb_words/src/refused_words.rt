//! Words for rows that a desk refuses by its rules, and for the voters' roll.

use crate::file_words::{FOLDER, NO_MEMORY};
use crate::mark_words::put_swallower;
use crate::prelude::*;
use pb_script::{RollFault, RowRefusal};
use pb_seen::fields::JoinedBy;
use pb_witness::failures::is_folder;

/// A row that a desk refuses by its rules.
#[derive(Clone, Copy)]
pub struct RefusedRow<'a> {
    /// Its number, from 1.
    pub row: u64,
    /// Why it is refused.
    pub why: RowRefusal,
    /// The id that no project has, where that is why.
    pub unknown: &'a str,
    /// The path of the text that it is from; none is standard input.
    pub path: Option<&'a str>,
    /// The path of the voters' roll.
    pub roll: Option<&'a str>,
    /// How many projects a ballot has at least.
    pub least: u32,
    /// Whether its script is refused by it.
    pub refuses_script: bool,
}

/// Words for a row that a desk refuses by its rules.
pub fn refused_words<R: Files>(rt: &R, alloc: Global, refused: &RefusedRow<'_>) -> Said {
    let mut out = WordsWriter::new(alloc);
    let text = Text::new(rt, alloc, refused.path);
    match text.records_at(Mark::start(), refused.row) {
        Some(records) => {
            let _ = put_mark(&mut out, &text, records.mark());
            put_why(&mut out, refused, Quoted(text_at(&records.last, 2)));
        }
        None => {
            put_record_number(&mut out, &text, refused.row);
            put_why(&mut out, refused, Own("the voter"));
        }
    }
    out.put(if refused.refuses_script {
        " Nothing was written.\n"
    } else {
        " The request is not recorded.\n"
    });
    put_remedy(&mut out, refused, &Text::new(rt, alloc, refused.roll));
    out.finish()
}

/// Puts what to do about it.
fn put_remedy<R: Files>(out: &mut WordsWriter, refused: &RefusedRow<'_>, roll: &Text<R>) {
    let remedy = match refused.why {
        RowRefusal::UnknownId if refused.unknown.contains('"') => {
            "Delete all quotation marks in this field"
        }
        RowRefusal::UnknownId => "Correct the id",
        RowRefusal::TooFew => "Ask the voter which further projects to add",
        RowRefusal::FromFile =>
            "What the desk has for this voter stays as it is. If the voter's id is wrong, correct it",
        RowRefusal::NoShut =>
            "A shut is final. If an open desk is to be shut, start `serve` without `--no-shut`",
        RowRefusal::NotOnRoll | RowRefusal::Bad => {
            let joined = roll.joined_behind(Mark::start());
            if let Some(Some(separators)) = joined.map(JoinedBy::separators) {
                return out.fill(
                    "The fields of the roll are separated by {}. Save the roll again with `;` between the fields, and run again.\n",
                    &[Own(separators)],
                );
            }
            if let Some((_, mark)) = roll.find(Mark::start(), has_lines) {
                let _ = put_swallower(out, roll, mark, "");
            }
            "Correct the voter's id, or add it to the roll as the first field of a row"
        }
    };
    let again = match (refused.refuses_script, refused.why) {
        (true, _) => "run again.",
        (false, RowRefusal::NotOnRoll) =>
            "send the request again. (`serve` reads the roll when it starts: start it again if you changed the roll.)",
        (false, _) => "send the request again.",
    };
    out.fill("{}, and {}\n", &[Own(remedy), Own(again)])
}

/// Whether a field of a row has a line end.
fn has_lines(row: &ByteRecord) -> bool {
    (0..row.len()).any(|place| raw_text(row, place).contains('\n'))
}

/// Puts why a row of this voter is refused.
fn put_why(out: &mut WordsWriter, refused: &RefusedRow<'_>, voter: PlaceholderValue<'_>) {
    match refused.why {
        RowRefusal::UnknownId if refused.unknown.contains('"') => {
            out.put(", field places: a quotation mark is beside an id, and is read as part of it.")
        }
        RowRefusal::UnknownId => out.fill(
            ", field places: no project has the id {}.",
            &[Quoted(refused.unknown)],
        ),
        RowRefusal::TooFew => out.fill(
            ", field places: the ballot names too few projects: `--min` asks for at least {}.",
            &[Number(u64::from(refused.least))],
        ),
        RowRefusal::FromFile => out.fill(
            ", field voter: {} is listed in the .pb file, and with `--keep-file-ballots` the desk takes no request for its voters.",
            &[voter],
        ),
        RowRefusal::NoShut => out.put(
            ", field request: with `--no-shut` no request can shut the desk.",
        ),
        RowRefusal::NotOnRoll | RowRefusal::Bad => out.fill(
            ", field voter: {} is not on the roll in the file {}.",
            &[voter, Name(refused.roll)],
        ),
    }
}

/// Words for an id of a project that reads as a position.
pub fn like_a_place_words(alloc: Global, id: &str) -> Said {
    said(
        alloc,
        "Careful: a project has the id {}. But in a request the number {} is a position, and positions count \
        from 0.\nTo write ids in requests, run again with `--by-id`.\n",
        &[Quoted(id), Name(Some(id))],
    )
}

/// Words for a fault of the voters' roll with this path.
pub fn roll_words<R: Files>(rt: &R, alloc: Global, path: &str, fault: RollFault) -> Said {
    let (row, what) = match fault {
        RollFault::ReadFailed(_) if is_folder(rt, path) => {
            return said(alloc, FOLDER, &[Name(Some(path))]);
        }
        RollFault::NoMemory => return said(alloc, "{}{}", &[Name(Some(path)), Own(NO_MEMORY)]),
        RollFault::ReadFailed(row) => (
            row,
            "the roll could not be read to its end.\nCheck the disk or the connection, then run again.\n",
        ),
        RollFault::NotText(row) => (
            row,
            "the row is not UTF-8 text.\nSave the file again with the encoding UTF-8.\n",
        ),
        RollFault::TooManyIds(row) => (
            row,
            "the roll has more than 2,000,000 ids.\nA longer roll can't be used.\n",
        ),
    };
    let row = Number(u64::from(row));
    said(alloc, "{}: row {}: {}", &[Name(Some(path)), row, Own(what)])
}
