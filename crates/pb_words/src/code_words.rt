//! What is said of columns of projects that have two numbers, of which neither is sure to mean yes.

use crate::prelude::*;
use pb_seen::ids::Ids;

impl<R: Files> Case<'_, R> {
    /// Puts which two numbers the columns of projects have below these column names, if they have no other text, and these
    /// are not 0 and 1.
    pub(crate) fn put_codes(&self, out: &mut WordsWriter, header: Mark) {
        let (text, ids) = (self.text, &self.known.witness.ids);
        let Some(names) = text.row_at(header).filter(|names| ids.are_columns(names)) else {
            return;
        };
        let next = |known: [&str; 2]| {
            text.find(header, |row| !other_in(row, &names, ids, known).is_empty())
        };
        let Some((row, _)) = next(["", ""]) else {
            return;
        };
        let one = other_in(&row, &names, ids, ["", ""]);
        let Some((row, _)) = next([one, one]) else {
            return;
        };
        let other = other_in(&row, &names, ids, [one, one]);
        let are_codes = is_digit(one) && is_digit(other) && next([one, other]).is_none();
        if are_codes && !(matches!(one, "0" | "1") && matches!(other, "0" | "1")) {
            out.fill(
                "First find out which of {} and {} means yes.\n",
                &[Own(one), Own(other)],
            )
        }
    }
}

/// The first text in a column of a project that is none of these; the empty text if there is none.
fn other_in<'r>(row: &'r ByteRecord, names: &ByteRecord, ids: &Ids, known: [&str; 2]) -> &'r str {
    let texts = (0..names.len())
        .filter(|place| ids.projects.has(text_at(names, *place)))
        .map(|place| text_at(row, place));
    let mut others = texts.filter(|text| !text.is_empty() && !known.contains(text));
    others.next().unwrap_or("")
}

/// Whether a text is one digit.
fn is_digit(text: &str) -> bool {
    matches!(text.as_bytes(), [b'0'..=b'9'])
}
