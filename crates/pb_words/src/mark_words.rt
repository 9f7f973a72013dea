//! Where a record stands in its text, in words.

use crate::prelude::*;
use pb_witness::quote::{Span, span_of};

/// What to do about it.
pub(crate) const CLOSE_IT: &str =
    "Delete it, or write a second quotation mark where the text should end. If the text itself has quotation marks, write each of them twice, and put the whole text in quotation marks: `\"Playground \"\"Otter\"\"\"`.\n";

/// Puts where a record stands that was not read again: `standard input: row 32`.
pub fn put_record_number<R>(out: &mut WordsWriter, text: &Text<R>, at: u64) {
    out.fill("{}: row {}", &[Name(text.path), Number(at)])
}

/// Puts where a record begins: `city.pb: line 39`; answers what its bytes say.
pub fn put_mark<R: Files>(out: &mut WordsWriter, text: &Text<R>, mark: Mark) -> Span {
    let span = span_of(text, mark);
    out.fill("{}: line {}", &[Name(text.path), Number(span.begins)]);
    span
}

/// The line at which a record begins.
pub fn line_of<R: Files>(text: &Text<R>, mark: Mark) -> u64 {
    span_of(text, mark).begins
}

/// Puts whose row it is, where it has an id: `, project "p7"`.
pub fn put_subject(out: &mut WordsWriter, subject: &str, id: &str) {
    if !id.is_empty() {
        out.fill(", {} {}", &[Own(subject), Quoted(id)]);
    }
}

/// Puts that a quotation mark opens on a line of the record whose line was put.
fn put_opening(out: &mut WordsWriter, span: Span, opens: u64) {
    if opens == span.begins {
        out.put(": a quotation mark opens here")
    } else {
        out.fill(": a quotation mark opens on line {}", &[Number(opens)])
    }
}

/// Puts that a quotation mark in the record whose line was put is never closed, if so, and answers whether it
/// is.
pub(crate) fn put_unclosed(out: &mut WordsWriter, span: Span) -> bool {
    let Some(opens) = span.unclosed() else {
        return false;
    };
    put_opening(out, span, opens);
    out.put(" and is never closed, so the rest of the file is read as one field.\n");
    true
}

/// Puts that a quotation mark makes several lines one field, if one does, of the record whose line was put,
/// or as a sentence of its own; answers whether one does.
pub(crate) fn put_over(out: &mut WordsWriter, span: Span, is_sentence: bool) -> bool {
    let Some((opens, closes)) = span.over else {
        return false;
    };
    if is_sentence {
        out.fill("A quotation mark opens on line {}", &[Number(opens)]);
    } else {
        put_opening(out, span, opens);
    }
    out.fill(
        " and is closed on line {}, so these lines are read as one field.\n",
        &[Number(closes)],
    );
    let form = if span.is_single {
        "If each line should be a row of its own, delete the quotation mark on line {} and the one on line {}. If such a mark stands for the text above it, write that text in its place.\n"
    } else {
        "If each line should be a row of its own, line {} has one quotation mark too many, or one too few. Then its field may have lost its end: look at the original. The quotation marks on line {} may be right.\n"
    };
    out.fill(form, &[Number(opens), Number(closes)]);
    true
}

/// Puts which quotation mark makes several lines one field in the record with this mark, with this text behind its
/// line, where one does; answers whether one does.
pub fn put_swallower<R: Files>(
    out: &mut WordsWriter,
    text: &Text<R>,
    mark: Mark,
    behind: &str,
) -> bool {
    let span = span_of(text, mark);
    if span.unclosed().is_none() && span.over.is_none() {
        return false;
    }
    let _ = put_mark(out, text, mark);
    out.put(behind);
    if put_unclosed(out, span) {
        out.put(CLOSE_IT);
        return true;
    }
    put_over(out, span, false)
}

/// Puts the same of an earlier row that swallowed rows which are missed now, if there is one; answers whether
/// it did.
pub(crate) fn put_swallowing<R: Files>(
    out: &mut WordsWriter,
    text: &Text<R>,
    row: Option<Mark>,
) -> bool {
    row.is_some_and(|mark| put_over(out, span_of(text, mark), true))
}
