//! Words for the answer to a request that was typed with ids of projects.

use crate::prelude::*;
use pb_core::answer::Answer;
use pb_core::row_words::{CAST, REPLACE, SHUT};
use pb_witness::last_rows::LastRows;

/// Words for the answer to the row with this number, from 1, of standard input. They name its voter and its
/// projects, if the row is among those that were read last.
pub fn answer_words(alloc: Global, rows: &LastRows, number: u64, answer: Answer) -> Said {
    let mut out = WordsWriter::new(alloc);
    out.fill("standard input: row {}", &[Number(number)]);
    if let Some(records) = rows.records_to(number) {
        put_request(&mut out, &records.last);
    }
    put_answer(&mut out, answer);
    out.finish()
}

/// Puts what a row asks. The desk has admitted it, so its request is one of the four words.
fn put_request(out: &mut WordsWriter, row: &ByteRecord) {
    let request = raw_text(row, 1);
    if request == SHUT {
        return out.put(", shut");
    }
    let voter = Quoted(text_at(row, 2));
    out.fill(", {} for voter {}", &[Own(request), voter]);
    if request == CAST || request == REPLACE {
        put_projects(out, raw_text(row, 3))
    }
}

/// Puts the ids of projects that a ballot names, as they were typed.
fn put_projects(out: &mut WordsWriter, ids: &str) {
    let count = ids.split(',').filter(|id| !id.trim().is_empty()).count();
    let first = match count {
        0 => return out.put(" (no project)"),
        1 => " (project ",
        _ => " (projects ",
    };
    let mut is_first = true;
    for id in ids.split(',').filter(|id| !id.trim().is_empty()) {
        let before = if is_first { first } else { ", " };
        out.fill("{}{}", &[Own(before), Quoted(id.trim())]);
        is_first = false;
    }
    out.put(")")
}

/// Puts whether a request was carried out, and why it was not.
fn put_answer(out: &mut WordsWriter, answer: Answer) {
    let why = match answer {
        Answer::Done => return out.put(": carried out.\n"),
        Answer::UnknownPlace(place) => {
            let form = ": not carried out, because no project has the position {}.\n";
            return out.fill(form, &[Number(u64::from(place))]);
        }
        Answer::DeskShut => "the desk is shut",
        Answer::AlreadyCast => "the voter has a ballot already",
        Answer::NoBallot => "the voter has no ballot",
        Answer::VoterLimit => "the desk has 1,000,000 ballots",
        Answer::TooLong => "the ballot names more projects than the .pb file allows",
    };
    out.fill(": not carried out, because {}.\n", &[Own(why)])
}
