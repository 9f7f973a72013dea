//! Words for the faults of a journal.

use crate::file_words::{NO_MEMORY, put_reading_failed};
use crate::prelude::*;
use crate::row_words::{JOURNAL_FIELDS, put_field_count, put_flaw};
use pb_core::answer::Answer;
use pb_core::row_words::{
    ALREADY_CAST, CAST, DESK_SHUT, NO_BALLOT, REPLACE, TOO_LONG, VOTER_LIMIT, WITHDRAW,
};
use pb_desk::AuditFault;
use pb_desk::desk::MOST_CLERKS;
use pb_desk::row_flaw::{Condition, flaw_of_journal_row};
use pb_script::ROOM;
use pb_witness::audited::{AuditPaths, Audited};
use pb_witness::desk_answer::DeskAnswer;

/// What is said of a row whose number is not the next one.
const MISPLACED: &str = "A row is missing, repeated or in the wrong order.";

const INCOMPLETE: &str =
    "If the power failed or the disk was full, run `pb_app serve` first: it cuts off what follows an empty line. \
    If not, the journal is not as the desk wrote it.";

/// Words for a fault of a journal that was audited on a .pb file.
pub fn journal_words<R: Files>(
    rt: &R,
    alloc: Global,
    paths: AuditPaths<'_>,
    fault: AuditFault,
) -> Said {
    let mut out = WordsWriter::new(alloc);
    put_words(&mut out, &Audited::new(rt, alloc, paths, fault));
    out.finish()
}

fn put_words<R: Files>(out: &mut WordsWriter, audited: &Audited<R>) {
    let is_put = match audited.fault {
        AuditFault::ReadFailed(_) => put_reading_failed(out, &audited.journal, Some(audited.at)),
        _ => put_found(out, audited),
    };
    if !is_put {
        put_record_number(out, &audited.journal, audited.at);
        put_fault(out, audited);
    }
}

/// Puts this sentence, and where to get a journal that is right.
fn put_get<R>(out: &mut WordsWriter, audited: &Audited<R>, why: &str) {
    out.put(why);
    out.put(if audited.is_served {
        " `pb_app serve` did not change the journal. Get last evening's copy, and compare the two.\n"
    } else {
        " Get the journal from the desk's machine, or last evening's copy.\n"
    })
}

/// Puts what to do about a wrong answer.
fn put_other_answer<R>(out: &mut WordsWriter, audited: &Audited<R>) {
    out.fill(
        "Check that {} is the .pb file with which the desk was opened. If it is, this row was changed, or a row above it was changed or deleted.",
        &[Name(audited.file.path)],
    );
    put_get(out, audited, "")
}

/// Puts what is wrong and what to do, where no more than the fault is known.
fn put_fault<R>(out: &mut WordsWriter, audited: &Audited<R>) {
    match audited.fault {
        AuditFault::ReadFailed(_) => out.put(
            ": the journal could not be read to its end.\nCheck the disk or the connection, then run again.\n",
        ),
        AuditFault::BadRow(_) => put_get(
            out,
            audited,
            ": the row is not a journal's row.\nCheck that this is the journal. If it is, it is not as the desk wrote it.",
        ),
        AuditFault::WrongNumber(row) => {
            out.fill(
                ": the row should have the number {}, but it has another.\n",
                &[Number(row)],
            );
            put_get(out, audited, MISPLACED)
        }
        AuditFault::JournalFull(_) => out.put(
            ": the journal has more rows than a desk of this program can write.\nIt is not from this program.\n",
        ),
        AuditFault::WrongAnswer(_) => {
            out.put(": the answer in the journal is wrong; the desk would have given another.\n");
            put_other_answer(out, audited)
        }
        AuditFault::NoMemory => out.put(NO_MEMORY),
    }
}

/// Looks at the faulty row again, and puts what is wrong there; answers whether it was found.
fn put_found<R: Files>(out: &mut WordsWriter, audited: &Audited<R>) -> bool {
    if let Some(desk) = audited.answer(ROOM) {
        let _ = put_mark(out, &audited.journal, desk.mark);
        put_wrong_answer(out, &desk.row, Some(&desk));
        put_other_answer(out, audited);
        return true;
    }
    let Some(records) = audited.records() else {
        return false;
    };
    put_row(out, audited, &records.last, records.mark());
    true
}

fn put_row<R: Files>(out: &mut WordsWriter, audited: &Audited<R>, row: &ByteRecord, mark: Mark) {
    let span = put_mark(out, &audited.journal, mark);
    match audited.fault {
        AuditFault::BadRow(0) => {
            out.fill(
                ": this program can't read journals of version {}; the first line should be `journal;2`.\n",
                &[Bytes(bytes_at(row, 1))],
            );
            put_get(
                out,
                audited,
                "If a newer pb_app wrote the journal, use that program. If not, the journal is not as the desk wrote it.",
            )
        }
        AuditFault::BadRow(_) => {
            if !put_unclosed(out, span) {
                put_bad_row(out, row);
            }
            put_bad_remedy(out, audited, mark)
        }
        AuditFault::WrongNumber(at) => {
            out.fill(
                ", field number: this row has the number {}, but it should have {}.\n",
                &[Bytes(bytes_at(row, 0)), Number(at)],
            );
            let is_torn = !audited.is_served && audited.has_gap_before(mark);
            put_get(out, audited, if is_torn { INCOMPLETE } else { MISPLACED })
        }
        AuditFault::WrongAnswer(_) => {
            put_wrong_answer(out, row, None);
            put_other_answer(out, audited)
        }
        _ => put_fault(out, audited),
    }
}

/// Puts what to do about a bad row: a text whose first row is one, and that does not begin as journals do,
/// may be another file.
fn put_bad_remedy<R: Files>(out: &mut WordsWriter, audited: &Audited<R>, mark: Mark) {
    if audited.at == 1 && audited.journal.before == 0 {
        out.fill(
            "Check that {} is the journal. (The .pb file comes first in the command, then the journal.) If it is the journal, it is not as the desk wrote it.",
            &[Name(audited.journal.path)],
        );
        put_get(out, audited, "")
    } else if !audited.is_served && audited.has_gap_before(mark) {
        put_get(out, audited, INCOMPLETE)
    } else {
        put_get(out, audited, "The journal is not as the desk wrote it.")
    }
}

/// Puts which condition a row breaks.
fn put_bad_row(out: &mut WordsWriter, row: &ByteRecord) {
    match flaw_of_journal_row(row) {
        Some(flaw) if flaw.condition == Condition::FieldCount => {
            put_field_count(out, row, JOURNAL_FIELDS.len())
        }
        Some(flaw) => put_flaw(out, &flaw, JOURNAL_FIELDS, MOST_CLERKS),
        None => out.put(": the row is refused.\n"),
    }
}

/// Puts what the row says, and what the desk answers there, if that is known.
fn put_wrong_answer(out: &mut WordsWriter, row: &ByteRecord, desk: Option<&DeskAnswer>) {
    put_subject(out, "voter", raw_text(row, 3));
    out.fill(
        ", request {}: the journal says {}",
        &[Bytes(bytes_at(row, 2)), Bytes(bytes_at(row, 5))],
    );
    match desk {
        Some(desk) => put_answer(out, desk, raw_text(row, 2), raw_text(row, 5)),
        None => out.put(", but the right answer is another one.\n"),
    }
}

/// Puts the answer to this request, and why it is given and not the one that the journal says.
fn put_answer(out: &mut WordsWriter, desk: &DeskAnswer, request: &str, said: &str) {
    match desk.answer {
        Answer::UnknownPlace(place) => put_unknown(out, u64::from(place), desk.projects),
        Answer::TooLong => out.fill(
            ", but the right answer is `too-long`, because `max_length` is {}.\n",
            &[Number(desk.most)],
        ),
        Answer::DeskShut => put_plain(out, DESK_SHUT, "the desk was shut before"),
        Answer::AlreadyCast => put_plain(out, ALREADY_CAST, "the voter has a ballot"),
        Answer::NoBallot => put_plain(out, NO_BALLOT, "the voter has no ballot"),
        Answer::VoterLimit => put_plain(out, VOTER_LIMIT, "the desk has 1,000,000 ballots"),
        Answer::Done => {
            out.put(", but the right answer is `done`, because ");
            if said == TOO_LONG && desk.is_unlimited {
                out.put(
                    "this journal sets no limit on a ballot's length (its first line is not `journal;2`), and ",
                );
            }
            out.put(why_done(request));
            if said == TOO_LONG && !desk.is_unlimited {
                put_short_enough(out, desk);
            }
            out.put(".\n")
        }
    }
}

/// Puts that no project has this position, and which positions the projects have.
fn put_unknown(out: &mut WordsWriter, place: u64, projects: u64) {
    out.fill(
        ", but the right answer is `unknown-place {}`, because no project has the position {}: the file has ",
        &[Number(place), Number(place)],
    );
    let form = match projects {
        0 => "no projects.\n",
        1 => "{}, at position {}.\n",
        _ => "{}, at positions {}.\n",
    };
    out.fill(form, &[Count(projects, "project"), Numbers(projects)])
}

/// Puts that the ballot of a row is not too long, and why.
fn put_short_enough(out: &mut WordsWriter, desk: &DeskAnswer) {
    let count = match raw_text(&desk.row, 4) {
        "" => 0,
        places => places.split(',').count() as u64,
    };
    let verb = if count == 1 { "is" } else { "are" };
    out.fill(
        ", and {} {} not too many: ",
        &[Count(count, "project"), Own(verb)],
    );
    if desk.most == u64::from(u32::MAX) {
        out.put("the file sets no `max_length`")
    } else {
        out.fill("`max_length` is {}", &[Number(desk.most)])
    }
}

fn put_plain(out: &mut WordsWriter, answer: &'static str, why: &'static str) {
    out.fill(
        ", but the right answer is `{}`, because {}.\n",
        &[Own(answer), Own(why)],
    )
}

/// Why a request is carried out.
fn why_done(request: &str) -> &'static str {
    match request {
        CAST => "the voter has no ballot",
        REPLACE | WITHDRAW => "the voter has a ballot",
        _ => "the desk is open",
    }
}
