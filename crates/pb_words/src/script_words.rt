//! Words for the faults of a script.

use crate::count_words::put_range;
use crate::file_words::{NO_MEMORY, put_reading_failed};
use crate::mark_words::CLOSE_IT;
use crate::meta_words::{BALLOT, TYPED, put_joined};
use crate::prelude::*;
use crate::row_words::{SCRIPT_FIELDS, broken, put_clerk_remedy, put_field_count, put_flaw};
use pb_desk::desk::MOST_CLERKS;
use pb_desk::row_flaw::{Condition, flaw_of_script_row};
use pb_script::ScriptFault;
use pb_seen::fields::{is_of_journal, joined};
use pb_witness::last_rows::LastRows;

/// How a run takes the rows of a script.
#[derive(Clone, Copy)]
pub struct Taking {
    /// How many clerks there are.
    pub clerks: u32,
    /// Whether rows name projects by their ids.
    pub by_id: bool,
}

/// Words for a fault of the script with this path, which a run takes so; no path is standard input.
/// No fault is a run whose number of clerks is not 1 to 64.
pub fn script_words<R: Files>(
    rt: &R,
    alloc: Global,
    path: Option<&str>,
    fault: Option<ScriptFault>,
    taking: Taking,
) -> Said {
    let mut out = WordsWriter::new(alloc);
    match fault {
        Some(fault) if taking.clerks > 0 || !matches!(fault, ScriptFault::BadRow(_)) => {
            put_words(&mut out, &Text::new(rt, alloc, path), fault, taking)
        }
        _ => put_range(&mut out, "clerks", u64::from(taking.clerks), "1 to 64"),
    }
    out.finish()
}

fn put_words<R: Files>(out: &mut WordsWriter, text: &Text<R>, fault: ScriptFault, taking: Taking) {
    let at = u64::from(fault.at());
    let is_put = match fault {
        ScriptFault::ReadFailed(_) => put_reading_failed(out, text, Some(at)),
        ScriptFault::BadRow(_) => put_row(out, text, at, taking.clerks),
        _ => false,
    };
    if !is_put {
        put_record_number(out, text, at);
        out.put(what_and_remedy(fault));
        if let ScriptFault::BadRow(_) = fault {
            out.put(if taking.by_id {
                "A request has the form CLERK;REQUEST;VOTER;PLACES; VOTER is the voter's id. PLACES are ids of projects, with `,` between them.\n"
            } else {
                "A request has the form CLERK;REQUEST;VOTER;PLACES; VOTER is the voter's id. PLACES are positions such as 0,1; for ids, run again with `--by-id`.\n"
            });
        }
    }
}

/// What is wrong and what to do, where no more than the fault is known.
fn what_and_remedy(fault: ScriptFault) -> &'static str {
    match fault {
        ScriptFault::ReadFailed(_) => ": the requests could not be read to their end.
Check the disk or the connection, then run again.\n",
        ScriptFault::BadRow(_) =>
            ": the row is not a valid request, or its clerk's number is too high. \
            Clerks are numbered from 0; without `--clerks` there is only clerk 0.
To see what is wrong, save the script in a file, and name this file in the command.\n",
        ScriptFault::TooManyRows =>
            ": the script has more than 2,000,000 rows.\nA longer script can't be used.\n",
        ScriptFault::NoMemory => NO_MEMORY,
        ScriptFault::UnknownId(_) => ": no project has one of the ids.\n",
        ScriptFault::NotOnRoll(_) => ": the voter is not on the roll.\n",
        ScriptFault::TooFew(_) => ": the ballot has too few projects.\n",
        ScriptFault::FromFile(_) => ": the voter is listed in the .pb file.\n",
        ScriptFault::NoShut(_) => ": no request can shut the desk.\n",
    }
}

/// Reads the script again up to a bad row, and puts which condition it breaks; answers whether it was found.
fn put_row<R: Files>(out: &mut WordsWriter, text: &Text<R>, at: u64, clerks: u32) -> bool {
    let Some(records) = text.records_at(Mark::start(), at) else {
        return false;
    };
    let span = put_mark(out, text, records.mark());
    if put_unclosed(out, span) {
        out.put(CLOSE_IT);
    } else {
        put_row_words(out, &records.last, clerks, false);
        let _ = put_over(out, span, true);
    }
    true
}

/// Words for why the row with this number is none, if it is among those that were read last.
pub fn last_row_words(alloc: Global, rows: &LastRows, number: u64) -> Said {
    let mut out = WordsWriter::new(alloc);
    if let Some(records) = rows.records_to(number) {
        out.fill("standard input: row {}", &[Number(number)]);
        put_row_words(&mut out, &records.last, MOST_CLERKS, true);
    }
    out.finish()
}

/// Puts which condition a row breaks, in a run of so many clerks, and what to do. A row that `serve` reads is
/// not shown how to shut the desk.
fn put_row_words(out: &mut WordsWriter, row: &ByteRecord, clerks: u32, is_served: bool) {
    if is_of_journal(row) {
        return out.put(
            ": this is a row of a journal, not a request.
To check a journal, run `pb_app audit FILE JOURNAL`. To continue its desk, run `pb_app serve FILE JOURNAL`.
",
        );
    }
    if raw_text(row, 0).eq_ignore_ascii_case("META") {
        return out.put(
            " is the heading of a .pb file, not a request.
Name the .pb file first, and then the script: `pb_app desk FILE SCRIPT`. (`pb_app serve` reads the requests from standard input.)
",
        );
    }
    match flaw_of_script_row(row, clerks) {
        Some(flaw) if flaw.condition == Condition::FieldCount => {
            put_field_count(out, row, SCRIPT_FIELDS.len());
            let separate = if is_served { TYPED } else { BALLOT };
            put_joined(
                out,
                joined(row),
                "Write it as CLERK;REQUEST;VOTER;PLACES, with three `;`, and with `,` between projects.\n",
                separate,
            )
        }
        Some(flaw) => {
            let clerks = clerks.min(MOST_CLERKS);
            put_flaw(out, &flaw, SCRIPT_FIELDS, clerks);
            if flaw.condition == Condition::KnownClerk {
                let is_shut = !is_served && raw_text(row, 1) == "shut";
                return put_clerk_remedy(out, is_shut, &flaw, clerks);
            }
            out.fill("{}\n", &[Own(broken(flaw.condition).1)])
        }
        None => out.put(": the row is refused.\n"),
    }
}
