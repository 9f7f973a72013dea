//! Words for a row of a script or of a journal that has not the form of one.

use crate::prelude::*;
use pb_desk::desk::MOST_CLERKS;
use pb_desk::row_flaw::{Condition, RowFlaw};
use pb_seen::fields::number_in;

/// The fields of a script's row.
pub(crate) const SCRIPT_FIELDS: &[&str] = &["clerk", "request", "voter", "places"];

/// The fields of a journal's row.
pub(crate) const JOURNAL_FIELDS: &[&str] = &[
    "number", "clerk", "request", "voter", "places", "answer",
];

/// How a value breaks a condition, and what to do about it in a script, which is the second line of each
/// text.
pub(crate) fn broken(condition: Condition) -> (&'static str, &'static str) {
    let broken = match condition {
        Condition::IsText => " is not UTF-8 text
Save the file again with the encoding UTF-8.",
        Condition::FieldCount => " has another number of fields",
        Condition::Number => " is not a row's number",
        Condition::Clerk => " is not a clerk's number
Write the number in digits, without spaces or leading zeros. If this is a row of column names, delete it: a \
    script has none.",
        Condition::KnownClerk => " is too high: ",
        Condition::Request => " is not a request
Write `cast`, `replace` or `withdraw`, in small letters.",
        Condition::NoVoter => " is given, but a `shut` request has no voter
Leave the field empty.",
        Condition::Voter => " is not a voter's id
Fill in the voter's id.",
        Condition::Trimmed => " begins or ends with a space",
        Condition::NoPlaces => " is given, but only `cast` and `replace` requests name projects
Leave the field empty.",
        Condition::Place => " is not a position
Write the positions of the projects, counted from 0, with `,` between them and no spaces. If these are \
    project ids, run again with `--by-id`.",
        Condition::NoGap => " has a comma too many
Delete it, or write the position that is missing beside it.",
        Condition::Rising => " is not in rising order",
        Condition::Answer => " is not an answer that a desk gives",
    };
    broken.split_once('\n').unwrap_or((broken, ""))
}

/// Puts which condition a row with these fields breaks, in a run of so many clerks.
pub(crate) fn put_flaw(
    out: &mut WordsWriter,
    flaw: &RowFlaw,
    fields: &[&'static str],
    clerks: u32,
) {
    let field = fields.get(flaw.place).copied().unwrap_or("after the last");
    out.fill(
        ", field {}: {}{}",
        &[Own(field), Bytes(flaw.value), Own(broken(flaw.condition).0)],
    );
    if flaw.condition == Condition::KnownClerk {
        put_clerks(out, clerks);
    }
    out.put(".\n")
}

/// Puts so many clerks, with their numbers.
fn put_clerks(out: &mut WordsWriter, clerks: u32) {
    let form = match clerks {
        1 => "this run has {}, with the number {}",
        MOST_CLERKS => "a desk has at most {}, with the numbers {}",
        _ => "this run has {}, with the numbers {}",
    };
    let count = u64::from(clerks);
    out.fill(form, &[Count(count, "clerk"), Numbers(count)])
}

/// Puts what to do about a clerk's number that is too high, in a run of so many clerks.
pub(crate) fn put_clerk_remedy(out: &mut WordsWriter, is_shut: bool, flaw: &RowFlaw, clerks: u32) {
    out.put(if clerks == 1 {
        "Write 0"
    } else {
        "Write one of these numbers"
    });
    let number = number_in(flaw.value).unwrap_or(MOST_CLERKS);
    if is_shut {
        out.put(
            ". If several clerks should work, give their number with `--clerks`, delete this row, and shut the desk with `--shut`",
        )
    } else if clerks < MOST_CLERKS && number < MOST_CLERKS {
        out.fill(
            ", or run again with `--clerks {}`",
            &[Number(u64::from(number) + 1)],
        );
    }
    out.put(".\n")
}

/// Puts how many fields a row has, and how many it needs.
pub(crate) fn put_field_count(out: &mut WordsWriter, row: &ByteRecord, needed: usize) {
    out.fill(
        ": the row has {}, but it needs {}.\n",
        &[Count(row.len() as u64, "field"), Number(needed as u64)],
    )
}
