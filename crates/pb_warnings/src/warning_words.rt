//! Words for warnings: where, what, and what to do.

use crate::prelude::*;
use crate::warning_texts::{BESIDE_DECIMALS, forms_of};
use pb_core::money::Money;
use pb_oddities::oddities::{MOST, Subject};
use pb_oddities::unread::{IS_NOT_READ, SETS_LIMIT};
use pb_rounds::options::Completion;
use pb_rounds::rule::Rule;
use pb_seen::changed::is_one_of;
use pb_seen::firsts::twice_in;
use pb_witness::quote::span_of;
use pb_witness::text::Text;
use pb_words::PlaceholderValue::{Amount, Count, Name, Number, Own, Quoted};
use pb_words::mark_words::{line_of, put_mark, put_record_number, put_subject, put_swallower};
use pb_words::read_texts::{NOTE, OWN_ROWS};
use pb_words::row_causes::{OF_MARKS, cut_cause, is_of_marks};
use pb_words::{Said, WordsWriter};
use std::rt::Files;

/// What is said behind the line of rows that a quotation mark made one.
const NAMED: &str = " (SwallowedRows)";

/// What META writes that names no rule.
const NO_RULE: &str = "unknown|-";

/// What META writes that names no other rule than that of any count by equal shares.
const NO_OTHER_RULE: &str = "unknown|-|mes|method of equal shares";

/// What is said, beside the remedy for one vote, where several name a project twice.
const MANY_TWICE: &str =
    " Several votes are so, and all votes for one project may have become votes for another: compare others with the ballots too. If these differ, get all votes again.\n";

/// What to do about columns and keys that no count reads.
const NOT_READ: &str =
    "This is usual. Just make sure that none of them says that a row does not count or replaces another one, that ballots are missing, that projects exclude each other, or that a cost or the budget is different.\n";

/// What is said of a row that is odd: what, with what is known of the row; the same where the row is not
/// known; and what to do.
fn said_of(odd: &Odd) -> (&'static str, &'static str, &'static str) {
    let said = forms_of(odd.oddity).get(odd.form).copied().unwrap_or("");
    let (what, remedy) = said.rsplit_once('\n').unwrap_or((said, ""));
    let (what, alone) = what.split_once('\n').unwrap_or((what, what));
    (what, alone, remedy)
}

/// Words for the warnings that were found in the file with this path, by their names; no path is standard
/// input.
pub fn warning_words<R: Files>(
    rt: &R,
    alloc: Global,
    path: Option<&str>,
    found: Option<&Oddities>,
) -> Said {
    let mut out = WordsWriter::new(alloc);
    if let Some(oddities) = found {
        put_oddities(&mut out, &Text::new(rt, alloc, path), oddities);
    }
    out.finish()
}

/// Words for a rule that META names and that is not the one of this count; no path is standard input.
pub fn rule_words<R: Files>(
    rt: &R,
    alloc: Global,
    path: Option<&str>,
    named: (&str, Mark),
    counted: &Rule,
) -> Said {
    let mut out = WordsWriter::new(alloc);
    let (rule, mark) = named;
    let none_other = match counted.options.completion {
        Completion::Plain | Completion::Add1 => NO_OTHER_RULE,
        Completion::NoShares => NO_RULE,
    };
    let is_other = !is_one_of(none_other, rule);
    if is_other && !rule.eq_ignore_ascii_case(counted.word()) {
        let text = Text::new(rt, alloc, path);
        if text.is_file() {
            let _ = put_mark(&mut out, &text, mark);
        } else {
            put_record_number(&mut out, &text, mark.at);
        }
        match counted.text(alloc) {
            Ok(own) => out.fill(
                ", key \"rule\": the file names the rule {}, and this count has {} ({}).
That rule may give a different result.\n",
                &[Quoted(rule), Quoted(counted.word()), Own(own.as_str())],
            ),
            Err(_) => out.fail(),
        }
    }
    out.finish()
}

/// Puts what is said of each warning, by their names.
fn put_oddities<R: Files>(out: &mut WordsWriter, text: &Text<R>, oddities: &Oddities) {
    if !oddities.is_whole() {
        return out.fail();
    }
    for oddity in oddities.kinds.iter().copied() {
        match oddity {
            Oddity::NoSupporter if oddities.has(oddity) && oddities.has_no_votes => {
                out.fill(
                    "{}: VOTES has no rows, so no project has a supporter (NoSupporter).
A desk can open on this file. If it should have votes, get the whole file again.\n",
                    &[Name(text.path)],
                );
                continue;
            }
            Oddity::VotesOf if oddities.has_no_votes => continue,
            _ => {}
        }
        let mut told = None;
        let mut told_cause = None;
        for odd in oddities.found() {
            if odd.oddity == oddity {
                let cause = cause_of(oddities, odd);
                let is_again = told == Some(odd.form) && told_cause == cause;
                put_odd(out, text, odd, oddities, is_again);
                told = Some(odd.form);
                told_cause = cause;
            }
        }
        let more = oddities.more(oddity);
        if more > 0 {
            put_more(out, oddity, more, oddities.is_of_check());
        }
    }
    put_unread(out, text, oddities);
}

/// Puts how many more there are of a kind, which a check does not list, or a count does not tell.
fn put_more(out: &mut WordsWriter, oddity: Oddity, more: u64, is_of_check: bool) {
    let is_of_columns = matches!(
        oddity,
        Oddity::IdBehindVote
            | Oddity::ValidColumn
            | Oddity::RepeatedColumn
            | Oddity::VotesWithPoints
            | Oddity::SeveralBallots
    );
    let unit = if is_of_columns {
        "more column"
    } else {
        "more row"
    };
    out.fill("{} applies to {}", &[Own(oddity.name()), Count(more, unit)]);
    let form = match more {
        _ if is_of_check => ", not listed here.\n",
        1 => "; `pb_app check` lists it.\n",
        _ if more < MOST => "; `pb_app check` lists them.\n",
        _ => "; `pb_app check` lists the first {}.\n",
    };
    out.fill(form, &[Number(MOST)]);
}

/// Puts what is said of an odd record; what to do not again where the record before it was odd alike.
fn put_odd<R: Files>(
    out: &mut WordsWriter,
    text: &Text<R>,
    odd: &Odd,
    oddities: &Oddities,
    is_again: bool,
) {
    if odd.oddity == Oddity::SwallowedRows && put_swallower(out, text, odd.mark, NAMED) {
        return;
    }
    let (what, alone, _) = said_of(odd);
    let row = text.row_at(odd.mark);
    match &row {
        Some(row) => {
            let _ = put_mark(out, text, odd.mark);
            put_subject(out, odd.subject.word(), text_at(row, odd.id_place))
        }
        None => put_record_number(out, text, odd.mark.at),
    }
    out.put(": ");
    let form = if row.is_some() { what } else { alone };
    put_text(out, text, odd, (form, row.as_ref()));
    out.fill(" ({}).\n", &[Own(odd.oddity.name())]);
    match row.and_then(|row| row_remedy(text, odd, &row)) {
        Some(OF_MARKS) if is_again => {}
        Some(words) => out.put(words),
        None if is_again => {}
        None => put_odd_remedy(out, text, odd, oddities),
    }
}

/// What to do about an odd record, if its row shows that.
fn row_remedy<R: Files>(text: &Text<R>, odd: &Odd, row: &ByteRecord) -> Option<&'static str> {
    match odd.oddity {
        Oddity::CutName | Oddity::SurplusFields if odd.number > 0 => {
            cut_cause(row, span_of(text, odd.mark))
        }
        Oddity::TwiceInVote if is_of_marks(text_at(row, odd.value_place)) => Some(OF_MARKS),
        _ => None,
    }
}

/// Puts what to do about an odd record.
fn put_odd_remedy<R: Files>(out: &mut WordsWriter, text: &Text<R>, odd: &Odd, oddities: &Oddities) {
    let is_length = is_of_length(odd);
    match (cause_of(oddities, odd), odd.oddity) {
        (Some(cause), kind) if is_length || kind == Oddity::EmptyBallot => out.fill(
            "Look at the warning {} first: it may be the reason. Don't delete the row before that.\n",
            &[Own(cause.name())],
        ),
        (Some(cause), _) => out.fill(
            "Look at the warning {} first: it may be the reason. Don't correct the number before that.\n",
            &[Own(cause.name())],
        ),
        _ if is_length && put_all_break(out, odd, oddities) => {}
        (None, Oddity::ThousandsMark) if oddities.has_decimals && odd.form == 0 => out.put(
            BESIDE_DECIMALS,
        ),
        _ => {
            put_text(out, text, odd, (said_of(odd).2, None));
            let is_twice = odd.oddity == Oddity::TwiceInVote && odd.form == 0;
            let are_many = is_twice && oddities.count(odd.oddity) > 1;
            out.put(if are_many { MANY_TWICE } else { "\n" });
        }
    }
}

/// Puts what is said of texts that no count reads: of unusual columns and keys a list for each section.
fn put_unread<R: Files>(out: &mut WordsWriter, text: &Text<R>, oddities: &Oddities) {
    let unread = oddities.unread.as_slice();
    for odd in unread.iter().filter(|odd| !is_only_unread(odd)) {
        put_unread_key(out, text, odd);
    }
    put_not_read(out, text, unread, (Subject::Key, "keys of META"));
    put_not_read(out, text, unread, (Subject::Project, "columns of PROJECTS"));
    put_not_read(out, text, unread, (Subject::Voter, "columns of VOTES"));
    if unread.iter().any(is_only_unread) {
        out.put(NOT_READ);
    }
}

/// Whether nothing more is known of an odd text than that no count reads it.
fn is_only_unread(odd: &Odd) -> bool {
    odd.names.is_some() || odd.form == IS_NOT_READ
}

/// Puts those of a section that no count reads, each with its text, or its first text, if there are any.
fn put_not_read<R: Files>(
    out: &mut WordsWriter,
    text: &Text<R>,
    unread: &[Odd],
    (subject, called): (Subject, &str),
) {
    let is_it = |odd: &Odd| odd.subject == subject && is_only_unread(odd);
    let mut is_first = true;
    for odd in unread.iter().filter(|odd| is_it(odd)) {
        if is_first {
            out.fill(
                "{}: no count reads these {}: ",
                &[Name(text.path), Own(called)],
            );
        } else {
            out.put("; ");
        }
        put_not_read_one(out, text, odd);
        is_first = false;
    }
    if !is_first {
        out.put(".\n");
    }
}

/// Puts a column or a key that no count reads, with its text, if the row can be read again.
fn put_not_read_one<R: Files>(out: &mut WordsWriter, text: &Text<R>, odd: &Odd) {
    let row = text.row_at(odd.mark);
    let key = row.as_ref().map_or("", |row| text_at(row, odd.id_place));
    match odd.names {
        Some(_) => put_column_name(out, text, odd),
        None if row.is_none() => out.fill("row {}", &[Number(odd.mark.at)]),
        None => out.fill("{}", &[Quoted(key)]),
    }
    if let Some(row) = row {
        let value = text_at(&row, odd.value_place);
        let line = line_of(text, odd.mark);
        out.fill(", with {} on line {}", &[Quoted(value), Number(line)])
    }
}

/// Puts what is said of a key whose value no count reads.
fn put_unread_key<R: Files>(out: &mut WordsWriter, text: &Text<R>, odd: &Odd) {
    let row = text.row_at(odd.mark);
    match row {
        Some(_) => drop(put_mark(out, text, odd.mark)),
        None => put_record_number(out, text, odd.mark.at),
    }
    let value = row.as_ref().map_or("", |row| text_at(row, odd.value_place));
    let key = row.as_ref().map_or("", |row| text_at(row, odd.id_place));
    let form = if odd.form == SETS_LIMIT {
        ", key {}: {} sets a limit, which no count uses.\nIf your rules have it, see whether the result keeps it.\n"
    } else {
        ", key {}: {} names a project or a voter, and the program does not read it.\nLook whether it says that something does not count.\n"
    };
    out.fill(form, &[Quoted(key), Quoted(value)])
}

/// Whether a ballot is odd for how many projects it names.
fn is_of_length(odd: &Odd) -> bool {
    odd.form == 0 && matches!(odd.oddity, Oddity::TooLongBallot | Oddity::TooShortBallot)
}

/// Puts that all ballots, or nearly all, have too many projects or too few, or that no ballot can have as
/// many as both keys ask for, where it is so; answers whether it is.
fn put_all_break(out: &mut WordsWriter, odd: &Odd, oddities: &Oddities) -> bool {
    let count = oddities.count(odd.oddity).saturating_sub(oddities.costly);
    let voters = oddities.voters;
    let are_nearly_all = count.saturating_mul(10) >= voters.saturating_mul(9);
    let is_long = odd.oddity == Oddity::TooLongBallot;
    let who = if count == voters { "All" } else { "Nearly all" };
    let key = if is_long { "max_length" } else { "min_length" };
    let is_so = voters > 1 && (oddities.has_no_length || are_nearly_all);
    let form = if oddities.has_no_length {
        "`min_length` is more than `max_length`, so no ballot keeps both: check these keys.\n"
    } else {
        "{} ballots break `{}` {}: check the key.\n"
    };
    if is_so {
        out.fill(form, &[Own(who), Own(key), Number(odd.limit.unwrap_or(0))]);
    }
    is_so
}

/// The warning that says what an empty ballot may be in place of one.
fn cause_of_none(oddities: &Oddities, odd: &Odd) -> Option<Oddity> {
    let is_it = |other: &Odd| match other.oddity {
        Oddity::FooterRow => other.mark.at == odd.mark.at,
        Oddity::NoteRows => other.mark.at <= odd.mark.at,
        // Then the votes seem to stand elsewhere, or nowhere.
        Oddity::VotesMissing => matches!(other.form, 5..=7),
        _ => false,
    };
    let mut found = oddities.found().iter();
    Some(found.find(|other| is_it(other))?.oddity)
}

/// The warning that may be the reason why the file has another number of votes than it says.
fn cause_of(oddities: &Oddities, odd: &Odd) -> Option<Oddity> {
    let are_few = odd.limit.unwrap_or(0) > odd.number;
    let has_rows = oddities.has(Oddity::SwallowedRows);
    let has_ids = oddities.has(Oddity::IdBehindVote);
    let has_thousands = oddities.has(Oddity::ThousandsMark);
    let are_beside = oddities.count(Oddity::RepeatedColumn) > 1;
    match odd.oddity {
        Oddity::EmptyBallot if odd.form == 0 => cause_of_none(oddities, odd),
        Oddity::TooLongBallot | Oddity::TooShortBallot if odd.form > 0 => None,
        Oddity::TooLongBallot | Oddity::TooShortBallot if has_rows => {
            Some(Oddity::SwallowedRows)
        }
        Oddity::TooShortBallot if has_ids => Some(Oddity::IdBehindVote),
        Oddity::VotesMissing if has_rows && are_few => Some(Oddity::SwallowedRows),
        Oddity::VotesMissing if are_beside && are_few => Some(Oddity::RepeatedColumn),
        Oddity::OverBudget if has_thousands => Some(Oddity::ThousandsMark),
        Oddity::VotesOf if odd.form > 0 => None,
        Oddity::VotesOf if has_rows => Some(Oddity::SwallowedRows),
        Oddity::VotesOf if has_ids => Some(Oddity::IdBehindVote),
        _ => None,
    }
}

/// Puts a text on an odd row, with what is known of it, or of the row if it could be read again, in place of
/// each name in braces.
fn put_text<R: Files>(
    out: &mut WordsWriter,
    text: &Text<R>,
    odd: &Odd,
    (form, row): (&str, Option<&ByteRecord>),
) {
    let value = row.map_or("", |row| text_at(row, odd.value_place));
    let fields = row.map_or(0, |row| row.len() as u64);
    let line = line_of(text, odd.before.unwrap_or(odd.mark));
    for (place, piece) in form.split('{').enumerate() {
        match piece.split_once('}') {
            Some((name, rest)) if place > 0 => {
                match name {
                    "column" => put_column_name(out, text, odd),
                    "fields" => out.fill("{}", &[Number(fields)]),
                    "beyond" => out.fill("{}", &[Quoted(beyond_of(odd, row))]),
                    "line" => out.fill("{}", &[Number(line)]),
                    "note" => out.put(NOTE),
                    "own_rows" => out.put(OWN_ROWS),
                    "kind" if odd.oddity == Oddity::VotesMissing => out.put("vote"),
                    "kind" => out.put("project"),
                    "file" if text.path.is_none() => out.put("FILE"),
                    "file" => out.fill("{}", &[Name(text.path)]),
                    "twice" => {
                        let twice = twice_in(text.alloc, value);
                        out.fill("{}", &[Quoted(twice)])
                    }
                    name => put_figure(out, name, odd, value),
                }
                out.put(rest)
            }
            _ => out.put(piece),
        }
    }
}

/// The first text of a row behind its columns, whose number the odd row is measured by.
fn beyond_of<'r>(odd: &Odd, row: Option<&'r ByteRecord>) -> &'r str {
    let Some(row) = row else {
        return "";
    };
    let names = usize::try_from(odd.number).unwrap_or(usize::MAX);
    let mut texts = (names..row.len()).map(|place| text_at(row, place));
    texts.find(|text| !text.is_empty()).unwrap_or("")
}

/// Puts the name of the column that an odd row is spoken of for, or its number.
fn put_column_name<R: Files>(out: &mut WordsWriter, text: &Text<R>, odd: &Odd) {
    let number = (odd.value_place as u64).saturating_add(1);
    let Some(names) = odd.names.and_then(|mark| text.row_at(mark)) else {
        return out.fill("{}", &[Number(number)]);
    };
    match text_at(&names, odd.value_place) {
        "" => out.fill("{}", &[Number(number)]),
        name => out.fill("{}", &[Quoted(name)]),
    }
    drop(names)
}

/// Puts what is known of an odd row, by what it is called in a text; `value` is the field that is odd.
fn put_figure(out: &mut WordsWriter, name: &str, odd: &Odd, value: &str) {
    let limit = odd.limit.unwrap_or(0);
    match name {
        "value" => out.fill("{}", &[Quoted(value)]),
        "first" => {
            let first = value.split(',').next().unwrap_or("");
            out.fill("{}", &[Quoted(first.trim())])
        }
        "short" => out.fill("{}", &[Quoted(value.trim_end_matches('0'))]),
        "number" => out.fill("{}", &[Number(odd.number)]),
        "rows" => out.fill("{}", &[Count(odd.number, "row")]),
        "projects" => out.fill("{}", &[Count(odd.number, "project")]),
        "ballots" => out.fill("{}", &[Count(odd.number, "ballot")]),
        "limit" => out.fill("{}", &[Number(limit)]),
        "amount" => {
            let amount = Money::read(value).map_or(0, |amount| amount.0);
            out.fill("{}", &[Amount(amount)])
        }
        "sum" => out.fill("{}", &[Amount(odd.number)]),
        "most" => out.fill("{}", &[Amount(limit)]),
        _ => {}
    }
}
