//! Words for META: its values, which are judged at the head of PROJECTS, and its head.

use crate::command_words::{put_clean, put_cleaning, put_separate};
use crate::prelude::*;
use crate::read_rules::{amount_remedy, fine_remedy, is_below_1, put_broken, put_rule, words_of};
use pb_read::{Column, MetaKey};
use pb_seen::changed::{has_thousandths, is_grouped, without_hidden};
use pb_seen::fields::JoinedBy;
use pb_seen::heads::{OddHead, head_of};
use pb_seen::keys::Given;
use pb_witness::elsewhere::small_amount;
use pb_witness::late_meta::late_meta;

/// What to do about it in a .pb file, in a script, and in a row that was typed.
pub(crate) const VOTE: &str =
    "Save the file again with `;` between the fields. Keep the commas between the ids of a vote.\n";

pub(crate) const BALLOT: &str =
    "Save the file again with `;` between the fields. Keep the commas between the projects of a ballot.\n";

pub(crate) const TYPED: &str =
    "Write `;` between the fields, and `,` only between the projects of a ballot.\n";

impl<R: Files> Case<'_, R> {
    /// Puts what is wrong with a value of META, and what to do; answers whether it was found.
    pub(crate) fn put_value_words(&self, out: &mut WordsWriter) -> bool {
        let Some(Column::Key(key)) = self.faulty.refusal.column else {
            return false;
        };
        let Some(Given { first, last }) = self.faulty.seen.keys.given(key) else {
            return false;
        };
        let Some(row) = self.text.row_at(last) else {
            return false;
        };
        let _ = put_mark(out, self.text, last);
        let value = text_at(&row, 1);
        out.fill(", key {}", &[Quoted(key.text())]);
        put_broken(out, self.faulty.kind(), value);
        if first.at != last.at {
            out.fill(
                "The key is on line {} as well, but only its last row counts. Delete this row if it does not belong here. If it does:\n",
                &[Number(line_of(self.text, first))],
            );
        }
        let is_fine = self.faulty.kind() == ReadKind::MoneyTooFine;
        if self.put_lost_thousands(out, value) || (is_fine && self.put_thousandths(out, value)) {
            return true;
        }
        put_rule(out, value_remedy(self.faulty.kind(), value));
        put_cleaning(out, self.text, self.faulty.kind(), value);
        true
    }

    /// Puts which amount may have lost a mark that this one has between thousands, if one may have, and what to
    /// do; answers whether one may.
    pub(crate) fn put_lost_thousands(&self, out: &mut WordsWriter, amount: &str) -> bool {
        let marks = amount.split(|c: char| c == '.' || c == ',').count();
        let small = small_amount(self.text, self.faulty);
        let Some((small, mark)) = small.filter(|_| is_grouped(amount) && marks > 2) else {
            return false;
        };
        out.fill(
            "Line {} has the amount {}, without such a mark: a spreadsheet may have read 940.000 as 940. Compare the budget and each cost with the office's list, and write all of them with digits only, like `1200` or `1200.50`.\n",
            &[Number(line_of(self.text, mark)), Quoted(small.as_str())],
        );
        true
    }

    /// Puts that amounts may be in thousands, if this one has three decimals, and another one is small without a mark; and what
    /// to do. Answers whether they may.
    pub(crate) fn put_thousandths(&self, out: &mut WordsWriter, amount: &str) -> bool {
        let may_be = has_thousandths(amount) && !is_below_1(amount);
        let Some((small, mark)) = small_amount(self.text, self.faulty).filter(|_| may_be) else {
            return false;
        };
        out.fill(
            "Line {} has the amount {}: all amounts may be in thousands, or a spreadsheet may have read 18.000 as 18. Compare the budget and each cost with the office's list. If it is so, write all of them in full, with digits only. If not, round this amount to two decimals.\n`pb_clean {} -o NEW.pb --marks decimals --round half-up` rounds it.\n",
            &[
                Number(line_of(self.text, mark)),
                Quoted(small.as_str()),
                Name(self.text.path),
            ],
        );
        true
    }

    /// Whether META's row of column names has two of its keys beside each other.
    fn has_keys_beside(&self) -> bool {
        let names = self.text.row_at(self.faulty.seen.names);
        let is_key = |row: &ByteRecord| MetaKey::of(text_at(row, 1)).is_some();
        names.is_some_and(|row| is_key(&row))
    }

    /// Puts which key META lacks, and what to do.
    pub(crate) fn put_missing_key(&self, out: &mut WordsWriter) {
        let seen = &self.faulty.seen;
        let (key, remedy) = missing_key(seen.keys.given(MetaKey::Budget).is_some());
        let names = self.text.row_at(seen.names);
        if names.is_some_and(|row| text_at(&row, 0).eq_ignore_ascii_case(key.text())) {
            let _ = put_mark(out, self.text, seen.names);
            let form = if self.has_keys_beside() {
                ": the keys of META stand beside each other here, as `{}`, and their values below.\nWrite a row `key;value`, and below it a row for each key, with its value behind `;`.\n"
            } else {
                ": this row, with the key `{}`, was taken for META's row of column names.\nWrite `key;value` on a line of its own above it.\n"
            };
            return out.fill(form, &[Own(key.text())]);
        }
        if put_like_key(out, self.text, key.text()) {
            return;
        }
        let joined = self.text.joined_at(seen.last);
        if let Some(Some(separators)) = joined.map(JoinedBy::separators) {
            let _ = put_mark(out, self.text, seen.last);
            out.fill(
                ": the fields are separated by {}.\n{}",
                &[Own(separators), Own(VOTE)],
            );
            return put_separate(out, self.text, joined.unwrap_or(JoinedBy::Commas));
        }
        let _ = put_mark(out, self.text, self.faulty.mark);
        out.fill(": META has no row for the key `{}`.\n", &[Own(key.text())]);
        if put_swallowing(out, self.text, seen.swallowing)
            || put_key_elsewhere(out, self.text, key.text())
        {
            return;
        }
        match joined {
            Some(_) => out.fill(
                "Quotation marks around whole rows turn each row into one field, for example on line {}. Delete these quotation marks.\n",
                &[Number(line_of(self.text, seen.last))],
            ),
            None => out.put(remedy),
        }
    }
}

/// Which key META lacks, that of the budget or another, and what to do.
fn missing_key(has_budget: bool) -> (MetaKey, &'static str) {
    if has_budget {
        let remedy = "If the votes are approval votes, add `vote_type;approval` above this line.\n";
        (MetaKey::VoteType, remedy)
    } else {
        let remedy = "Add it above this line, in the form `budget;AMOUNT`.\n";
        (MetaKey::Budget, remedy)
    }
}

/// What to do about a value of META.
fn value_remedy(kind: ReadKind, value: &str) -> &'static str {
    match (kind, value) {
        (ReadKind::VoteType, "ordinal" | "cumulative" | "scoring") =>
            "This program counts approval votes only. Use another program for this file.\n",
        (ReadKind::VoteType, _) if value.eq_ignore_ascii_case(ONE_CHOICE) =>
            "If each voter picks one project, the votes can be counted as approval votes: write `vote_type;approval`.\n",
        (ReadKind::BadMoney, _) if value.contains(|c: char| c.is_ascii_digit()) => amount_remedy(
            value,
        ),
        (ReadKind::MoneyTooFine, _) => fine_remedy(value),
        _ => words_of(kind).1,
    }
}

/// The vote type of votes for one project each.
pub(crate) const ONE_CHOICE: &str = "choose-1";

/// Puts which row of META seems to be meant as this key, which no row has, and what to do; answers whether
/// one seems to be.
fn put_like_key<R: Files>(out: &mut WordsWriter, text: &Text<R>, key: &'static str) -> bool {
    let is_head = |row: &ByteRecord| text_at(row, 0).eq_ignore_ascii_case("PROJECTS");
    let found = text.find(Mark::start(), |row| is_head(row) || is_like(row, key));
    let Some((row, mark)) = found.filter(|(row, _)| !is_head(row)) else {
        return false;
    };
    let field = text_at(&row, 0);
    let _ = put_mark(out, text, mark);
    out.fill(
        ": this row seems to give `{}`, but its key is {}.\nWrite only `{}` before the `;`, and the value behind it.\n",
        &[Own(key), Quoted(field), Own(key)],
    );
    if without_hidden(field).len() == key.len() {
        put_clean(out, text, "");
    }
    true
}

/// Puts which row has this key in another section, and what to do; answers whether one has it.
fn put_key_elsewhere<R: Files>(out: &mut WordsWriter, text: &Text<R>, key: &'static str) -> bool {
    let is_it = |row: &ByteRecord| row.len() > 1 && text_at(row, 0).eq_ignore_ascii_case(key);
    let Some((_, mark)) = text.find(Mark::start(), is_it) else {
        return false;
    };
    out.fill(
        "The row on line {} has this key, in another section. If it is not a project or a voter, move it into META.\n",
        &[Number(line_of(text, mark))],
    );
    true
}

/// Whether a row of META has this key and more.
fn is_like(row: &ByteRecord, key: &str) -> bool {
    let field = without_hidden(text_at(row, 0))
        .trim_matches('\'')
        .as_bytes();
    let begin = field.get(..key.len()).unwrap_or(b"");
    let rest = field.get(key.len()..).unwrap_or(b"");
    let next = rest.iter().find(|byte| **byte != b' ');
    let is_end = matches!(next, None | Some(b':' | b'='));
    is_end && begin.eq_ignore_ascii_case(key.as_bytes())
}

/// Puts what to do where a whole row is one field, or another remedy where it is not.
pub(crate) fn put_joined(
    out: &mut WordsWriter,
    joined: Option<JoinedBy>,
    remedy: &str,
    separate: &'static str,
) {
    match joined.map(JoinedBy::separators) {
        Some(Some(separators)) => out.fill(
            "The fields are separated by {}. {}",
            &[Own(separators), Own(separate)],
        ),
        Some(None) => out.put(
            "Quotation marks around the whole row turn it into one field. Delete these quotation marks.\n",
        ),
        None => put_rule(out, remedy),
    }
}

/// Puts what to do about a row that seems to be meant as a head.
pub(crate) fn put_odd_head<R: Files>(out: &mut WordsWriter, text: &Text<R>, odd: OddHead) {
    let form = if odd.has_names {
        "Line {} is probably meant as a heading. Write only {} on it, and the column names below it.\n"
    } else {
        "Line {} is probably meant as a heading. Write only {} on it, without punctuation or invisible characters.\n"
    };
    out.fill(
        form,
        &[Number(line_of(text, odd.mark)), Own(head_of(odd.section))],
    );
    let head = head_of(odd.section);
    let is_it = |row: &ByteRecord| without_hidden(text_at(row, 0)).eq_ignore_ascii_case(head);
    if text.row_at(odd.mark).is_some_and(|row| is_it(&row)) {
        put_clean(out, text, "");
    }
}

/// Puts what to do where META's head stands behind the record with this mark, and answers whether it does.
pub(crate) fn put_late_meta<R: Files>(out: &mut WordsWriter, text: &Text<R>, first: Mark) -> bool {
    let Some((mark, is_behind)) = late_meta(text, first) else {
        return false;
    };
    let are_sorted = !is_behind && has_keys(text, first, mark);
    let form = if is_behind {
        "META is on line {}, below another heading. If all lines are in reverse order, reverse them again. If not, put the sections in this order: META, PROJECTS, VOTES.\n"
    } else if are_sorted {
        "META is on line {}, below a row with a key of META: the lines may have been sorted. Get the file again, with its lines in their order.\n"
    } else {
        "META is on line {}. If a line above it is a row of PROJECTS or VOTES, move it there. If one says that rows are left out or not valid, or what signs or amounts mean, ask first. If not, delete everything above it.\n"
    };
    out.fill(form, &[Number(line_of(text, mark))]);
    if !is_behind && !are_sorted {
        put_clean(out, text, "");
    }
    true
}

/// Whether a record from the one with this mark on has a key of META, before the one with the other mark.
fn has_keys<R: Files>(text: &Text<R>, first: Mark, meta: Mark) -> bool {
    let is_key = |row: &ByteRecord| MetaKey::of(text_at(row, 0)).is_some();
    text.row_at(first).is_some_and(|row| is_key(&row))
        || text
            .find(first, is_key)
            .is_some_and(|(_, mark)| mark.at < meta.at)
}
