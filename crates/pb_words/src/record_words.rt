//! Words for a record of a .pb file that is refused, and for the end of one that is refused there.

use crate::command_words::{put_clean, put_cleaning, put_separate};
use crate::looks::EMPTY;
use crate::mark_words::{CLOSE_IT, put_swallower};
use crate::meta_words::{VOTE, put_joined, put_late_meta, put_odd_head};
use crate::prelude::*;
use crate::read_rules::{is_cost, put_rule};
use crate::row_causes::{ESCAPED, SPACED, cut_cause};
use crate::section::{due_at_end, end_remedy};
use crate::unknown_texts::{LATE_PROJECT, is_cut_code};
use pb_read::Stage;
use pb_seen::changed::is_one_of;
use pb_seen::fields::{JoinedBy, column_of};
use pb_seen::heads::{head_of, section_of};
use pb_witness::cause::Cause;
use pb_witness::faulty_record::FaultyRecord;
use pb_witness::quote::{Span, span_of};

/// What columns are called that have ranks or points.
const RANKS: &str = "rank|ranks|ranking|preference|points|score|weight|stars|grade";

/// What begins and ends a part of a text that programs leave out.
const PARTS: [(&str, &str); 3] = [("/*", "*/"), ("<!--", "-->"), ("(*", "*)")];

impl<R: Files> Case<'_, R> {
    /// Puts what is wrong with a record, or with the values of META before it, and what to do; answers
    /// whether it was found.
    pub(crate) fn put_found(&self, out: &mut WordsWriter) -> bool {
        match (self.faulty.kind(), &self.faulty.stage) {
            (ReadKind::NotText | ReadKind::SectionOrder | ReadKind::TooManyRecords, _) => {
                self.put_record(out)
            }
            (ReadKind::MissingKey, Stage::InMeta(_)) => { self.put_missing_key(out) }
            (_, Stage::InMeta(_)) => return self.put_value_words(out),
            _ => self.put_record(out),
        }
        true
    }

    /// Puts what is wrong with a record, and what to do.
    fn put_record(&self, out: &mut WordsWriter) {
        if self.put_line_words(out) {
            return;
        }
        let is_vote = self.faulty.kind() == ReadKind::UnknownProject;
        if is_vote && !self.faulty.is_spaced_quote() {
            return self.put_vote(out);
        }
        let span = put_mark(out, self.text, self.faulty.mark);
        if self.put_marks(out, span) {
            return;
        }
        if let Some(section) = self.faulty.head_with_names() {
            return out.fill(
                ": the heading {} needs a line of its own. Write the column names below it.\n",
                &[Own(head_of(section))],
            );
        }
        if self.faulty.id().contains('\n') && put_over(out, span, false) {
            return;
        }
        match self.faulty.kind() {
            ReadKind::NoHeader if self.faulty.is_same_head() => out.fill(
                ": the heading {} is on line {} already.\n",
                &[
                    Own(head_of(section_of(&self.faulty.stage))),
                    Number(line_of(self.text, self.faulty.seen.last)),
                ],
            ),
            ReadKind::RepeatedProject | ReadKind::RepeatedVoter => {
                self.put_repeated(out);
                let _ = put_over(out, span, true);
                return;
            }
            _ => self.put_what(out),
        }
        // Where a field is missing, the quotation mark may have taken it.
        if self.faulty.kind() != ReadKind::MissingField || span.over.is_none() {
            self.put_remedy(out);
        }
        let _ = put_over(out, span, true);
    }

    /// Puts what is wrong with a line that is read as a heading, is a mark of a merge conflict, or ends in bytes
    /// of 0; answers whether it is one.
    fn put_line_words(&self, out: &mut WordsWriter) -> bool {
        if let Some(records) = self.faulty.like_head(self.text) {
            let _ = put_mark(out, self.text, records.mark());
            out.fill(
                ": this row is read as a heading, because its first field is {}.\nIf it is a project or a voter, give it another id (a project also in the votes). If it is a heading, write only this word on the line. Each heading comes once: META, PROJECTS, VOTES.\n",
                &[Quoted(text_at(&records.last, 0))],
            );
            return true;
        }
        let words = if self.faulty.is_conflict() {
            ": this is a mark of a merge conflict: the file has two versions of the rows between `<<<<<<<` and `>>>>>>>`.\nAsk whoever made the file which version is right. Keep that one, and delete the other and the marks.\n"
        } else if self.is_wide() {
            ": a byte of 0 is behind each letter, from this row on: the rows are in the encoding UTF-16, as PowerShell's `>>` adds them.\nSave these rows with the encoding UTF-8, as the others are.\n"
        } else if self.has_nul() {
            ": bytes of 0 stand here, as where a program did not write a file to its end.\nGet the whole file again.\n"
        } else {
            return false;
        };
        let _ = put_mark(out, self.text, self.faulty.mark);
        out.put(words);
        true
    }

    /// Whether a field of a row of PROJECTS or VOTES ends in bytes of 0.
    pub(crate) fn has_nul(&self) -> bool {
        let is_row = self.faulty.is_of_projects() || self.faulty.is_of_votes();
        let has_it = |place: usize| self.faulty.at(place).ends_with('\u{0}');
        is_row && (0..self.faulty.record.len()).any(has_it)
    }

    /// Whether such a row has a byte of 0 between others, as where each letter has one.
    fn is_wide(&self) -> bool {
        let is_between = |place: usize| {
            let text = self.faulty.at(place).trim_matches('\u{0}');
            text.contains('\u{0}')
        };
        self.has_nul() && (0..self.faulty.record.len()).any(is_between)
    }

    /// Puts which quotation mark is wrong in a record whose line was put, and what to do; answers whether one
    /// is.
    fn put_marks(&self, out: &mut WordsWriter, span: Span) -> bool {
        if let Some(line) = self.faulty.escaped(span) {
            if line == span.begins {
                out.put(": the text")
            } else {
                out.fill(": the text on line {}", &[Number(line)])
            }
            out.put(
                " has `\\\"`, as some databases write a quotation mark, but in a .pb file two stand for one.\n",
            );
            out.put(ESCAPED);
        } else if self.faulty.is_spaced_quote() {
            out.put(
                ": a space is before a quotation mark, so the mark is read as part of the text.\n",
            );
            out.put(SPACED);
            put_clean(out, self.text, "");
        } else if put_unclosed(out, span) {
            out.put(CLOSE_IT);
        } else {
            return false;
        }
        true
    }

    /// Puts which id of a vote no project has, and what to do.
    fn put_vote(&self, out: &mut WordsWriter) {
        let shifted = self.faulty.shifted();
        let span = span_of(self.text, self.faulty.mark);
        let is_swallower = self.faulty.id().contains('\n') || span.unclosed().is_some();
        if is_swallower && put_swallower(out, self.text, self.faulty.mark, "") {
            return;
        }
        let is_split = !shifted.is_empty() && self.known.witness.ids.are_all(shifted);
        if (is_split || self.faulty.is_two_rows()) && !is_cut_code(self.faulty.piece()) {
            let _ = put_mark(out, self.text, self.faulty.mark);
            self.put_column(out);
            put_subject(out, "voter", self.faulty.id());
            out.fill(
                ": no project has the id {}.\n",
                &[Quoted(self.faulty.piece())],
            );
            self.put_split(out);
        } else {
            self.put_unknown(out);
        }
        let is_list =
            matches!(self.known.cause_of(self.faulty.piece()), Some(found) if matches!(found.cause, Cause::OnLines | Cause::TwoLines));
        if !is_list || self.faulty.value().contains(';') {
            let _ = put_over(out, span, true);
        }
    }

    /// Puts what to do about a record.
    fn put_remedy(&self, out: &mut WordsWriter) {
        if put_swallowing(out, self.text, self.faulty.seen.swallowing) {
            return;
        }
        if let Some(odd) = self.faulty.odd_head() {
            return put_odd_head(out, self.text, odd);
        }
        if self.put_row_words(out) {
            return;
        }
        let is_before_meta = self.faulty.kind() == ReadKind::NoSection && self.faulty.is_first();
        if is_before_meta && put_late_meta(out, self.text, self.faulty.mark) {
            return;
        }
        if self.faulty.is_split() {
            return self.put_split(out);
        }
        if self.faulty.kind() == ReadKind::BadMoney
            && self.put_lost_thousands(out, self.faulty.value())
        {
            return;
        }
        if self.faulty.kind() == ReadKind::MoneyTooFine
            && self.put_thousandths(out, self.faulty.value())
        {
            return;
        }
        if self.faulty.separators().is_some() {
            out.put(match self.text.joined_behind(self.faulty.mark) {
                Some(_) => VOTE,
                None => "Write `;` between them.\n",
            });
            return;
        }
        self.put_first_looks(out);
        put_joined(out, self.faulty.joined(), self.remedy(), VOTE);
        self.put_command(out)
    }

    /// Puts what to look at before the remedy.
    fn put_first_looks(&self, out: &mut WordsWriter) {
        if self.faulty.is_short()
            && self.faulty.joined().is_none()
            && self.text.is_last(self.faulty.mark)
        {
            out.put(
                "This is the last line of the file. If the file is cut off, get the whole file again. If not:\n",
            );
        }
        if self.faulty.kind() == ReadKind::MissingColumn {
            self.put_codes(out, self.faulty.mark);
        }
        if self.may_have_slid() {
            out.put(
                "The costs may have slid by a row, as where a cell was deleted: compare each cost with its project first. If they have slid, correct all of them. If not:\n",
            );
        }
    }

    /// Whether it is the first or the last project, which has more than an id, and the only one without a cost.
    fn may_have_slid(&self) -> bool {
        let has_none = |it: &&FaultyRecord| {
            it.kind() == ReadKind::BadMoney && it.is_of_projects() && it.value().is_empty()
        };
        let behind = self.text.row_behind(self.faulty.mark);
        let is_last = behind.is_some_and(|row| text_at(&row, 0).eq_ignore_ascii_case("VOTES"));
        has_none(&self.faulty)
            && !self.faulty.is_id_alone()
            && (self.faulty.is_first_row() || is_last)
            && self.known.witness.refused.iter().filter(has_none).count() == 1
    }

    /// Puts which command mends a record, if one does.
    fn put_command(&self, out: &mut WordsWriter) {
        match self.faulty.joined() {
            Some(joined) if self.text.joined_behind(self.faulty.mark).is_some() => put_separate(
                out, self.text, joined,
            ),
            Some(_) => {}
            None if self.is_hidden() || self.has_note_above() => put_clean(out, self.text, ""),
            None if self.faulty.is_by_project() && has_ranks(&self.faulty.record) => out.put(
                "A column seems to have ranks or points, which this program can't count. If it has something else, call it `comment`.\n",
            ),
            None if self.faulty.is_by_project() => out.fill(
                "If each voter has a row for each project, `pb_clean {} -o NEW.pb --repeated-voters merge` makes one ballot of a voter's rows. If each row is a person, call the column `vote`.\n",
                &[Name(self.text.path)],
            ),
            None if is_cost(self.faulty.value()) && !self.has_names_again() => {}
            None => put_cleaning(out, self.text, self.faulty.kind(), self.faulty.value()),
        }
    }

    /// Whether an invisible character is before META, or beside the name of a column that is missing.
    fn is_hidden(&self) -> bool {
        let is_column = self.faulty.kind() == ReadKind::MissingColumn;
        self.faulty.is_behind_mark() || (is_column && self.faulty.has_hidden_column())
    }

    /// Puts what to do about a row that seems to be none of its section, or half of one; answers whether it
    /// seems so.
    fn put_row_words(&self, out: &mut WordsWriter) -> bool {
        if self.faulty.is_numbered() {
            out.put(
                "Delete the number at the beginning of each line, with the tab or the space behind it.\n",
            )
        } else if self.faulty.record.len() == 1 && self.faulty.at(0).starts_with('{') {
            out.put(
                "This row seems to be JSON. Get the rows again, with their fields in the order of the column names, and `;` between them.\n",
            )
        } else if let Some(half) = self.faulty.half(self.text) {
            out.fill(
                "This row and the one on line {} may be one row, cut by a line break in a text. If so, join them.\n",
                &[Number(line_of(self.text, half))],
            )
        } else if let Some(place) = self.moved_vote() {
            self.put_moved(out, self.faulty, place)
        } else if self.is_of_signs() {
            self.put_signs(out)
        } else if let Some(words) = self.short_words() {
            put_rule(out, words)
        } else {
            return false;
        }
        true
    }

    /// Whether it is a short row of one field that has only signs.
    fn is_of_signs(&self) -> bool {
        let text = self.faulty.at(0);
        let is_sign = |c: char| c.is_ascii_punctuation();
        let is_kind = self.faulty.kind() == ReadKind::MissingField;
        let is_one = self.faulty.record.len() == 1 && !text.is_empty();
        is_kind && is_one && text.chars().all(is_sign)
    }

    /// Puts what to do about a line that has only signs, which may say that other rows do not count.
    fn put_signs(&self, out: &mut WordsWriter) {
        let ends = PARTS.iter().find(|(begin, _)| *begin == self.faulty.at(0));
        let end = ends.map_or("", |(_, end)| *end);
        let is_end = |row: &ByteRecord| !end.is_empty() && text_at(row, 0) == end;
        match self.text.find(self.faulty.mark, is_end) {
            Some((_, mark)) => out.fill(
                "This and `{}` on line {} may say that the rows between them do not count. Ask whoever made the file. If so, delete these rows and the two lines. If not, delete the two lines alone.\n",
                &[Own(end), Number(line_of(self.text, mark))],
            ),
            None => out.put(
                "Such signs may say of rows above or below that they do not count. Ask whoever made the file before you delete the line. If they say so, delete these rows too.\n",
            ),
        }
    }

    /// The place of a field behind the id of a short row of VOTES that names projects, and is no vote there.
    fn moved_vote(&self) -> Option<usize> {
        let is_short = self.faulty.kind() == ReadKind::MissingField && self.faulty.is_of_votes();
        let place = self.faulty.moved(&self.known.witness.ids);
        place.filter(|place| is_short && *place > 0)
    }

    /// What to do about a short row, by what it seems to be.
    fn short_words(&self) -> Option<&'static str> {
        let marks = self.faulty.marks();
        let is_short = self.faulty.kind() == ReadKind::MissingField;
        let words = if self.is_vote_alone() {
            "This row has ids of projects alone. If the row above has no vote, or its vote ends with a comma, a line end may stand between the two: then join them. If not, and the first id is a voter's, write `;` in place of the first comma. If neither, find out whose vote it is.\n"
        } else if is_short && self.is_wrapped() {
            "The row above ends with a comma, so a line end may stand in its vote. Look at that voter's ballot. If it has this id too, join the two lines. If not, find out what this line is.\n"
        } else if let Some(marks) = marks {
            match marks {
                JoinedBy::Tabs =>
                    "Tabs separate the fields of this row. Write `;` in place of each.\n",
                JoinedBy::Bars =>
                    "Bars (`|`) are around the fields of this row. Write `;` between the fields, and no bars.\n",
                _ =>
                    "Check whether the first comma stands for `;`. If so, commas separate the fields of this row: write `;` between them, but keep the commas between the ids of a vote.\n",
            }
        } else if self.faulty.is_line_of_words() {
            "{} {} If it is a vote, write all of its fields.\n"
        } else if is_short && self.faulty.is_like_project(self.text) {
            LATE_PROJECT
        } else {
            return None;
        };
        Some(words)
    }

    /// Whether it is a row of VOTES that has one field, with ids of several projects.
    fn is_vote_alone(&self) -> bool {
        let (vote, ids) = (self.faulty.at(0), &self.known.witness.ids);
        let is_one = self.faulty.record.len() == 1 && self.faulty.is_of_votes();
        is_one && vote.contains(',') && ids.are_all(vote)
    }

    /// Whether it is a row of VOTES that has one field with an id of a project, below one that ends with a comma.
    fn is_wrapped(&self) -> bool {
        let ids = &self.known.witness.ids.projects;
        let is_one = self.faulty.record.len() == 1 && self.faulty.is_of_votes();
        let above = self.text.row_at(self.faulty.seen.last).filter(|_| is_one);
        let is_open = |row: &ByteRecord| {
            text_at(row, row.len().saturating_sub(1)).ends_with(',')
        };
        ids.has(self.faulty.at(0)) && above.is_some_and(|row| is_open(&row))
    }

    /// Puts that a row has more fields than there are column names, and what to do.
    fn put_split(&self, out: &mut WordsWriter) {
        let span = span_of(self.text, self.faulty.mark);
        if let Some(words) = cut_cause(&self.faulty.record, span) {
            return out.put(words);
        }
        let (fields, names) = (
            self.faulty.record.len() as u64,
            self.faulty.seen.columns as u64,
        );
        let form = if self.faulty.is_two_rows() {
            "The row has {} fields, but there are {} column names. Two rows may stand on this line: begin a new line where the second begins.\n"
        } else {
            "The row has {} fields, but there are {} column names. If a text in it has a `;`, put this text in quotation marks: `\"Park; north\"`.\n"
        };
        out.fill(form, &[Number(fields), Number(names)])
    }

    /// Puts what is missing at the end of the file, where it was read so far and its records say this;
    /// answers that it did.
    pub(crate) fn put_end(&self, out: &mut WordsWriter) -> bool {
        let ((due, section), last) = (due_at_end(&self.faulty.stage), self.faulty.seen.last);
        if last.at == 0 {
            out.fill("{}{}", &[Name(self.text.path), Own(EMPTY)]);
            return true;
        }
        let span = span_of(self.text, last);
        if span.unclosed().is_some() && put_swallower(out, self.text, last, "") {
            return true;
        }
        let (_, ends) = span.over.unwrap_or((0, span.begins));
        out.fill(
            "{}: the file ends after line {}, and ",
            &[Name(self.text.path), Number(ends)],
        );
        out.fill(due, &[Own(head_of(section))]);
        if put_swallowing(out, self.text, self.faulty.seen.swallowing)
            || put_over(out, span, true)
        {
            return true;
        }
        match (self.faulty.seen.odd_head, self.votes_beside()) {
            (Some(odd), _) => put_odd_head(out, self.text, odd),
            (None, Some(mark)) => out.fill(
                "VOTES stands on line {} beside another heading. Write the tables below each other, each with its heading alone on a line.\n",
                &[Number(line_of(self.text, mark))],
            ),
            (None, None) => out.put(end_remedy(&self.faulty.stage)),
        }
        true
    }

    /// Where VOTES stands behind the first field of a row, where its section is missing.
    fn votes_beside(&self) -> Option<Mark> {
        let is_there = |row: &ByteRecord| {
            let is_head = text_at(row, 0).eq_ignore_ascii_case("PROJECTS");
            is_head && column_of(row, "VOTES").is_some()
        };
        let found = self.text.find(Mark::start(), is_there)?;
        matches!(self.faulty.stage, Stage::InProjects(_)).then_some(found.1)
    }
}

/// Whether one of these column names is of ranks or points.
fn has_ranks(names: &ByteRecord) -> bool {
    (0..names.len()).any(|place| is_one_of(RANKS, text_at(names, place)))
}
