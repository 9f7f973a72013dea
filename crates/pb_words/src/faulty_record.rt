//! What is wrong with a record of a .pb file, in words.

use crate::prelude::*;
use crate::read_rules::{NO_AMOUNT, amount_remedy, fine_remedy, put_broken, words_of};
use crate::section::{NO_NAMES, Names, missing, names_of, wrong_head};
use pb_read::{Section, Stage};
use pb_seen::fields::{column_of, has_more, place_of_no_text};
use pb_seen::heads::{head_of, section_of};

/// What to do where VOTES has a column for each project.
pub(crate) const BY_COLUMN: &str =
    "VOTES has a column for each project. Make one column `vote` of them, with the ids of the projects that the voter approves, and `,` between them.\n";

/// What to do about a ballot without an id.
const NO_ID: &str =
    "Look at the ballots before you write an id: ids may stand in the middle of their rows, or below, as where merged cells were taken apart, or the column `vote` may have slid down by one cell. If the row is a ballot of the voter above, write that voter's id. If it is another voter's ballot, write any id that no other row has. If it is a total, delete it.\n";

const NAMES_AND_ROW: &str =
    "The first row may stand behind the column names, on the same line. If so, begin a new line where it begins.\n";

const NAMES_BELOW: &str =
    "The row of column names stands further below. Move it up, to the line below the heading. If what then stands below it is no row of the table, do what it says of other rows before you delete it.\n";

/// What to do where each name has a field of the first row behind it.
const NAMES_JOINED: &str =
    "Behind each column name stands a field of the first row. Write the names alone on this line, and these fields as a row below it.\n";

const NOTE_ABOVE: &str =
    "The row of column names stands further below. If this line says that rows are left out or not valid, or what signs or amounts mean, ask first. If not, delete it.\n";

pub(crate) const LINE_ENDS: &str =
    "The line ends are characters that the program does not read as such. Save the file again with those of Unix or Windows.\n";

/// So many column names are shown.
const MOST_NAMES: usize = 12;

/// What this needed column has.
fn content_of(column: &str) -> &'static str {
    match column {
        "cost" => "the whole cost of each project, in the currency of the budget",
        "project_id" => "the ids by which votes name the projects",
        "voter_id" => "an id of one voter in each row",
        _ => "the ids of all projects that the voter approves",
    }
}

impl<R: Files> Case<'_, R> {
    /// What things are called where a record stands.
    fn names(&self) -> &'static Names {
        names_of(section_of(&self.faulty.stage))
    }

    /// Whether a record among the projects is the column names of VOTES.
    fn is_votes_names(&self) -> bool {
        matches!(self.faulty.stage, Stage::InProjects(_))
            && column_of(&self.faulty.record, "voter_id").is_some()
    }

    /// What to do about a record.
    pub(crate) fn remedy(&self) -> &'static str {
        let ids = &self.known.witness.ids;
        let is_one = self.faulty.record.len() == 1;
        match (self.faulty.kind(), &self.faulty.stage) {
            _ if self.is_votes_names() => "Write the heading VOTES on a line above them.\n",
            (ReadKind::NoSection, _) => self.start_remedy(),
            (ReadKind::SectionOrder, stage) => wrong_head(stage, self.faulty.at(0)).1,
            (ReadKind::NoHeader, _) if self.faulty.is_same_head() =>
                "If nothing is missing between the two lines, delete one of them.\n",
            (ReadKind::NoHeader, _) => self.names().add_header,
            (ReadKind::MissingColumn, _) => self.column_remedy(),
            (ReadKind::EmptyId, Stage::InVotes(_)) if self.faulty.is_ballot(ids) => NO_ID,
            (ReadKind::MissingField, _) if self.faulty.is_invisible() =>
                "Delete the line. (Some programs put such a character at the end of a file.)\n",
            (ReadKind::BadMoney, Stage::InProjects(_))
                if self.faulty.is_id_alone() || self.faulty.value().starts_with("--") => NO_AMOUNT,
            (ReadKind::BadMoney, _) => amount_remedy(self.faulty.value()),
            (ReadKind::MoneyTooFine, _) => fine_remedy(self.faulty.value()),
            (ReadKind::MissingField, Stage::InProjects(_)) if is_one =>
                "If it is the heading of the votes, write VOTES. If it is the end of a text on the line above, join the two lines. {} {}\n",
            (ReadKind::MissingField, Stage::InProjects(_)) =>
                "Find out what belongs there, and complete the row. {}\n",
            (kind, _) => words_of(kind).1,
        }
    }

    /// What to do about a file that does not begin with META.
    fn start_remedy(&self) -> &'static str {
        let (first, is_hidden) = (self.faulty.at(0), self.faulty.is_behind_mark());
        if is_hidden && first.starts_with('\u{feff}') {
            "Save the file again with the encoding UTF-8, without a byte order mark.\n"
        } else if is_hidden {
            "Delete the invisible character before META, or type META anew.\n"
        } else if self.faulty.has_other_line_end() {
            LINE_ENDS
        } else if first.is_empty() && column_of(&self.faulty.record, "META").is_some() {
            "Each row begins with an empty field. Delete the first `;` of each row.\n"
        } else if first.starts_with('>') {
            "E-mail programs write `> ` before each line of a reply. Get the file again, as an attachment.\n"
        } else {
            "Check that this is the .pb file (in a command with two files, it comes first). If it is, write META on its first line, or get the whole file again.\n"
        }
    }

    /// What to do about column names of which one is missing.
    fn column_remedy(&self) -> &'static str {
        let is_of_votes = matches!(self.faulty.stage, Stage::Header(Section::Votes));
        let ids = &self.known.witness.ids;
        if self.faulty.has_other_line_end() {
            LINE_ENDS
        } else if self.faulty.has_hidden_column() {
            "An invisible character is beside the name of a column. Delete it, or type the name anew.\n"
        } else if is_of_votes
            && (ids.are_columns(&self.faulty.record)
                || self.faulty.has_names_below(self.text, ids))
        {
            BY_COLUMN
        } else if self.has_row_behind() {
            NAMES_AND_ROW
        } else if self.faulty.has_row_in_names() {
            NAMES_JOINED
        } else if self.has_note_above() {
            NOTE_ABOVE
        } else if self.has_names_below() {
            NAMES_BELOW
        } else if is_of_votes && self.faulty.is_by_project() {
            "There is `project_id` in place of `vote`. Look at a ballot before you change anything.\n"
        } else {
            self.names().add_column
        }
    }

    /// Whether these column names have as many fields as two rows of which the last field of the first and
    /// the first of the second are one.
    fn has_row_behind(&self) -> bool {
        let below = self.text.row_behind(self.faulty.mark);
        let fields = self.faulty.record.len().saturating_add(1);
        below.is_some_and(|row| row.len() > 1 && row.len().saturating_mul(2) == fields)
    }

    /// Whether a row below these column names has both needed ones.
    fn has_names_below(&self) -> bool {
        let section = section_of(&self.faulty.stage);
        let has = |row: &ByteRecord, is_other: bool| {
            column_of(row, missing(section, is_other)).is_some()
        };
        let has_both = |row: &ByteRecord| has(row, false) && has(row, true);
        self.text.find(self.faulty.mark, has_both).is_some()
    }

    /// Whether these are one field in place of column names, as a note is, and a row below has the names.
    pub(crate) fn has_note_above(&self) -> bool {
        let is_kind = self.faulty.kind() == ReadKind::MissingColumn;
        is_kind && !has_more(&self.faulty.record) && self.has_names_below()
    }

    /// Puts what is wrong with a record by itself.
    pub(crate) fn put_what(&self, out: &mut WordsWriter) {
        let first = self.faulty.at(0);
        match self.faulty.kind() {
            ReadKind::NotText => self.put_no_text(out),
            _ if self.is_votes_names() => out.put(
                ": these are the column names of VOTES, but there is no heading VOTES above them.\n",
            ),
            ReadKind::NoSection if self.faulty.is_behind_mark() => {
                out.put(": an invisible character is before META.\n")
            }
            ReadKind::NoSection => out.fill(
                ": a .pb file begins with the line META, but this line begins with {}.\n",
                &[Quoted(first)],
            ),
            ReadKind::SectionOrder => out.fill(
                wrong_head(&self.faulty.stage, first).0,
                &[Quoted(first)],
            ),
            ReadKind::NoHeader => {
                out.fill(": {} begins another section, but ", &[Quoted(first)]);
                out.fill(NO_NAMES, &[Own(head_of(section_of(&self.faulty.stage)))])
            }
            ReadKind::MissingColumn => self.put_no_column(out),
            ReadKind::MissingField => self.put_short(out),
            _ if self.faulty.refusal.column.is_some() => self.put_value(out),
            kind => out.fill(": {}.\n", &[Own(words_of(kind).0)]),
        }
    }

    fn put_no_text(&self, out: &mut WordsWriter) {
        let place = place_of_no_text(&self.faulty.record).unwrap_or(0);
        let number = (place as u64).saturating_add(1);
        out.fill(
            ", field {}: {} is not UTF-8 text.\n",
            &[Number(number), Bytes(bytes_at(&self.faulty.record, place))],
        )
    }

    /// Puts which column is missing, which names are there, and which of them seems to be it.
    fn put_no_column(&self, out: &mut WordsWriter) {
        let section = section_of(&self.faulty.stage);
        if let Some(separators) = self.faulty.separators() {
            return out.fill(
                ": the column names are separated by {}.\n",
                &[Own(separators)],
            );
        }
        let has_id = column_of(&self.faulty.record, missing(section, false)).is_some();
        let column = missing(section, has_id);
        out.fill(": there is no column `{}`. The names are", &[Own(column)]);
        for place in 0..self.faulty.record.len().min(MOST_NAMES) {
            let before = if place == 0 { " " } else { ", " };
            let name = self.faulty.at(place);
            out.fill("{}{}", &[Own(before), Quoted(name)]);
        }
        let is_cut = self.faulty.record.len() > MOST_NAMES;
        out.put(if is_cut { ", and others.\n" } else { ".\n" });
        // Behind an odd line end the name would take the first row's field with it.
        let has_other = self.faulty.has_other_line_end()
            || self.has_row_behind()
            || self.faulty.has_row_in_names();
        if !has_other && !self.known.witness.ids.are_columns(&self.faulty.record) {
            self.put_nearly(out, column);
        }
    }

    /// Puts which name seems to be that of this column, or that several do.
    fn put_nearly(&self, out: &mut WordsWriter, column: &'static str) {
        let nearly = |from: usize| self.faulty.nearly(self.text.alloc, column, from);
        let first = nearly(0);
        let next = match &first {
            Ok(Some(place)) => nearly(place.saturating_add(1)),
            _ => Ok(None),
        };
        match (first, next) {
            (Ok(Some(place)), Ok(Some(other))) => out.fill(
                "Find out whether {} or {} is this column, and write `{}` in its place. If both are parts of it, find out whether they add up (parts of a cost, choices of one ballot; then make one column of them), or one replaces the other (two ballots of a voter).\n",
                &[
                    Quoted(self.faulty.at(place)),
                    Quoted(self.faulty.at(other)),
                    Own(column),
                ],
            ),
            (Ok(Some(place)), Ok(None)) => out.fill(
                "If {} is this column, with {}, write `{}` in its place. If not, ask whoever made the file.\n",
                &[
                    Quoted(self.faulty.at(place)),
                    Own(content_of(column)),
                    Own(column),
                ],
            ),
            (Ok(None), _) => {}
            _ => out.fail(),
        }
    }

    fn put_short(&self, out: &mut WordsWriter) {
        if self.faulty.is_invisible() {
            return out.put(": the line has only an invisible character.\n");
        }
        if self.faulty.record.len() == 1 && matches!(self.faulty.stage, Stage::InProjects(_)) {
            return out.fill(
                " has only {}, and no field for the column `cost`.\n",
                &[Quoted(self.faulty.at(0))],
            );
        }
        put_subject(out, self.names().subject, self.faulty.id());
        out.fill(
            ": the row has no field for the column `{}`.\n",
            &[Own(missing(section_of(&self.faulty.stage), self.faulty.has_id()))],
        )
    }

    /// Puts the column of the value that is refused.
    pub(crate) fn put_column(&self, out: &mut WordsWriter) {
        if let Some(column) = self.faulty.refusal.column {
            out.fill(", column {}", &[Own(column.name())]);
        }
    }

    /// Puts the column of the value that is refused, whose row it is, and the rule that it breaks.
    fn put_value(&self, out: &mut WordsWriter) {
        self.put_column(out);
        put_subject(out, self.names().subject, self.faulty.id());
        put_broken(out, self.faulty.kind(), self.faulty.value())
    }
}
