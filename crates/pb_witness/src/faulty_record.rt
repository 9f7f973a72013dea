//! A record of a .pb file that was refused, and what can be known of it.

use crate::cause::is_subject;
use crate::prelude::*;
use crate::quote::Span;
use crate::records::TextRecords;
use pb_read::Refusal;
use pb_seen::changed::{
    differ_in_form, has_digit, has_word, is_digits, is_hidden, is_nothing, is_power, letters_of,
    without_hidden,
};
use pb_seen::fields::{JoinedBy, has_more, joined};
use pb_seen::heads::{OddHead, head_of, is_column, odd_head_of, section_of};
use pb_seen::ids::Ids;
use pb_seen::seen::Seen;

/// Characters that end a line elsewhere.
const OTHER_LINE_ENDS: &str = "\u{b}\u{c}\u{85}\u{2028}\u{2029}";

/// A record that the reader refused.
#[derive(Drop)]
pub struct FaultyRecord {
    /// Why, and what its fault is about.
    pub refusal: Refusal,
    /// Its fields; none where there is no record.
    pub record: ByteRecord,
    /// Where it begins.
    pub mark: Mark,
    /// How far the file was read before it.
    pub stage: Stage,
    /// What the records before it say.
    pub seen: Seen,
}

impl FaultyRecord {
    /// Its fault.
    pub fn kind(&self) -> ReadKind {
        self.refusal.fault.kind
    }

    /// The places of its id, and of the other value that a row of its section needs.
    pub fn places(&self) -> (usize, usize) {
        match self.stage {
            Stage::InProjects(columns) => (columns.id, columns.cost),
            Stage::InVotes(columns) => (columns.voter, columns.vote),
            _ => (0, 1),
        }
    }

    /// The row's id; the empty text where it has none.
    pub fn id(&self) -> &str {
        self.at(self.places().0)
    }

    /// Whether the row has a field for its id.
    pub fn has_id(&self) -> bool {
        self.places().0 < self.record.len()
    }

    /// The row's other value; the empty text where it has none.
    pub fn value(&self) -> &str {
        self.at(self.places().1)
    }

    /// The piece of its vote that is no project's id; the empty text where its fault is about none.
    pub fn piece(&self) -> &str {
        piece_of(self.value(), self.refusal.piece.unwrap_or(usize::MAX))
    }

    /// What stands where its other value would be if a text before it had no `;`; the empty text where the
    /// row has no more fields than there are column names.
    pub fn shifted(&self) -> &str {
        let surplus = self.record.len().saturating_sub(self.seen.columns);
        if surplus == 0 {
            return "";
        }
        text_at(&self.record, self.places().1.saturating_add(surplus))
    }

    /// The field at this place.
    pub fn at(&self, place: usize) -> &str {
        text_at(&self.record, place)
    }

    /// Whether one of its fields is so.
    fn has<P: Fn(&str) -> bool>(&self, is_so: P) -> bool
        requires { P.IsAlwaysCallable is_so }
    {
        (0..self.record.len()).any(|place| is_so(self.at(place)))
    }

    /// Whether it is a row of PROJECTS, or of VOTES.
    pub fn is_of_projects(&self) -> bool {
        matches!(self.stage, Stage::InProjects(_))
    }

    pub fn is_of_votes(&self) -> bool {
        matches!(self.stage, Stage::InVotes(_))
    }

    /// Whether a space is before a quotation mark, in the refused value or in a field before it.
    pub fn is_spaced_quote(&self) -> bool {
        let (id, value) = self.places();
        (0..=value.max(id)).any(|place| is_spaced_mark(raw_text(&self.record, place)))
    }

    /// The line of the first quotation mark behind a backslash, if the record may be broken by it.
    pub fn escaped(&self, span: Span) -> Option<u64> {
        let is_broken = span.unclosed().is_some()
            || span.over.is_some()
            || self.record.len() != self.seen.columns;
        if is_broken { span.escaped } else { None }
    }

    /// Whether a field has a line end that the reader does not take for one.
    pub fn has_other_line_end(&self) -> bool {
        self.has(has_other_line_end)
    }

    /// Whether a field of a row stands behind the name of each needed column, with white space between them.
    pub fn has_row_in_names(&self) -> bool {
        let names = match self.stage {
            Stage::Header(Section::Projects) => [Column::ProjectId, Column::Cost],
            Stage::Header(Section::Votes) => [Column::VoterId, Column::Vote],
            _ => return false,
        };
        let is_begun = |name: &str| self.has(|field| {
            let (word, rest) = field.split_once(' ').unwrap_or(("", ""));
            word.eq_ignore_ascii_case(name) && !rest.is_empty()
        });
        names.iter().all(|column| is_begun(column.name()))
    }

    /// Whether it is the number of a line and then the head META.
    pub fn is_numbered(&self) -> bool {
        let first = self.at(0);
        let behind = first.trim_start_matches(|c: char| c.is_ascii_digit());
        let is_blank = |c: char| c.is_whitespace() || ":.)".contains(c);
        self.is_first()
            && behind.len() < first.len()
            && behind
                .trim_start_matches(is_blank)
                .eq_ignore_ascii_case("META")
    }

    /// Whether the name of a needed column is there, but for characters beside it that can't be seen.
    pub fn has_hidden_column(&self) -> bool {
        self.has(|name| {
            let bare = without_hidden(name);
            bare.len() < name.len() && is_column(bare)
        })
    }

    /// The place of the first column name from this place on that has this one in it, but for spaces and
    /// punctuation.
    pub fn nearly(
        &self,
        alloc: Global,
        column: &str,
        from: usize,
    ) -> Result<Option<usize>, AllocError> {
        let column = letters_of(alloc, column)?;
        for place in from..self.record.len() {
            let name = text_at(&self.record, place);
            let is_other = is_column(name);
            let name = letters_of(alloc, name)?;
            if !is_other && has_word(name.as_str(), column.as_str()) {
                return Ok(Some(place));
            }
        }
        Ok(None)
    }

    /// Whether it has a code of two bytes for a letter, as the source of an e-mail has.
    pub fn is_of_mail(&self) -> bool {
        !is_subject(self.value()) && self.has(has_code)
    }

    /// Whether it is a mark of a merge conflict, between two versions of some rows.
    pub fn is_conflict(&self) -> bool {
        let line = text_at(&self.record, 0);
        let is_side = line.starts_with("<<<<<<<") || line.starts_with(">>>>>>>");
        self.record.len() == 1 && (is_side || line == "=======")
    }

    /// Whether it is the column names of a row for each voter and project.
    pub fn is_by_project(&self) -> bool {
        self.kind() == ReadKind::MissingColumn
            && column_of(&self.record, Column::VoterId.name()).is_some()
            && column_of(&self.record, Column::ProjectId.name()).is_some()
    }

    /// Whether the row has a vote for projects of the file.
    pub fn is_ballot(&self, ids: &Ids) -> bool {
        !self.value().is_empty() && ids.are_all(self.value())
    }

    /// Whether it is the first row below the column names.
    pub fn is_first_row(&self) -> bool {
        self.seen.last.at == self.seen.names.at
    }

    /// Whether it is a project's row whose cost seems to stand further right, because of a `;` in a text
    /// before it.
    pub fn is_split(&self) -> bool {
        let is_kind = self.kind() == ReadKind::BadMoney && self.is_of_projects();
        is_kind && Money::read(self.shifted()).is_ok()
    }

    /// The place of a field beside the vote that names projects, and is more than a number, where the vote
    /// names none.
    pub fn moved(&self, ids: &Ids) -> Option<usize> {
        let (_, vote) = self.places();
        let names = |field: &str| !is_digits(field) && ids.have_one(field) && ids.are_all(field);
        if ids.have_one(self.value()) {
            return None;
        }
        (0..self.record.len()).find(|place| *place != vote && names(self.at(*place)))
    }

    /// Whether it is the first row of VOTES, and all its fields are texts without a digit, as titles are.
    pub fn has_titles(&self) -> bool {
        let is_first = self.record.len() > 1 && self.is_first_row();
        let has_other = self.has(|field| field.is_empty() || has_digit(field));
        is_first && !has_other && !is_nothing(self.value()) && self.is_of_votes()
    }

    /// Whether it is a row of VOTES with an id like that of the first project, and an amount where PROJECTS
    /// has the cost.
    pub fn is_like_project<R: Files>(&self, text: &Text<'_, R>) -> bool {
        let (Some(names), Some(first)) = (
            text.row_at(self.seen.project_names),
            text.row_behind(self.seen.project_names),
        ) else {
            return false;
        };
        let id = column_of(&names, Column::ProjectId.name()).unwrap_or(0);
        let cost = column_of(&names, Column::Cost.name()).unwrap_or(0);
        self.is_of_votes()
            && are_alike(text_at(&first, id), self.at(id))
            && Money::read(self.at(cost)).is_ok()
    }

    /// What separates the fields of a row in place of `;`, if it is one field with tabs, or with as many
    /// commas as it should have `;`.
    pub fn marks(&self) -> Option<JoinedBy> {
        let text = text_at(&self.record, 0);
        let is_word = |piece: &str| piece.trim().contains(|c: char| c.is_whitespace());
        let are_words = self.is_of_votes() && text.split(',').any(is_word);
        let are_few = text.split(',').count() < self.seen.columns;
        match joined(&self.record) {
            _ if self.kind() != ReadKind::MissingField => None,
            Some(JoinedBy::Commas) if are_few || are_words => None,
            Some(JoinedBy::Quotes) => None,
            joined => joined,
        }
    }

    /// Where the other half of a short row begins, if a line break in a text seems to have cut one row into
    /// this one and the one before it or behind it.
    pub fn half<R: Files>(&self, text: &Text<'_, R>) -> Option<Mark> {
        let is_kind = matches!(self.kind(), ReadKind::MissingField | ReadKind::BadMoney);
        if !is_kind || self.record.len() >= self.seen.columns {
            return None;
        }
        let before = text.row_at(self.seen.last)?;
        if self.seen.last.at > self.seen.names.at && self.is_other_half(text.alloc, &before) {
            return Some(self.seen.last);
        }
        let (behind, mark) = text.find(self.mark, |_| true)?;
        self.is_other_half(text.alloc, &behind).then_some(mark)
    }

    /// Whether a row is short, and has with this one as many fields as there are column names, if the field
    /// that was cut counts once, and they do not begin alike.
    fn is_other_half(&self, alloc: Global, row: &ByteRecord) -> bool {
        let together = self.record.len().saturating_add(row.len());
        row.len() < self.seen.columns
            && together == self.seen.columns.saturating_add(1)
            && differ_in_form(alloc, self.at(0), text_at(row, 0)).unwrap_or(true)
    }

    /// Whether it is a row of VOTES with one field in which words stand.
    pub fn is_line_of_words(&self) -> bool {
        let has_words = text_at(&self.record, 0).contains(|c: char| c.is_whitespace());
        let is_one = self.record.len() == 1 && self.kind() == ReadKind::MissingField;
        is_one && has_words && self.is_of_votes()
    }

    /// Whether two rows may stand on one line: only the last field of the first, and the first of the second,
    /// are one.
    pub fn is_two_rows(&self) -> bool {
        let columns = self.seen.columns;
        columns > 2 && self.record.len() == columns.saturating_mul(2).saturating_sub(1)
    }

    /// Whether it is a project's row with an id alone.
    pub fn is_id_alone(&self) -> bool {
        let is_missing = self.kind() == ReadKind::BadMoney && self.value().is_empty();
        is_missing && self.is_of_projects() && !has_more(&self.record)
    }

    /// Whether it is the first record that is not blank.
    pub fn is_first(&self) -> bool {
        matches!(self.stage, Stage::Start)
    }

    /// Whether it is the head of the section that has just begun.
    pub fn is_same_head(&self) -> bool {
        let head = head_of(section_of(&self.stage));
        matches!(self.stage, Stage::Header(_)) && self.at(0).eq_ignore_ascii_case(head)
    }

    /// The section whose head and column names this one row seems to be.
    pub fn head_with_names(&self) -> Option<Section> {
        let odd = self.odd_head()?;
        (odd.has_names && odd.mark.at == self.mark.at).then_some(odd.section)
    }

    /// The row, read again, that has further fields and is read as a head which can't be there: this one, or
    /// the one before.
    pub fn like_head<R: Files>(&self, text: &Text<'_, R>) -> Option<TextRecords<R::File>> {
        let records = text.record_at(self.head_mark()?)?;
        if has_more(&records.last) {
            return Some(records);
        }
        drop(records);
        None
    }

    fn head_mark(&self) -> Option<Mark> {
        match (self.kind(), self.stage) {
            (ReadKind::SectionOrder, _) => Some(self.mark),
            (ReadKind::NoHeader | ReadKind::MissingColumn, Stage::Header(_)) => {
                Some(self.seen.last)
            }
            _ => None,
        }
    }

    /// Whether it is META's head, behind characters that are not seen.
    pub fn is_behind_mark(&self) -> bool {
        let word = text_at(&self.record, 0);
        let bare = word.trim_start_matches(|c: char| is_hidden(u32::from(c)));
        bare.len() < word.len() && bare.eq_ignore_ascii_case("META")
    }

    /// Whether it has only one field, and nothing in it that can be seen.
    pub fn is_invisible(&self) -> bool {
        let text = text_at(&self.record, 0);
        let are_hidden = text.chars().all(|c| is_hidden(u32::from(c)));
        self.record.len() == 1 && !text.is_empty() && are_hidden
    }

    /// Whether it lacks a field, and more is there than one word of PROJECTS or what can't be seen.
    pub fn is_short(&self) -> bool {
        let is_word = self.record.len() == 1 && self.is_of_projects();
        self.kind() == ReadKind::MissingField && !is_word && !self.is_invisible()
    }

    /// The row that seems to be meant as a section's head: one before it in the section, or this one.
    pub fn odd_head(&self) -> Option<OddHead> {
        match (self.seen.odd_head, section_of(&self.stage)) {
            _ if self.is_behind_mark() => None,
            (None, Section::Meta | Section::Projects) => odd_head_of(&self.record, self.mark),
            (odd, _) => odd,
        }
    }

    /// Why the row is one field that seems to be a whole row, if it is one.
    pub fn joined(&self) -> Option<JoinedBy> {
        match (self.kind(), joined(&self.record)) {
            (ReadKind::NoSection | ReadKind::MissingColumn, joined) => joined,
            (ReadKind::MissingField, Some(JoinedBy::Quotes)) => Some(JoinedBy::Quotes),
            _ => None,
        }
    }

    /// What separates its column names in place of `;`, if it is a row of them that seems to be one field by
    /// that.
    pub fn separators(&self) -> Option<&'static str> {
        let joined = self
            .joined()
            .filter(|_| self.kind() == ReadKind::MissingColumn);
        joined?.separators()
    }
}

/// Whether a text has a line end that the reader does not take for one.
pub fn has_other_line_end(text: &str) -> bool {
    text.contains(|c: char| OTHER_LINE_ENDS.contains(c))
}

/// Whether a space stands before the quotation mark at a field's start.
pub fn is_spaced_mark(field: &str) -> bool {
    field.starts_with(' ') && field.trim().starts_with('"')
}

/// Whether two ids have the same text before their numbers, and are as long as each other.
fn are_alike(one: &str, other: &str) -> bool {
    let is_digit = |c: char| c.is_ascii_digit();
    let begin = one.trim_end_matches(is_digit);
    one.len() == other.len()
        && !begin.is_empty()
        && begin.len() < one.len()
        && begin == other.trim_end_matches(is_digit)
}

/// The piece at this place of a vote; the whole vote if a spreadsheet made one number of it, which may have a
/// comma.
pub(crate) fn piece_of(vote: &str, place: usize) -> &str {
    if is_power(vote) {
        return vote;
    }
    vote.split(',').nth(place).unwrap_or("").trim()
}

/// Whether a text has a code of two bytes for a letter, such as `=C3=A9`.
fn has_code(text: &str) -> bool {
    let mut parts = text.split('=');
    let _ = parts.next();
    let mut is_begun = false;
    for part in parts {
        let bytes = part.as_bytes();
        if is_begun && matches!(bytes.first(), Some(b'8' | b'9' | b'A' | b'B')) {
            return true;
        }
        is_begun = matches!(bytes, [b'C'..=b'E', _]);
    }
    false
}
