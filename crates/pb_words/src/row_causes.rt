//! What the row of a vote, or one of PROJECTS, shows of why ids of the vote are unknown.

use crate::faulty_record::LINE_ENDS;
use crate::prelude::*;
use crate::unknown_texts::{
    LATE_PROJECT, ODD_LETTER, OF_OTHER_ALPHABET, WEB_FORM, WRITTEN_TWICE, is_cut_code,
};
use crate::unknown_words::is_of_other_alphabet;
use pb_core::money::Money;
use pb_read::Column;
use pb_seen::changed::{Difference, has_word, is_digits, is_one_of};
use pb_seen::fields::{column_of, raw_text};
use pb_witness::cause::Cause;
use pb_witness::faulty_record::{FaultyRecord, has_other_line_end, is_spaced_mark};
use pb_witness::known::FoundCause;
use pb_witness::quote::Span;

/// What to do about a row that a code of a web page has cut.
pub(crate) const CUT_CODE: &str =
    "A code of a web page, such as `&amp;`, stands in the row, and its `;` has cut it. Get the file again, as text.\n";

/// What to do about a mark that a database escaped.
pub(crate) const ESCAPED: &str =
    "Write `\"\"` in place of each `\\\"`, or save the file again without such escapes.\n";

/// What to do about a space before a mark.
pub(crate) const SPACED: &str = "Delete the space between `;` and the quotation mark.\n";

/// What to do about a vote of zeros and ones.
pub const OF_MARKS: &str =
    "The vote is a row of zeros and ones: it may have a 1 for each project that the voter chose, in the order of a list. If so, find out that order, and write in all votes the ids of the projects with a 1. If not, look at the ballots.\n";

/// What to do about votes with commas as in an address of the web, with marks of a program before them, with ids and names, and as
/// a list of PHP.
const OF_ADDRESS: &str =
    "The vote is written as in an address of the web: `%2C` is a comma. Write `,` in its place, in all votes.\n";

const ESCAPED_COMMAS: &str = "A program wrote a `\\` before each comma. Delete it, in all votes.\n";

const NAMES_BETWEEN: &str =
    "The vote has ids and what they stand for, with `;#` between them, as SharePoint writes them. Write the ids alone, with `,` between them.\n";

const OF_PHP: &str =
    "The vote is a list as PHP writes it: `s:2:\"12\"` is the text 12. Write these texts alone, with `,` between them.\n";

/// What people write for the vote above, and what to do about it.
const DITTOS: &str =
    "\"|\"\"|''|\u{b4}\u{b4}|\u{201c}|\u{201d}|\u{201e}|\u{3003}|-\"-|do|do.|dto|dto.|ditto|idem|jw|j.w.|s.o.|as above|same|same as above";

const DITTO: &str =
    "This may stand for the vote above. Look at the ballots of all such rows, and write the ids that these voters chose. Don't delete it before that.\n";

/// What to do about a vote that is a formula, and about one that is a number with two decimals.
const OF_CELLS: &str =
    "`=` begins a formula, so this may name a cell of the table, and no project. Get the votes again, as values.\n";

const TWO_DECIMALS: &str =
    "A spreadsheet may have read the votes as numbers with two decimals: `1,3` as 1,30, and 1 as 1,00. Then votes with known ids are wrong too. Get all votes again, as text.\n";

/// What to do about a project's row that stands in another section.
const SLID_UP: &str =
    "The row on line {}, in META, begins with this id, and has an amount: it seems to be this project's. If so, move it below the column names of PROJECTS.\n";

const SLID_DOWN: &str =
    "The first row of VOTES, on line {}, begins with this id, and has an amount: it seems to be this project's. If so, move it above the heading VOTES.\n";

/// How long a project's name is, in bytes, by which its row is told from that of a voter.
const LONG_NAME: usize = 10;

/// What to do about unknown ids that are Roman numerals.
const ROMAN: &str =
    "These ids may be Roman numerals, such as IV for 4. Compare some of these votes with the ballots. If so, write the ids of PROJECTS in their place. If not, look at all of these ballots, and write the ids that are meant.\n";

/// What to do about an id that is like one project's but for zeros, and like this one's.
const OR_A_LETTER: &str =
    "The project {} on line {} has a letter in place of a digit, and may be meant too. Look at each ballot, and write the id of the project that is meant there.\n";

/// What a web form sends for a box that is ticked and has no value.
const TICKED: &str = "on|checked";

/// Whether a vote is what a web form sends for boxes without values, and nothing else.
fn is_of_boxes(vote: &str) -> bool {
    vote.split(',').all(|piece| is_one_of(TICKED, piece.trim()))
}

/// Whether a vote is zeros and ones alone, three or more.
pub fn is_of_marks(vote: &str) -> bool {
    let is_mark = |piece: &str| matches!(piece.trim(), "0" | "1");
    vote.split(',').count() > 2 && vote.split(',').all(|piece| is_mark(piece))
}

/// Whether a vote begins as a formula does that names a cell of a table.
fn is_of_cells(vote: &str) -> bool {
    let is_begun = |c: char| c.is_ascii_alphabetic() || c == '$';
    vote.strip_prefix('=')
        .is_some_and(|cell| cell.starts_with(is_begun))
}

/// Whether a vote is a whole number with `,00` behind it.
fn is_of_decimals(vote: &str) -> bool {
    vote.strip_suffix(",00").is_some_and(is_digits)
}

/// What to do about a vote that shows by itself why its ids are unknown; `is_open` if nothing else is known of that.
pub(crate) fn vote_cause(vote: &str, is_open: bool) -> Option<&'static str> {
    if is_open && is_of_boxes(vote) {
        Some(WEB_FORM)
    } else if is_of_marks(vote) {
        Some(OF_MARKS)
    } else if is_one_of(DITTOS, vote.trim()) {
        Some(DITTO)
    } else if is_of_cells(vote) {
        Some(OF_CELLS)
    } else if is_open && is_of_decimals(vote) {
        Some(TWO_DECIMALS)
    } else {
        written_by(vote)
    }
}

/// What to do about a vote that is written as a program writes lists, if it is.
fn written_by(vote: &str) -> Option<&'static str> {
    let is_of_php = vote.starts_with("a:") && has_word(vote, ";s:");
    if has_word(vote, "%2c") {
        Some(OF_ADDRESS)
    } else if has_word(vote, "\\,") {
        Some(ESCAPED_COMMAS)
    } else if has_word(vote, ";#") {
        Some(NAMES_BETWEEN)
    } else {
        is_of_php.then_some(OF_PHP)
    }
}

/// What to do about a row with more fields than there are column names, if it shows why: line ends of another kind, a code
/// of a web page, or quotation marks that are not read as such.
pub fn cut_cause(record: &ByteRecord, span: Span) -> Option<&'static str> {
    if has(record, |field| has_other_line_end(field)) {
        Some(LINE_ENDS)
    } else if has(record, |field| is_cut_code(field)) {
        Some(CUT_CODE)
    } else if span.escaped.is_some() {
        Some(ESCAPED)
    } else if has(record, |field| is_spaced_mark(field)) {
        Some(SPACED)
    } else {
        None
    }
}

/// Whether a field of a row is so.
fn has<P: Fn(&str) -> bool>(record: &ByteRecord, is_so: P) -> bool
    requires { P.IsAlwaysCallable is_so }
{
    (0..record.len()).any(|place| is_so(raw_text(record, place)))
}

/// Whether two ids are the same but for letters that look like the digits of the first.
fn is_like_by_letters(one: &str, other: &str) -> bool {
    let is_like = |(one, other): (&u8, &u8)| {
        one == other || matches!((*one, *other), (b'0', b'O' | b'o') | (b'1', b'I' | b'l'))
    };
    one.len() == other.len() && one.as_bytes().iter().zip(other.as_bytes()).all(is_like)
}

/// Whether a character is a mark above or below the letter before it.
fn is_mark(c: char) -> bool {
    matches!(u32::from(c), 0x300..=0x36f)
}

/// Whether an id has only letters of Roman numerals.
fn is_roman(id: &str) -> bool {
    id.as_bytes()
        .iter()
        .all(|byte| matches!(*byte, b'I' | b'V' | b'X'))
}

impl<R: Files> Case<'_, R> {
    /// Puts what to do where an id may be read in two ways, as far as it is known: as a Roman numeral, or as that of two projects.
    /// Answers whether it may.
    pub(crate) fn put_two_ways(&self, out: &mut WordsWriter, found: &FoundCause) -> bool {
        if self.are_roman() {
            out.put(ROMAN);
            return true;
        }
        let is_of_zeros = matches!(
            found.cause,
            Cause::Kept | Cause::Alike(Difference::Zeros, _)
        );
        let id = self.faulty.piece();
        let is_other = |place: &u32| {
            Some(*place) != found.project && is_like_by_letters(id, self.id_of(*place))
        };
        let other = (0..self.projects()).find(|place| is_of_zeros && is_other(place));
        let Some(row) = other.and_then(|place| self.known.again.projects.row(place)) else {
            return false;
        };
        let line = line_of(self.text, row.mark);
        out.fill(OR_A_LETTER, &[Quoted(row.id.as_str()), Number(line)]);
        true
    }

    /// Whether nothing certain is known of why this id is unknown.
    pub(crate) fn is_open(&self, cause: Cause) -> bool {
        is_cut_code(self.faulty.piece())
            || matches!(
                cause,
                Cause::Unknown
                    | Cause::Near
                    | Cause::OtherForm
                    | Cause::OddLetter
                    | Cause::Word
                    | Cause::OtherElection
                    | Cause::Nothing
                    | Cause::Shifted
                    | Cause::Alike(Difference::Front, _)
            )
    }

    /// What to do about an id with this letter, which no project's id has.
    pub(crate) fn odd_text(&self, letter: char) -> &'static str {
        let has_mark = |place: u32| self.id_of(place).contains(is_mark);
        if is_mark(letter) || (!letter.is_ascii() && (0..self.projects()).any(has_mark)) {
            WRITTEN_TWICE
        } else if is_of_other_alphabet(letter) {
            OF_OTHER_ALPHABET
        } else {
            ODD_LETTER
        }
    }

    /// Whether all ids that no project has are Roman numerals, several and one of two letters or more, and those of the projects are
    /// numbers.
    fn are_roman(&self) -> bool {
        let unknown = &self.known.witness.unknown.found;
        unknown.len() > 1
            && unknown.iter().all(|it| is_roman(it.id.as_str()))
            && unknown.iter().any(|it| it.id.as_str().len() > 1)
            && (0..self.projects()).all(|place| is_digits(self.id_of(place)))
    }

    /// Puts what the row of a vote shows of why its ids are unknown, and what to do; answers whether it shows
    /// something.
    pub(crate) fn put_row_cause(&self, out: &mut WordsWriter) -> bool {
        if is_cut_code(self.faulty.piece()) {
            out.put(CUT_CODE)
        } else if let Some(place) = self.known.again.elsewhere {
            self.put_elsewhere(out, place)
        } else if self.faulty.has_titles() {
            out.put(
                "If this row has titles or types of the columns, and is no vote, delete it; also a line of dashes below their names. If not, ask whoever made the file what is meant.\n",
            )
        } else if self.faulty.is_like_project(self.text) {
            out.put(LATE_PROJECT)
        } else if let Some(mark) = self.late_row(self.faulty.piece()) {
            out.fill(
                "The row on line {}, below the heading VOTES, looks like this project. Correct that line first.\n",
                &[Number(line_of(self.text, mark))],
            )
        } else if let Some((mark, words)) = self.slid_project(self.faulty.piece()) {
            out.fill(words, &[Number(line_of(self.text, mark))])
        } else if let Some(mark) = self.in_project(self.faulty.piece()) {
            out.fill(
                "The row of PROJECTS on line {}, which has a fault, has this id in another column: its fields may be in another order. Correct that line first.\n",
                &[Number(line_of(self.text, mark))],
            )
        } else if let Some((moved, place)) = self.moved_of() {
            self.put_moved(out, moved, place)
        } else if let Some(mark) = self.broken_project() {
            out.fill(
                "The row of PROJECTS on line {} has a fault, and may be this project's. Correct that line first.\n",
                &[Number(line_of(self.text, mark))],
            )
        } else {
            return false;
        }
        true
    }

    /// Whether the row has the same names as the section's row of column names.
    pub(crate) fn has_names_again(&self) -> bool {
        let is_same = |names: &ByteRecord| {
            let is_it = |place: usize| text_at(names, place).eq_ignore_ascii_case(
                self.faulty.at(place),
            );
            names.len() == self.faulty.record.len() && (0..names.len()).all(is_it)
        };
        let names = self.text.row_at(self.faulty.seen.names);
        names.is_some_and(|names| is_same(&names))
    }

    /// Puts which column of PROJECTS, by its place, has all unknown ids.
    fn put_elsewhere(&self, out: &mut WordsWriter, place: usize) {
        let Some(names) = self.text.row_at(self.faulty.seen.project_names) else {
            return;
        };
        let (piece, first) = (self.faulty.piece(), self.id_of(0));
        if text_at(&names, place).eq_ignore_ascii_case(Column::Cost.name()) {
            out.put(
                "All ids that no project has stand in column `cost`: the names `project_id` and `cost` may be exchanged, or the votes may have costs in place of ids. Compare some votes with the ballots. If the ballots have the ids of that column, exchange the two names. If they differ, get the votes again.\n",
            )
        } else if self.are_of_both() && is_digits(piece) != is_digits(first) {
            out.fill(
                "All ids that no project has stand in column {}, and other votes have ids of `project_id`. There may be two lists, as one on paper and one on the web. If so, write in these votes the `project_id` of the row that has this there. If the ballots differ from the votes, get the votes again.\n",
                &[Quoted(text_at(&names, place))],
            )
        } else {
            out.fill(
                "All ids that no project has stand in column {}. Compare some votes with the ballots. If they differ, get the votes again. If the ballots have the ids of that column, call it `project_id`, and the other one `comment`.\n",
                &[Quoted(text_at(&names, place))],
            )
        }
    }

    /// Whether votes that are accepted name projects.
    fn are_of_both(&self) -> bool {
        let rows = &self.known.witness.rows;
        (0..self.projects()).any(|place| rows.is_named(place))
    }

    /// Where a row of VOTES was refused that seems to be the project with this id.
    fn late_row(&self, id: &str) -> Option<Mark> {
        let mut refused = self.known.witness.refused.iter();
        let found = refused.find(|it| it.id() == id && it.is_like_project(self.text))?;
        Some(found.mark)
    }

    /// Where a row of META, or the first row of VOTES, has this id and an amount where projects have them, and what to do about it:
    /// one of META with a text behind, one of VOTES with a long one and without a vote.
    fn slid_project(&self, id: &str) -> Option<(Mark, &'static str)> {
        let seen = &self.faulty.seen;
        let names = self.text.row_at(seen.project_names)?;
        let own = column_of(&names, Column::ProjectId.name())?;
        let cost = column_of(&names, Column::Cost.name())?;
        let has_text = |row: &ByteRecord, length: usize| {
            let is_text = |place: usize| place != own
                && place != cost
                && text_at(row, place).len() >= length;
            (0..row.len()).any(is_text)
        };
        let is_it = |row: &ByteRecord| text_at(row, own) == id
            && Money::read(text_at(row, cost)).is_ok();
        let is_head = |row: &ByteRecord| text_at(row, 0).eq_ignore_ascii_case("PROJECTS");
        let (row, mark) = self
            .text
            .find(Mark::start(), |row| is_head(row) || is_it(row))?;
        if !is_head(&row) && has_text(&row, 1) {
            return Some((mark, SLID_UP));
        }
        let (row, mark) = self.text.find(seen.names, |_| true)?;
        let (_, vote) = self.faulty.places();
        let is_slid = is_it(&row) && text_at(&row, vote).is_empty() && has_text(&row, LONG_NAME);
        is_slid.then_some((mark, SLID_DOWN))
    }

    /// Where a row of PROJECTS was refused that has this id in one of its fields.
    fn in_project(&self, id: &str) -> Option<Mark> {
        let mut refused = self.known.witness.refused.iter();
        let has_it = |it: &FaultyRecord| (0..it.record.len()).any(|place| it.at(place) == id);
        let found = refused.find(|it| it.is_of_projects() && has_it(it))?;
        Some(found.mark)
    }

    /// Where a row of PROJECTS was refused whose id is missing, an amount, or this one and more, if no other
    /// cause is known.
    fn broken_project(&self) -> Option<Mark> {
        let piece = self.faulty.piece();
        let cause = self.known.cause_of(piece)?.cause;
        if !matches!(cause, Cause::Unknown | Cause::Near | Cause::OtherForm) {
            return None;
        }
        let is_moved = |id: &str| {
            id.is_empty() || id.starts_with(piece) || Money::read(id).is_ok()
        };
        let mut refused = self.known.witness.refused.iter();
        let found = refused.find(|it| it.is_of_projects() && is_moved(it.id()))?;
        Some(found.mark)
    }

    /// The vote, or else another one that is refused for the same cause, in whose row another field names
    /// projects, and the place of that field.
    fn moved_of(&self) -> Option<(&FaultyRecord, usize)> {
        let ids = &self.known.witness.ids;
        if let Some(place) = self.faulty.moved(ids) {
            return Some((self.faulty, place));
        }
        let cause = self.known.cause_of(self.faulty.piece())?.cause;
        let mut refused = self.known.witness.refused.iter();
        let other = refused.find(|it| {
            let found = self.known.cause_of(it.piece());
            let is_same = found.is_some_and(|found| found.cause == cause && cause.is_shared());
            is_same && it.kind() == ReadKind::UnknownProject && it.moved(ids).is_some()
        })?;
        Some((other, other.moved(ids)?))
    }

    /// Puts which field of a row, the one at this place, names projects.
    pub(crate) fn put_moved(&self, out: &mut WordsWriter, moved: &FaultyRecord, place: usize) {
        out.fill("{}", &[Quoted(moved.at(place))]);
        if let Some(names) = self.text.row_at(moved.seen.names) {
            out.fill(" in column {}", &[Quoted(text_at(&names, place))]);
        }
        let is_same = moved.mark.at == self.faulty.mark.at;
        let rows = if is_same { "this row" } else { "these rows" };
        out.fill(
            " names projects: the fields of {} may be in another order. If so, put them below their column names. If not, ask whoever made the file.\n",
            &[Own(rows)],
        )
    }
}
