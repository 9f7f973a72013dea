//! Rows that a quotation mark swallowed: a field in quotes that runs over several lines has them in it.

use crate::fields::has_lines;
use crate::firsts::names_other;
use crate::heads::is_head;
use crate::prelude::*;
use pb_read::MetaKey;

/// The lines of a field behind its first; the empty text where it has no others.
pub fn later_lines(record: &ByteRecord, place: usize) -> &str {
    raw_text(record, place)
        .split_once('\n')
        .map_or("", |(_, later)| later)
}

/// Whether a field of a row has a line in it that seems to be a section's head, or a row of META that the
/// count uses.
pub fn swallows_head(record: &ByteRecord) -> bool {
    let is_one = |line: &str| is_head(field_of(line, 0))
        || MetaKey::of(field_of(line, 0)).is_some();
    has_lines(record)
        && (0..record.len()).any(|place| later_lines(record, place).split('\n').any(is_one))
}

/// Whether a field of a row has a line in it that seems to be a row of the same part of the file, which has
/// so many column names. The ids of the projects before it are given.
pub fn swallows_row(record: &ByteRecord, part: Part, names: usize, projects: &Firsts) -> bool {
    if !has_lines(record) {
        return false;
    }
    for place in 0..record.len() {
        if joins_two(record, place, names) {
            return true;
        }
        let (first, lines) = raw_text(record, place).split_once('\n').unwrap_or(("", ""));
        let lines = lines.strip_suffix('\n').unwrap_or(lines);
        let last = lines.split('\n').count();
        for (number, line) in lines.split('\n').enumerate() {
            // Behind the last line the fields of the row go on.
            let is_last = number.saturating_add(1) == last;
            let behind = if is_last {
                record.len().saturating_sub(place)
            } else {
                1
            };
            let count = line.split(';').count();
            let goes_on = is_last && count > place && is_end(first, place, part, projects);
            if count.saturating_add(behind) > names && (goes_on || is_row(line, part, projects)) {
                return true;
            }
        }
    }
    false
}

/// Whether the lines of a field seem to be the end of a row and the beginning of another one: with them both rows have a
/// field for each name, and a quotation mark is left over.
fn joins_two(record: &ByteRecord, place: usize, names: usize) -> bool {
    let field = raw_text(record, place);
    let first = field.split_once('\n').map_or("", |(first, _)| first);
    let last = field.rsplit('\n').next().unwrap_or("");
    let (ends, begins) = (first.split(';').count(), last.split(';').count());
    let behind = record.len().saturating_sub(place);
    let is_left = field.split('"').count() % 2 == 0;
    is_left
        && ends > 1
        && begins > 1
        && place.saturating_add(ends) == names
        && begins.saturating_add(behind) == names.saturating_add(1)
}

/// Whether a line seems to be a row of META that the count uses, of a project with a cost, or of a voter who
/// votes for these projects; within the name of a column any row.
fn is_row(line: &str, part: Part, projects: &Firsts) -> bool {
    match part {
        Part::Key if line.contains(';') => match MetaKey::of(field_of(line, 0)) {
            None => false,
            Some(MetaKey::VoteType) => true,
            Some(_) => Money::read(field_of(line, 1)).is_ok(),
        },
        Part::Project(columns) => {
            !field_of(line, columns.id).is_empty()
                && Money::read(field_of(line, columns.cost)).is_ok()
        }
        Part::Vote(columns) => {
            !field_of(line, columns.voter).is_empty()
                && names_other(field_of(line, columns.vote), &[], projects).is_some()
        }
        Part::Names(_) => line.contains(';'),
        _ => false,
    }
}

/// Whether a line whose first field is at this place of a row seems to end it: a cost is behind that, or a vote
/// for these projects.
fn is_end(line: &str, place: usize, part: Part, projects: &Firsts) -> bool {
    let behind = |column: usize| match column.checked_sub(place) {
        None | Some(0) => "",
        Some(further) => field_of(line, further),
    };
    match part {
        Part::Project(columns) => Money::read(behind(columns.cost)).is_ok(),
        Part::Vote(columns) => names_other(behind(columns.vote), &[], projects).is_some(),
        _ => false,
    }
}

/// The text at this place of a line, whose fields are separated by `;`; the empty text where the line ends
/// before it.
fn field_of(line: &str, place: usize) -> &str {
    line.split(';').nth(place).unwrap_or("").trim()
}

/// How many column names there are if a row stands behind them: the last name and the first field are one.
pub fn columns_of(names: &ByteRecord) -> usize {
    names.len().saturating_add(1) / 2
}

/// The place of the cost, or of the vote, of a row behind these column names, if one seems to stand there.
pub fn place_of_row(names: &ByteRecord, section: Section, projects: &Firsts) -> Option<usize> {
    let needed = match section {
        Section::Meta => return None,
        Section::Projects => Column::Cost,
        Section::Votes => Column::Vote,
    };
    let own = column_of(names, needed.name())?;
    let place = columns_of(names).saturating_sub(1).saturating_add(own);
    let value = text_at(names, place);
    let is_value = match section {
        Section::Votes => names_other(value, &[], projects).is_some(),
        _ => Money::read(value).is_ok(),
    };
    let are_two = names.len() % 2 == 1 && own > 0;
    (is_value && are_two).then_some(place)
}

/// The last name of PROJECTS and the first id, which are one field, if the first row stands behind the names.
pub fn name_with_id<'n>(names: &'n ByteRecord, projects: &Firsts) -> &'n str {
    match place_of_row(names, Section::Projects, projects) {
        Some(_) => text_at(names, columns_of(names).saturating_sub(1)),
        None => "",
    }
}
