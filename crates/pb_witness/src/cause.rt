//! Why a vote names an id that no project has.

use crate::projects::{By, Projects};
use crate::unknown::Unknown;
use crate::witness::Witness;
use pb_read::Column;
use pb_seen::amounts::{comes_next, whole_number};
use pb_seen::changed::{
    Difference, has_digit, how_differs, is_date, is_decimal, is_empty_list, is_nothing, is_power,
    is_tick, is_word, without_hidden,
};
use pb_seen::ids::Ids;
use std::alloc::AllocError;
use std::str;

/// Why a vote names an id that no project has.
#[derive(Clone, Copy, PartialEq, Eq)]
pub enum Cause {
    /// The project's row is left out.
    LeftOut,
    /// PROJECTS has no rows.
    NoProjects,
    /// The id is in a row that a quotation mark swallowed, is cut by a comma, or has a line's end.
    Swallowed,
    Cut,
    Lines,
    /// The row has the column names again.
    NamesAgain,
    /// It is several ids with this between them, or with nothing.
    OnLines,
    /// It has a line end: behind it may be another vote, the rest of an id, or a note.
    TwoLines,
    Blanks,
    Bars,
    Marks,
    Together,
    /// It is an id with this around it.
    Brackets,
    Quotes,
    /// It is what a spreadsheet shows where a formula is wrong.
    Formula,
    /// It is a line of subject as the source of an e-mail has it.
    Subject,
    /// It is a list with nothing in it.
    EmptyList,
    /// It is an id in brackets, and not the whole vote is; or the vote is, but not all votes are.
    OneInBrackets,
    SomeInBrackets,
    /// It is an id, or several, that a program or a spreadsheet changed.
    PointZero,
    Decimal,
    Shortened,
    Date,
    /// It says that nothing is there, alone or beside ids, or is perhaps a place from 0, or says whether a
    /// project is approved.
    Nothing,
    Beside,
    Places,
    Columns,
    /// It is alike the id of a project, in the vote or (where true) in PROJECTS.
    Alike(Difference, bool),
    /// It is alike the ids of several projects; or that of one begins with it.
    Several,
    Begun,
    /// It is a project's name, or stands in one; or is an id and more: a range, several with a word between,
    /// or another.
    Name,
    Mentioned,
    Range,
    Joined,
    More,
    /// The id of a project was changed.
    ChangedProject,
    /// It is a word in place of ids.
    Word,
    /// It ends in three dots.
    CutOff,
    /// It lacks the zeros that the id of a project has, also in other votes.
    Kept,
    /// It has a character that no id of a project has.
    OddLetter,
    /// Votes may have other ids than PROJECTS, such as the numbers of rows.
    Shifted,
    /// No vote names a project.
    OtherElection,
    /// None is known: no id has its form, or one has it nearly, or exactly.
    OtherForm,
    Near,
    Unknown,
}

impl Cause {
    /// Whether words for one id say it of each.
    pub fn is_shared(self) -> bool {
        !matches!(
            self,
            Cause::LeftOut
                | Cause::Swallowed
                | Cause::Cut
                | Cause::Lines
                | Cause::Mentioned
                | Cause::Near
                | Cause::Unknown
        )
    }
}

/// What between ids makes several of them one piece.
const BETWEEN: [(char, Cause); 9] = [
    (' ', Cause::Blanks),
    ('|', Cause::Bars),
    (';', Cause::Marks),
    ('\u{ff0c}', Cause::Marks),
    ('\u{3001}', Cause::Marks),
    ('\u{60c}', Cause::Marks),
    ('/', Cause::Marks),
    ('+', Cause::Marks),
    ('&', Cause::Marks),
];

/// What is around ids in a list that a program wrote.
const LIST_QUOTES: &str = "'\"";

/// What is a comma in other scripts.
const OTHER_COMMAS: &str = "\u{ff0c}\u{3001}\u{60c}";

/// How long a text may be, in bytes, that is looked at for ids with nothing between them.
const LONGEST_RUN: usize = 64;

/// Why a vote names this id, which no project has, and the place of the project that it is about. The file
/// has a column for each project, or not, and may be of two elections, or not.
pub(crate) fn cause_of(
    unknown: &Unknown,
    witness: &Witness,
    projects: &Projects,
    (has_columns, is_other): (bool, bool),
) -> Result<(Cause, Option<u32>), AllocError> {
    let id = unknown.id.as_str();
    let plain = plain_cause(id, &witness.ids, has_columns);
    let plain = match plain {
        Some(Cause::Nothing) if unknown.is_beside && id == "0" => Some(Cause::Places),
        Some(Cause::Nothing) if unknown.is_beside => Some(Cause::Beside),
        Some(Cause::Brackets) if !unknown.is_in_brackets => Some(Cause::OneInBrackets),
        Some(Cause::Brackets) if are_marked(witness) && !is_of_program(id) => {
            Some(Cause::SomeInBrackets)
        }
        Some(cause) if witness.rows.have_commas() => Some(beside_lists(cause, id)),
        plain => plain,
    };
    if let Some(cause) = plain {
        return Ok((cause, None));
    }
    for by in [By::Id, By::Digits, By::Number, By::Name, By::Mention] {
        // Where no id has a letter, one letter is no digit that was misread.
        let is_letter = by == By::Digits && id.len() == 1 && projects.are_numbered;
        if let Some(place) = projects.find(by, id)?.filter(|_| !is_letter) {
            let (cause, project) = cause_by(by, id, projects, place);
            let lacks_zeros = cause == Cause::Alike(Difference::Zeros, false);
            if lacks_zeros && witness.rows.is_named(place) {
                return Ok((Cause::Kept, project));
            }
            return Ok((cause, project));
        }
    }
    if let Some(place) = projects.begun(id) {
        return Ok((Cause::Begun, Some(place)));
    }
    match last_cause(id, witness, projects, is_other) {
        (Cause::Unknown, _)
            if (unknown.is_beside || has_digit(id)) && projects.has_form(id, true)? => {
            Ok((Cause::Unknown, None))
        }
        (Cause::Unknown, _) if projects.has_form(id, false)? => Ok((Cause::Near, None)),
        (Cause::Unknown, _) => Ok((Cause::OtherForm, None)),
        other => Ok(other),
    }
}

/// What this cause of an id is where other votes are lists with commas: there another sign between ids may say
/// more.
fn beside_lists(cause: Cause, id: &str) -> Cause {
    let has_comma = id.contains(|c: char| OTHER_COMMAS.contains(c));
    match cause {
        Cause::OnLines => Cause::TwoLines,
        Cause::Blanks | Cause::Bars => Cause::Range,
        Cause::Marks if !has_comma => Cause::Range,
        cause => cause,
    }
}

/// Whether somebody may have put some votes in brackets: others have none, and it is not so that those of several ids have
/// them and those of one have none, as where a program writes a list or one value.
fn are_marked(witness: &Witness) -> bool {
    let rows = &witness.rows;
    rows.has_bare && (rows.has_list || witness.unknown.has_one_in_brackets)
}

/// Whether brackets around an id are those of a list that a program wrote: it has quotation marks, or is R's.
fn is_of_program(id: &str) -> bool {
    id.starts_with("c(") || id.contains(|c: char| LIST_QUOTES.contains(c))
}

/// The cause of an id by which this project is found, or several are.
fn cause_by(by: By, id: &str, projects: &Projects, place: u32) -> (Cause, Option<u32>) {
    let Some(row) = projects.row(place) else {
        return (Cause::Several, None);
    };
    let cause = match by {
        By::Id => {
            let (difference, is_changed) = how_differs(id, row.id.as_str());
            Cause::Alike(difference, is_changed)
        }
        By::Digits => Cause::Alike(Difference::Letters, false),
        By::Number => Cause::Alike(Difference::Front, false),
        By::Name => Cause::Name,
        _ => Cause::Mentioned,
    };
    (cause, Some(place))
}

/// The cause that an id shows by itself, or beside ids of projects.
fn plain_cause(id: &str, ids: &Ids, has_columns: bool) -> Option<Cause> {
    let cause = if ids.left_out.has(id) {
        Cause::LeftOut
    } else if ids.projects.len() == 0 && ids.left_out.len() == 0 {
        Cause::NoProjects
    } else if ids.swallowed.has(id) || ids.are_behind_names(id) {
        Cause::Swallowed
    } else if ids.pieces.has(id) {
        Cause::Cut
    } else if ids.are_apart_by(id, '\n') {
        Cause::OnLines
    } else if id.contains('\n') && id.contains(';') {
        Cause::Lines
    } else if id.contains('\n') {
        Cause::TwoLines
    } else if id.eq_ignore_ascii_case(Column::Vote.name()) {
        Cause::NamesAgain
    } else if id.ends_with("...") || id.ends_with('\u{2026}') {
        Cause::CutOff
    } else if is_empty_list(id) {
        Cause::EmptyList
    } else if let Some(cause) = wrapped(id, ids) {
        cause
    } else if let Some((_, cause)) = BETWEEN.iter().find(|(mark, _)| ids.are_apart_by(id, *mark)) {
        *cause
    } else if has_columns && is_tick(id) {
        Cause::Columns
    } else if is_formula(id) {
        Cause::Formula
    } else if is_nothing(id.trim_matches(|c: char| "[](){}<>".contains(c))) {
        Cause::Nothing
    } else {
        return changed(id, ids);
    };
    Some(cause)
}

/// Whether a text is what a spreadsheet shows where a formula is wrong.
fn is_formula(text: &str) -> bool {
    let is_named = text.starts_with('#') && (text.ends_with('!') || text.ends_with('?'));
    is_named || text.starts_with("Err:")
}

/// Whether a text is one that the source of an e-mail has in codes, such as `=?UTF-8?B?MSwy?=`.
pub(crate) fn is_subject(text: &str) -> bool {
    text.starts_with("=?") && text.ends_with("?=")
}

/// What is around an id, so that it is none.
fn wrapped(id: &str, ids: &Ids) -> Option<Cause> {
    let begin = id.strip_prefix("c(").unwrap_or(id);
    let is_wrap = |c: char| "[](){}".contains(c);
    let bare = without_hidden(begin.trim_matches(is_wrap));
    let open = bare.trim_matches(
        |c: char| "\"'`\u{201e}\u{201c}\u{201d}\u{2018}\u{2019}\u{ab}\u{bb}".contains(c),
    );
    if !ids.projects.has(open) {
        return None;
    }
    if id.contains(is_wrap) && bare.len() < id.len() {
        return Some(Cause::Brackets);
    }
    if open.len() < bare.len() {
        return Some(Cause::Quotes);
    }
    None
}

/// How an id, or several, was changed by a program or a spreadsheet.
fn changed(id: &str, ids: &Ids) -> Option<Cause> {
    let whole = id.strip_suffix(".0").unwrap_or("");
    if ids.projects.has(whole) && !ids.projects.has("0") {
        return Some(Cause::PointZero);
    }
    if is_decimal(id) {
        let (one, other) = id.split_once('.').unwrap_or((id, ""));
        if ids.projects.has(one) || ids.projects.has(other) {
            return Some(Cause::Decimal);
        }
    }
    if is_subject(id) {
        Some(Cause::Subject)
    } else if is_power(id) {
        Some(Cause::Shortened)
    } else if is_date(id, false) {
        Some(Cause::Date)
    } else if is_together(id, ids) {
        Some(Cause::Together)
    } else {
        None
    }
}

/// Whether a text that is no id is several, one behind the other.
fn is_together(text: &str, ids: &Ids) -> bool {
    let mut ends = [false; LONGEST_RUN];
    for end in 1..=text.len().min(LONGEST_RUN) {
        let is_id = |begin: usize| {
            let id = text
                .as_bytes()
                .get(begin..end)
                .and_then(|bytes| str::from_utf8(bytes).ok());
            let is_begun = begin == 0 || ends.get(begin.saturating_sub(1)) == Some(&true);
            // A vote names no id twice.
            let is_again = |id: &str| end == text.len() && text.starts_with(id);
            is_begun && id.is_some_and(|id| ids.projects.has(id) && !is_again(id))
        };
        let is_end = (0..end).any(is_id);
        if let Some(it) = ends.get_mut(end.saturating_sub(1)) {
            *it = is_end;
        }
    }
    ends.get(text.len().saturating_sub(1)) == Some(&true)
}

/// The cause of an id that is like none of a project.
fn last_cause(
    id: &str,
    witness: &Witness,
    projects: &Projects,
    is_foreign: bool,
) -> (Cause, Option<u32>) {
    let is_beside = |c: char| !c.is_alphanumeric() && (":=(#".contains(c) || projects.lacks(c));
    let is_id = |part: &str| witness.ids.projects.has(part.trim());
    let parts = id.split(is_beside).filter(|part| is_id(part)).count();
    let is_dash = |c: char| "-:>\u{2013}\u{2192}".contains(c);
    let is_other = |word: &str| !word.is_empty() && !is_id(word) && !has_digit(word);
    let ends = id.split_once(is_dash).unwrap_or(("", ""));
    let cause = if is_id(ends.0) && is_id(ends.1) {
        Cause::Range
    } else if parts > 1 && id.split(|c: char| c.is_whitespace()).any(is_other) {
        Cause::Joined
    } else if parts > 1 {
        Cause::Range
    } else if parts > 0 {
        Cause::More
    } else if projects.changed.is_some() {
        return (Cause::ChangedProject, projects.changed);
    } else if is_foreign {
        Cause::OtherElection
    } else if is_word(id)
        || (is_tick(id) && id.len() > 1)
        || (projects.have_digits && !has_digit(id))
    {
        Cause::Word
    } else if odd_letter(id, projects).is_some() {
        Cause::OddLetter
    } else {
        Cause::Unknown
    };
    (cause, None)
}

/// Whether votes may have other ids than PROJECTS: several that no project has have numbers above all of its ids;
/// or one is unknown, which comes next to the last project or before the first, and no vote names the
/// project at the other end.
pub(crate) fn are_shifted(witness: &Witness, projects: &Projects) -> bool {
    let unknown = witness.unknown.found.as_slice();
    let above = unknown
        .iter()
        .filter(|it| projects.are_below(it.id.as_str()));
    if above.count() > 1 {
        return true;
    }
    let last_place = u32::try_from(witness.ids.projects.len().saturating_sub(1)).unwrap_or(0);
    let ends = (projects.row(0), projects.row(last_place));
    let ([one], (Some(first), Some(last))) = (unknown, ends) else {
        return false;
    };
    let is_named = |place: u32| witness.rows.is_named(place);
    let id = one.id.as_str();
    (comes_next(id, last.id.as_str()) && !is_named(0))
        || (comes_next(first.id.as_str(), id) && !is_named(last_place))
}

/// The first character of an id that no project's id has, and that is no letter or digit of ASCII.
pub fn odd_letter(id: &str, projects: &Projects) -> Option<char> {
    id.chars()
        .find(|c| !c.is_ascii_alphanumeric() && projects.lacks(*c))
}
