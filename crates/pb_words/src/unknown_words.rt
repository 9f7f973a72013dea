//! Words for a vote that names an id which no project has.

use crate::command_words::{put_clean, put_dropping};
use crate::prelude::*;
use crate::read_texts::NOTE;
use crate::row_causes::vote_cause;
use crate::unknown_texts::{
    ALL_WITHDRAWN, COUNTED_ON, EXAMPLE, FOR_A_BOX, LAST_ROW, LISTED, NAMES, NOT_RENUMBERED,
    ONE_BEFORE, OTHER_ALPHABET, PART, READ_AS, RENUMBERED, TRIAL, TURNOUT, TWICE, WORD_BESIDE,
    difference, remedy_of, what_of,
};
use pb_read::Column;
use pb_seen::amounts::comes_next;
use pb_seen::changed::Difference::{Hidden, Zeros};
use pb_seen::changed::{Difference, has_one_of, is_one_of, without_hidden};
use pb_seen::fields::{column_of, number_in};
use pb_witness::cause::{Cause, odd_letter};
use pb_witness::known::FoundCause;
use pb_witness::unknown::Votes;

/// What a trial version of a program writes in place of texts.
const TRIALS: &str = "trial|demo|evaluation|unregistered|sample";

/// What programs make of an id such as `NO`.
const READ: &str = "false|true|nan";

/// Whether `pb_clean` mends it without an option: it takes characters that can't be seen from the ends of ids
/// alone.
fn is_cleaned(place: &UnknownPiece) -> bool {
    let (vote, project) = (place.id, place.project);
    match place.cause {
        Cause::LeftOut => false,
        Cause::Alike(Hidden, false) => without_hidden(vote) == project,
        Cause::Alike(Hidden, true) => without_hidden(project) == vote,
        cause => is_mended(cause),
    }
}

/// Whether `pb_clean` mends a vote that is refused for this cause, without an option, or tells another fault.
fn is_mended(cause: Cause) -> bool {
    matches!(
        cause,
        Cause::Bars
            | Cause::Brackets
            | Cause::EmptyList
            | Cause::Quotes
            | Cause::PointZero
            | Cause::NamesAgain
            | Cause::LeftOut
            | Cause::Alike(Hidden, _)
    )
}

/// Where words say that an id is unknown, and what they say there.
#[derive(Clone, Copy)]
struct UnknownPiece<'p> {
    id: &'p str,
    cause: Cause,
    /// The project that the cause is about, and where its row stands: its mark, and the line, or 0.
    project: &'p str,
    mark: Option<Mark>,
    line: u64,
}

impl<R: Files> Case<'_, R> {
    /// Whether words for this vote have been put with those for an earlier one.
    pub(crate) fn is_told(&self) -> bool {
        let found = self.known.cause_of(self.faulty.piece());
        found.is_some_and(|found| !found.votes.begin_at(self.faulty.mark))
    }

    /// Puts which id of a vote no project has, and why, as far as that is known, and what to do. Where that
    /// stands in PROJECTS, its row is named and not the vote's.
    pub(crate) fn put_unknown(&self, out: &mut WordsWriter) {
        let Some(found) = self.known.cause_of(self.faulty.piece()) else {
            return out.fail();
        };
        self.put_cause(out, &found);
        self.put_votes(out, &found);
        if self.put_two_ways(out, &found) {
            return;
        }
        let is_open = self.is_open(found.cause);
        let may_be = is_open || found.cause == Cause::Name;
        if may_be && self.faulty.is_listed(self.text, self.known.witness) {
            return out.put(LISTED);
        }
        if is_open && found.cause != Cause::Shifted && self.counts_on() {
            return out.put(COUNTED_ON);
        }
        if is_open && has_one_of(TRIALS, self.faulty.piece()) {
            return out.put(TRIAL);
        }
        if let Some(words) = vote_cause(self.faulty.value(), is_open) {
            return out.put(words);
        }
        if is_open && self.put_row_cause(out) {
            return;
        }
        if found.cause == Cause::OddLetter {
            self.put_odd_letter(out, self.faulty.piece())
        } else {
            self.put_unknown_remedy(out, &found)
        }
    }

    /// Puts which id of a vote no project has, or which row of PROJECTS is to blame, and why.
    fn put_cause(&self, out: &mut WordsWriter, found: &FoundCause) {
        let place = self.place_of(found);
        self.put_place(out, &place);
        let named = match found.cause {
            Cause::Alike(Hidden, false) => place.project,
            _ => place.id,
        };
        out.fill(what_of(found.cause), &[Quoted(named), Number(place.line)]);
    }

    /// Whether the vote is that of the row above but for the number at its end, which is the next one.
    fn counts_on(&self) -> bool {
        let is_first = self.faulty.is_first_row();
        let above = self
            .text
            .row_at(self.faulty.seen.last)
            .filter(|_| !is_first);
        let (_, vote) = self.faulty.places();
        let is_next = |row: &ByteRecord| {
            comes_next(self.faulty.value(), text_at(row, vote))
                && self.faulty.value().ends_with(|c: char| c.is_ascii_digit())
        };
        above.is_some_and(|row| is_next(&row))
    }

    /// Puts what to do about a word that is no id: beside ids the row is a vote; and it may be an id that a program read as another
    /// word. Answers whether it is so.
    fn put_word(&self, out: &mut WordsWriter) -> bool {
        let ids = &self.known.witness.ids;
        let is_beside = ids.have_one(self.faulty.value());
        let read = (0..self.projects()).find(|place| is_one_of(READ, self.id_of(*place)));
        if let Some(place) = self.boxed(self.faulty.piece()) {
            out.fill(FOR_A_BOX, &[Quoted(self.id_of(place))])
        }
        match read.and_then(|place| self.known.again.projects.row(place)) {
            Some(row) => {
                let line = line_of(self.text, row.mark);
                out.fill(READ_AS, &[Quoted(row.id.as_str()), Number(line)])
            }
            None if is_beside => out.put(WORD_BESIDE),
            None => return false,
        }
        true
    }

    /// The project whose number, above 9, an id of one letter may stand for, as A for 10, if no vote names that project.
    fn boxed(&self, id: &str) -> Option<u32> {
        let [letter @ b'A'..=b'Z'] = id.as_bytes() else {
            return None;
        };
        let number = u32::from(*letter).saturating_sub(55);
        let rows = &self.known.witness.rows;
        let is_it = |place: &u32| {
            let own = number_in(self.id_of(*place).as_bytes());
            own == Some(number) && !rows.is_named(*place)
        };
        (0..self.projects()).find(is_it)
    }

    /// Whether the first of several votes, three or more, are the same text with a blank, as the example of a form.
    fn is_example(&self, votes: &Votes) -> bool {
        let (vote, place) = (self.faulty.value(), self.faulty.places().1);
        let is_same = |row: &ByteRecord| text_at(row, place) == vote;
        let mut first = votes.first.iter().flatten();
        let are_same = first.all(|mark| self.text.row_at(*mark).is_some_and(|row| is_same(&row)));
        votes.count > 2 && vote.contains(' ') && are_same
    }

    /// Whether the one unknown id is 0, and votes name the project 1 and no other, as in a list of who has voted.
    fn is_turnout(&self) -> bool {
        let witness = self.known.witness;
        let is_only = |place: u32| witness.rows.is_named(place) == (self.id_of(place) == "1");
        let are_zeros = witness.unknown.found.iter().all(|it| it.id.as_str() == "0");
        are_zeros && (0..self.projects()).all(is_only) && witness.ids.projects.has("1")
    }

    /// Whether an id is a 1 before that of a project with two signs or more.
    fn has_one_before(&self, id: &str) -> bool {
        let rest = id.strip_prefix('1').filter(|rest| rest.len() > 1);
        rest.is_some_and(|rest| self.known.witness.ids.projects.has(rest))
    }

    /// Puts what is said before the remedy, of a form's example, of codes and of a 1 too many.
    fn put_likely(&self, out: &mut WordsWriter, found: &FoundCause) {
        match found.cause {
            Cause::More if self.is_example(&found.votes) => out.put(EXAMPLE),
            Cause::Columns => self.put_codes(out, self.faulty.seen.names),
            Cause::Together if self.has_one_before(self.faulty.piece()) => out.put(ONE_BEFORE),
            _ => self.put_twice(out),
        }
    }

    /// Puts which project's id may stand for another one in votes, if both have one digit, which is there twice in the first,
    /// and the unknown id is such a digit too.
    fn put_twice(&self, out: &mut WordsWriter) {
        let ids = &self.known.witness.ids.projects;
        let is_twice = |id: &str| once(id).is_some_and(|digit| ids.has(digit));
        let other = (0..self.projects()).find(|place| is_twice(self.id_of(*place)));
        if let (true, Some(place)) = (is_twice(self.faulty.piece()), other) {
            let id = self.id_of(place);
            let digit = once(id).unwrap_or("");
            out.fill(TWICE, &[Quoted(id), Quoted(digit), Quoted(id)])
        }
    }

    /// Puts what to do about an id that no project has.
    fn put_unknown_remedy(&self, out: &mut WordsWriter, found: &FoundCause) {
        let place = self.place_of(found);
        self.put_likely(out, found);
        let is_above = found.cause == Cause::Unknown && self.is_above_all(place.id);
        let remedy = if is_above {
            RENUMBERED
        } else {
            remedy_of(found.cause)
        };
        match found.cause {
            Cause::Unknown | Cause::Near | Cause::OtherForm | Cause::Word
                if found.votes.count == 1 && self.text.is_last(self.faulty.mark) => {
                out.fill(LAST_ROW, &[Own(NOTE)]);
                return out.put(remedy);
            }
            Cause::Word if self.put_word(out) => {}
            Cause::Nothing if self.is_turnout() => out.put(TURNOUT),
            Cause::Unknown if self.known.ids_for(Cause::Unknown) > 1 && !is_above => {
                out.put(PART);
                out.put(remedy)
            }
            Cause::Cut => out.fill(remedy, &[Number(place.line)]),
            Cause::Name if self.known.ids_for(Cause::Name) > 1 => out.put(NAMES),
            Cause::Swallowed if put_swallowing(out, self.text, place.mark) => {}
            Cause::Swallowed => out.fill(
                "The row on line {} may be this project. Correct that line first.\n",
                &[Number(place.line)],
            ),
            Cause::Alike(how, false) if how != Hidden => self.put_alike(out, &place, how),
            Cause::Kept if place.id.contains(|c: char| !c.is_ascii_digit()) => {
                self.put_alike(out, &place, Zeros)
            }
            _ => out.fill(remedy, &[Quoted(place.project), Number(place.line)]),
        }
        match found.cause {
            Cause::Beside | Cause::Unknown => self.put_drop(out, &place, is_above),
            Cause::NamesAgain if !self.has_names_again() => {}
            _ if is_cleaned(&place) && self.mends_all() => put_clean(out, self.text, ""),
            _ => {}
        }
    }

    /// Puts which command takes unknown ids out of the votes, unless another cause is seen: then that.
    fn put_drop(&self, out: &mut WordsWriter, place: &UnknownPiece, is_above: bool) {
        if self.known.witness.unknown.are_series() {
            out.put(
                "The numbers of unknown ids follow each other from row to row. A spreadsheet may have continued a series: then get the votes again.\n",
            )
        } else if !self.loses_by_dropping(place) && !self.put_unnamed(out, place, is_above) {
            let are_several = self.known.ids_for(Cause::Unknown) > 1;
            put_dropping(
                out,
                self.text,
                match place.cause {
                    Cause::Unknown if is_above => NOT_RENUMBERED,
                    Cause::Unknown if are_several => ALL_WITHDRAWN,
                    _ => "",
                },
            )
        }
    }

    /// Whether ids that votes name may be lost where unknown ones are taken out of them: parts of longer ids,
    /// names that were not found, or ids that are shifted.
    fn loses_by_dropping(&self, place: &UnknownPiece) -> bool {
        let (rows, projects) = (&self.known.witness.rows, &self.known.again.projects);
        (place.id == "0" && projects.end_in_zero())
            || (place.cause == Cause::Beside && rows.differ)
            || rows.would_empty()
            || self.known.ids_for(Cause::Shifted) > 0
    }

    /// Puts which project no vote names, so that an unknown id may be meant for it, if there is one, unless the
    /// projects may have been numbered anew; answers whether there is.
    fn put_unnamed(&self, out: &mut WordsWriter, place: &UnknownPiece, is_above: bool) -> bool {
        let rows = &self.known.witness.rows;
        let unnamed = (0..self.projects()).find(|place| !rows.is_named(*place));
        match unnamed.and_then(|place| self.known.again.projects.row(place)) {
            Some(_) if is_above => {}
            Some(row) if place.cause == Cause::Unknown => out.fill(
                "No vote names the project {} on line {}, which may be meant: look at the ballot first.\n",
                &[
                    Quoted(row.id.as_str()),
                    Number(line_of(self.text, row.mark)),
                ],
            ),
            _ => return false,
        }
        true
    }

    /// Puts which project has an id that is alike, how it differs, and what to do.
    fn put_alike(&self, out: &mut WordsWriter, place: &UnknownPiece, how: Difference) {
        out.fill(
            "The project {} on line {} {}. If it is meant, write its id in the vote.\n",
            &[
                Quoted(place.project),
                Number(place.line),
                Own(difference(how)),
            ],
        );
        if how == Zeros && self.loses_zeros(place.id) {
            out.put("Without zeros another project's id is the same. Look at a ballot first.\n")
        }
    }

    /// How many projects there are.
    pub(crate) fn projects(&self) -> u32 {
        u32::try_from(self.known.witness.ids.projects.len()).unwrap_or(0)
    }

    /// The id of the project at this place.
    pub(crate) fn id_of(&self, place: u32) -> &str {
        match self.known.again.projects.row(place) {
            Some(row) => row.id.as_str(),
            None => "",
        }
    }

    /// Whether an id with a letter is that of another project too, if that one's last 0 is taken away.
    fn loses_zeros(&self, id: &str) -> bool {
        let is_other = |place: u32| self.id_of(place).strip_suffix('0') == Some(id);
        id.contains(|c: char| !c.is_ascii_digit()) && (0..self.projects()).any(is_other)
    }

    /// Whether an id is a whole number, and that of each project is a smaller one.
    fn is_above_all(&self, id: &str) -> bool {
        let Some(number) = number_in(id.as_bytes()) else {
            return false;
        };
        let is_below = |place: u32| {
            number_in(self.id_of(place).as_bytes()).is_some_and(|own| own < number)
        };
        (0..self.projects()).all(is_below)
    }

    /// Whether `pb_clean` mends all votes that are refused for an unknown id, without an option: it asks for one where a mark
    /// may separate thousands, and takes no points.
    fn mends_all(&self) -> bool {
        let names = self.text.row_at(self.faulty.seen.names);
        let is_points = |names: &ByteRecord| ["points", "score"]
            .iter()
            .any(|name| column_of(names, name).is_some());
        if self.known.witness.has_thousands || names.is_some_and(|names| is_points(&names)) {
            return false;
        }
        let mut refused = self.known.witness.refused.iter();
        refused.all(|it| match self.known.cause_of(it.piece()) {
            Some(found) => is_mended(found.cause),
            None => true,
        })
    }

    /// Puts which character of this id no project's id has, and what to do.
    fn put_odd_letter(&self, out: &mut WordsWriter, id: &str) {
        let mut letters = id.chars();
        let is_other = letters.next().is_some_and(is_of_other_alphabet);
        if is_other && letters.next().is_none() && self.id_of(0).len() == 1 {
            return out.put(OTHER_ALPHABET);
        }
        if let Some(letter) = odd_letter(id, &self.known.again.projects) {
            let from = id.trim_start_matches(|c: char| c != letter);
            let behind = from.split_once(letter).unwrap_or(("", "")).1;
            let odd = from.strip_suffix(behind).unwrap_or(from);
            out.fill(self.odd_text(letter), &[Quoted(odd)])
        }
    }

    /// The place that words for this vote name.
    fn place_of(&self, found: &FoundCause) -> UnknownPiece<'_> {
        let id = self.faulty.piece();
        let ids = &self.known.witness.ids;
        let projects = &self.known.again.projects;
        let row = found.project.and_then(|place| projects.row(place));
        let (project, mark) = match (found.cause, row) {
            (Cause::LeftOut, _) => (id, ids.left_out.mark(id)),
            (Cause::Cut, _) => (id, ids.pieces.mark(id)),
            (Cause::Swallowed, _) => (
                id,
                ids.swallowed
                    .mark(id)
                    .or(Some(self.faulty.seen.project_names)),
            ),
            (Cause::NoProjects, _) => ("", Some(self.faulty.seen.project_names)),
            (_, Some(row)) => (row.id.as_str(), Some(row.mark)),
            (_, None) => (id, None),
        };
        UnknownPiece {
            id,
            cause: found.cause,
            project,
            mark,
            line: mark.map_or(0, |mark| line_of(self.text, mark)),
        }
    }

    /// Puts the line and the column of what words name.
    fn put_place(&self, out: &mut WordsWriter, place: &UnknownPiece) {
        let is_project = matches!(
            place.cause,
            Cause::Alike(_, true) | Cause::ChangedProject | Cause::NoProjects
        );
        match place.mark {
            Some(mark) if is_project => {
                let _ = put_mark(out, self.text, mark);
                if place.cause != Cause::NoProjects {
                    out.fill(", column {}", &[Own(Column::ProjectId.name())]);
                    put_subject(out, "project", place.project);
                }
            }
            _ => {
                let _ = put_mark(out, self.text, self.faulty.mark);
                self.put_column(out);
                put_subject(out, "voter", self.faulty.id());
            }
        }
    }

    /// Puts how many votes are refused for one reason, where there are several, and the lines of the first.
    fn put_votes(&self, out: &mut WordsWriter, found: &FoundCause) {
        let votes = &found.votes;
        if votes.count > 1 {
            let reason = match found.cause {
                Cause::NoProjects | Cause::OtherElection | Cause::Columns => "this",
                Cause::Name if self.known.ids_for(Cause::Name) < 2 => "this",
                cause if cause.is_shared() && cause != Cause::ChangedProject => "ids like this",
                _ => "this",
            };
            out.fill(
                " {} votes are refused for {}",
                &[Number(votes.count), Own(reason)],
            );
            put_lines(out, self.text, votes);
        }
        out.put("\n");
    }
}

/// Puts the lines of several rows, or of the first.
pub(crate) fn put_lines<R: Files>(out: &mut WordsWriter, text: &Text<R>, rows: &Votes) {
    out.put(if rows.count > 3 {
        ": the first are on lines"
    } else {
        ": they are on lines"
    });
    for (place, mark) in rows.first.iter().enumerate() {
        if let Some(mark) = mark {
            let is_last = (place as u64).saturating_add(1) == rows.count.min(3);
            let before = match (place, is_last) {
                (0, _) => " ",
                (_, true) => " and ",
                (_, false) => ", ",
            };
            out.fill("{}{}", &[Own(before), Number(line_of(text, *mark))]);
        }
    }
    out.put(".");
}

/// The digit that an id is, twice.
fn once(id: &str) -> Option<&str> {
    match id.as_bytes() {
        [digit @ b'1'..=b'9', other] if digit == other => id.get(1..),
        _ => None,
    }
}

/// Whether a character is a letter of an alphabet such as the Greek or the Cyrillic one, and no Latin letter.
pub(crate) fn is_of_other_alphabet(c: char) -> bool {
    matches!(u32::from(c), 0x370..=0x1dff) && c.is_alphabetic()
}
