//! Ids of projects that stand behind the vote, where no count reads them.

use crate::beside_vote::BesideVote;
use crate::prelude::*;
use pb_oddities::column_kinds::{NOTES, NUMBERS, OF_VOTERS, is_of_validity};
use pb_oddities::columns::places_of;
use pb_seen::changed::{has_digit, has_one_of, has_part, is_digits, is_one_of, is_tick, last_word};
use pb_seen::firsts::names_other;

/// Columns of VOTES that hold no votes of the voter, whatever stands in them.
const OTHERS: &str =
    "voter_id|vote_id|choice_id|ballot_id|comment|remark|remarks|note|notes|against|rejected|veto|contra|\
    author|author_of|own_project";

/// Columns of voters whose values are no ids with a letter and a digit.
const OF_PERSONS: &str = "age|sex|gender";

/// Words in the name of a column in which a project's name may be a vote.
const OF_NAMES: &str = "other|own|choice|project|projects|vote|option|text";

/// Words in the name of a column that holds votes, also as parts of longer ones.
pub const OF_VOTES: &str = "vote|choice|preference|project|option|selection";

/// Words in the name of a column that has votes which others replaced.
const OF_BEFORE: &str = "previous|previously|old|earlier|before|former|prior|was|initial|original";

/// Words of a name that hold no votes, though another word of it is one of those.
const OF_NO_VOTES: &str =
    "channel|type|method|mode|place|station|date|time|at|status|code|count|number|num|total|form|\
    against|used|many|left|order|group|manager|no|nr|index|day|week|month|year|hour|on|age|box|desk|\
    kiosk|area|branch|bus|center|centre|key|library|line|lot|pin|precinct|rank|seq|slot|team|ward|\
    weekday|zone|before|lang|child|income|location|district|language|school|round|batch|sheet|page|\
    device|source|household";

/// What programs call a column that has no name, with its number.
const INVENTED: &str =
    "unnamed|column|col|field|spalte|feld|kolumna|pole|colonne|columna|coluna|colonna|sloupec|kolom";

/// What says that the voter does not approve the project of a column.
const UNTICKED: &str = "0|no|false";

/// What a voter writes who makes no further choice.
const NOTHING: &str = "-|none|nan|null|nil|n/a|na|no|nie|brak";

/// How many values of a column are looked at that name projects, but by which no list shows that it holds
/// votes; and how many of persons that are no ids.
const MOST_SINGLE: u64 = 1_000;

/// A column that may hold votes.
#[derive(Clone, Copy)]
struct VoteColumn {
    place: usize,
    /// Whether it stands before the vote, and no name says that it holds votes.
    is_before: bool,
    /// Whether it has a name; then one other text shows that it holds no votes.
    is_named: bool,
    /// Whether its name says that it holds no votes of the voter, or notes; and whether only a list of projects shows
    /// that.
    holds_none: bool,
    is_of_notes: bool,
    is_of_voters: bool,
    /// Whether an id with a letter and a digit also shows that, beside other values.
    is_of_persons: bool,
    /// Whether the name of a project may be a vote in it, as where a voter writes another choice.
    may_have_names: bool,
    /// The place of the project with whose id its name ends: a 1 says that the vote names it.
    ticks: Option<u32>,
    /// In how many rows such a mark and the vote agree, and the first in which the vote does not name the project,
    /// measured by how many there are.
    agree: u64,
    unvoted: Option<Odd>,
    /// Whether it may hold votes, by all that was read.
    is_open: bool,
    /// Whether something shows that it holds votes: its name, as where it is a letter or has a number, or an id
    /// that is no number, or several ids.
    is_shown: bool,
    /// The first row with a project's id in it, measured by how many there are.
    odd: Option<Odd>,
    /// How many values of a person were read that are no ids.
    others: u64,
    /// Whether a row has nothing in it, and whether each other has a project that its vote does not name, by an id of
    /// letters.
    has_none: bool,
    are_further: bool,
    /// The first row with several ids in it, measured by how many there are; and the project that the votes of all of
    /// these name alone, if it is one.
    list: Option<Odd>,
    only: Option<u32>,
}

/// The columns of VOTES, of which those behind the vote may hold votes.
#[derive(Drop)]
pub struct BehindVote {
    columns: Vec<VoteColumn>,
    /// All that stands beyond the column names.
    beyond: VoteColumn,
    /// The row of column names.
    header: Mark,
    /// The first row without a vote in which another field seems to be its vote, measured by how many there
    /// are.
    stray: Option<Odd>,
    /// Whether a column with a name may hold votes.
    pub is_open: bool,
}

impl BehindVote {
    /// Those with these names.
    pub fn of(
        alloc: Global,
        names: &ByteRecord,
        header: Mark,
        projects: &Firsts,
    ) -> Result<BehindVote, AllocError> {
        let mut columns = Vec::new(alloc);
        let vote = column_of(names, Column::Vote.name()).unwrap_or(0);
        let (_, voters) = places_of(names, Column::VoterId);
        let mut is_open = false;
        for place in 0..names.len() {
            let name = text_at(names, place);
            let is_again = voters > 1 && name.eq_ignore_ascii_case(Column::Vote.name());
            let mut column = VoteColumn::of(place, name, projects);
            let is_of_row = name.eq_ignore_ascii_case(Column::ProjectId.name());
            let is_called = column.is_shown && has_part(OF_VOTES, name);
            if place < vote && !is_of_row && !is_called {
                column.is_before = true;
                column.is_named = true;
                column.is_shown = false;
                column.are_further = false;
            }
            column.is_open = !column.holds_none && !is_again && place != vote;
            is_open |= column.is_open;
            columns.push(column)?;
        }
        Ok(BehindVote {
            columns,
            beyond: VoteColumn::of(names.len(), "", projects),
            header,
            stray: None,
            is_open,
        })
    }

    /// Takes a row, which is odd where a project's id is behind its vote.
    pub fn take(&mut self, row: &Row<'_>) {
        let odd = row.odd(Oddity::IdBehindVote).named_in(self.header);
        self.is_open = false;
        for column in self.columns.iter_mut() {
            // Before the vote, a row without one has a stray vote, if any.
            let is_stray = column.is_before && row.ballot().is_empty() && column.ticks.is_none();
            if column.is_open && !is_stray {
                let _ = column.take(row, odd.at(column.place));
            }
            self.is_open |= column.is_open;
        }
        for place in self.beyond.place..row.record.len() {
            if self.beyond.take(row, odd.at(place)) {
                return;
            }
        }
    }

    /// This row without a vote, odd for the field that seems to be its vote, if there is such a field: it
    /// names projects alone, by their ids or one by its name, and is no number, and no name of a column says
    /// that it is none.
    pub fn with_stray(&mut self, alloc: Global, row: &Row<'_>, odd: Odd) -> Odd {
        let may_be = |place: &usize| {
            let value = row.at(*place);
            let column = self.columns.get(*place).unwrap_or(&self.beyond);
            let is_slid = row.record.len() > self.columns.len() && column.is_of_notes;
            let holds_none = column.holds_none && !is_slid;
            let (is_of_voters, may_have_names) = (column.is_of_voters, column.may_have_names);
            let is_id = *place == odd.id_place;
            *place != odd.value_place
                && (is_id || !holds_none)
                && !is_digits(value)
                && (value.contains(',') || !(is_id || is_of_voters))
                && (names_other(value, &[], row.projects).is_some()
                    || (may_have_names && row.has_name(alloc, value)))
        };
        let Some(place) = (0..row.record.len()).find(may_be) else {
            return odd;
        };
        // In place of the id the form is another one, in each oddity that the row may be.
        let form = if place == odd.id_place { 3 } else { 1 };
        let odd = odd.at(place).in_form(form).named_in(self.header);
        let value = row.at(place);
        let is_shown = is_list(value) || row.has_name(alloc, value);
        if is_shown && row.limits.min_length.unwrap_or(0) == 0 {
            let form = if place == odd.id_place { 2 } else { 1 };
            let stray = odd.as_a(Oddity::IdBehindVote).in_form(form);
            self.stray = Some(stray.behind(self.stray));
        }
        odd
    }

    /// Takes the end of the file, with what all rows show of the columns beside the vote.
    pub fn end(
        &self,
        alloc: Global,
        beside: &BesideVote,
        found: &mut Oddities,
    ) -> Result<(), AllocError> {
        let mut all: Vec<Odd> = Vec::new(alloc);
        for column in &self.columns {
            if let Some(odd) = column.odd.filter(|odd| column.holds_votes(odd)) {
                all.push(column.exchanged().unwrap_or(odd))?;
            }
        }
        if let Some(odd) = self.beyond.odd {
            all.push(odd)?;
        }
        if let Some(stray) = self.stray {
            if !all.iter().any(|odd| odd.value_place == stray.value_place) {
                all.push(stray)?;
            }
        }
        self.end_ticks(&mut all)?;
        beside.end(&mut all, found)?;
        found.take_in_order(all)
    }
}

impl BehindVote {
    /// Adds the columns to these that have marks for a project which votes do not name, if there are two of them or more, and
    /// most marks agree with the votes.
    fn end_ticks(&self, all: &mut Vec<Odd>) -> Result<(), AllocError> {
        let (mut agree, mut differ, mut columns) = (0u64, 0u64, 0usize);
        for column in &self.columns {
            agree = agree.saturating_add(column.agree);
            differ = differ.saturating_add(column.unvoted.map_or(0, |odd| odd.number));
            columns = columns.saturating_add(usize::from(column.agree > 0));
        }
        let are_told = columns > 1 && agree > differ;
        for odd in self.columns.iter().filter_map(|column| column.unvoted) {
            if are_told {
                all.push(odd)?;
            }
        }
        Ok(())
    }
}

impl VoteColumn {
    /// A column of which nothing was read.
    fn of(place: usize, name: &str, projects: &Firsts) -> VoteColumn {
        let word = name.trim_matches(|c: char| !c.is_alphabetic());
        let is_invented = word.is_empty() || is_one_of(INVENTED, word);
        let bare = name.trim_matches(|c: char| c.is_ascii_digit());
        let has_number = bare.len() < name.len() && !has_digit(bare);
        let is_numbered = has_number || word.chars().count() < 2;
        let is_of_voters = is_one_of(OF_VOTERS, word);
        let is_of_votes = !has_one_of(OF_NO_VOTES, word)
            && (is_numbered || has_part(OF_VOTES, name) || has_one_of("second|third", name));
        VoteColumn {
            place,
            is_before: false,
            is_named: !name.is_empty(),
            holds_none: holds_none(name),
            is_of_notes: is_one_of(NOTES, name),
            is_of_voters,
            is_of_persons: is_one_of(OF_PERSONS, name),
            may_have_names: is_invented || has_one_of(OF_NAMES, name),
            ticks: projects.place(last_word(name)),
            agree: 0,
            unvoted: None,
            is_open: true,
            is_shown: is_invented || (is_of_votes && !is_of_voters),
            odd: None,
            others: 0,
            has_none: false,
            are_further: !is_of_voters,
            list: None,
            only: None,
        }
    }

    /// Whether it seems to hold votes, by all rows, of which the first that may have one is odd so.
    fn holds_votes(&self, odd: &Odd) -> bool {
        let is_further = self.are_further && self.has_none && odd.number > 1;
        self.is_open && (self.is_shown || is_further)
    }

    /// Takes a row with several ids in the column, and this ballot.
    fn take_list(&mut self, ballot: &[u32], odd: Odd) {
        let only = match ballot {
            [place] => Some(*place),
            _ => None,
        };
        self.only = only.filter(|_| self.list.is_none() || self.only == only);
        self.list = Some(odd.in_form(5).behind(self.list));
    }

    /// The first row with several ids in the column, if the votes of all such rows, two or more, are one and the same id: then it
    /// and the vote may be exchanged there.
    fn exchanged(&self) -> Option<Odd> {
        self.list.filter(|odd| odd.number > 1 && self.only.is_some() && self.is_named)
    }

    /// Takes a value that says whether the vote names the project of the column, if it is one; answers whether it is.
    fn takes_tick(&mut self, row: &Row<'_>, odd: Odd) -> bool {
        let (value, Some(place)) = (row.at(odd.value_place), self.ticks) else {
            return false;
        };
        let is_named = row.ballot().binary_search(&place).is_ok();
        let is_id = row.projects.has(value) && !(is_named && value == "1");
        if is_id || !is_tick(value) {
            return false;
        }
        if is_named {
            self.agree = self.agree.saturating_add(1);
        } else if !is_one_of(UNTICKED, value) {
            self.unvoted = Some(odd.in_form(3).behind(self.unvoted));
        }
        true
    }

    /// Takes a row, in which the value of this oddity stands in the column, and answers whether it names
    /// projects beside those of the vote.
    fn take(&mut self, row: &Row<'_>, odd: Odd) -> bool {
        let (value, ballot) = (row.at(odd.value_place), row.ballot());
        self.has_none |= value.is_empty();
        if value.is_empty() || self.takes_tick(row, odd) {
            return false;
        }
        if self.is_of_persons && !is_list(value) {
            self.others = self.others.saturating_add(1);
            self.is_open = self.odd.is_some() || self.others < MOST_SINGLE;
            return false;
        }
        let Some(has_other) = names_other(value, ballot, row.projects) else {
            self.is_open = !self.is_named || self.is_of_persons || is_one_of(NOTHING, value);
            return false;
        };
        let is_word = value.len() > 2 && !value.contains(|c: char| !c.is_alphabetic());
        self.are_further &= has_other && is_word;
        if self.is_named && !has_other {
            return false;
        }
        let first = odd.behind(self.odd);
        self.odd = Some(first);
        if value.contains(',') {
            self.take_list(ballot, odd);
        }
        let is_list = is_list(value) && (!self.is_of_voters || self.is_of_persons);
        self.is_shown |= value.contains(',') || is_list;
        self.is_open = self.is_shown || first.number < MOST_SINGLE;
        true
    }
}

/// Whether the name of a column says that it holds no votes of the voter, or notes.
pub fn holds_none(name: &str) -> bool {
    is_one_of(OTHERS, name)
        || is_one_of(NUMBERS, name)
        || is_of_validity(name)
        || has_one_of(OF_BEFORE, name)
}

/// Whether a text that names projects is several ids, or one with a digit and another character.
fn is_list(text: &str) -> bool {
    text.contains(',') || (has_digit(text) && !is_digits(text))
}
