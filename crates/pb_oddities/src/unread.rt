//! Texts that no count reads, of which words alone ask whether they say what should count: in columns of PROJECTS
//! and VOTES and keys of META that are not usual, and in values of META that name a project or a voter.

use crate::column_kinds::{Has, NUMBERS, OF_VOTERS};
use crate::columns::MOST_COLUMNS;
use crate::prelude::*;
use pb_seen::amounts::whole_number;
use pb_seen::changed::{has_digit, has_one_of, is_one_of};

/// What columns are called whose texts say nothing of whether the row counts, or how, beside those of voters.
const USUAL: &str =
    "voter_id|vote|project_id|cost|comment|against|name|category|target|url|link|image|address|location|description|\
    title|score|selected|latitude|longitude|date|time|timestamp";

/// What keys of META are called whose values say nothing of what counts, unless they name a project or a voter.
const USUAL_KEYS: &str =
    "description|country|unit|city|subunit|district|instance|edition|year|language|currency|title|name|url|link|\
    source|author|license|version|contact|categories|neighborhoods|subdistricts|acknowledgments|experimental";

/// The forms of a key of META: its value names a project or a voter; it sets a limit; or it is not usual.
const NAMES_ONE: usize = 0;

pub const SETS_LIMIT: usize = 1;

pub const IS_NOT_READ: usize = 2;

/// Words in a key that asks for so many votes, which no count uses.
const LIMITS: &str = "min|minimum|quorum|threshold";

const OF_VOTES: &str = "vote|votes|ballot|ballots|approvals|support|supporters|quorum|turnout";

/// A column that no count reads, with the first row that has a text in it.
#[derive(Clone, Copy)]
struct UnreadColumn {
    place: usize,
    first: Option<Odd>,
}

/// The columns of a section that no count reads.
#[derive(Drop)]
pub struct Unread {
    /// Where the row of column names begins.
    header: Mark,
    columns: Vec<UnreadColumn>,
    /// Whether one of them has no text yet.
    pub are_open: bool,
}

impl Unread {
    /// Those with these names, which begin here.
    pub fn of(
        alloc: Global,
        names: &ByteRecord,
        header: Mark,
        section: Section,
    ) -> Result<Unread, AllocError> {
        let mut columns = Vec::new(alloc);
        for place in 0..names.len().min(MOST_COLUMNS) {
            let name = text_at(names, place);
            if !is_known(name, section) {
                columns.push(UnreadColumn { place, first: None })?;
            }
        }
        Ok(Unread {
            header,
            are_open: !columns.is_empty(),
            columns,
        })
    }

    /// Takes a row that is accepted.
    pub fn take(&mut self, row: &Row<'_>) {
        self.are_open = false;
        for column in self.columns.iter_mut() {
            if column.first.is_some() {
                continue;
            }
            if bytes_at(row.record, column.place).is_empty() {
                self.are_open = true;
            } else {
                let odd = row.odd(Oddity::ValidColumn).at(column.place);
                column.first = Some(odd.named_in(self.header));
            }
        }
    }

    /// Takes the end of the section. Of a column that is odd otherwise nothing more is said.
    pub fn end(&self, found: &mut Oddities) -> Result<(), AllocError> {
        for odd in self.columns.iter().filter_map(|column| column.first) {
            if found.is_of_check() {
                found.take_unread(odd)?;
            }
        }
        Ok(())
    }
}

/// Whether a column of this name is usual, or other warnings say what in it should count.
fn is_known(name: &str, section: Section) -> bool {
    let is_of_number = matches!(section, Section::Votes) && is_one_of(NUMBERS, name);
    let has = Has::by(name, section);
    is_one_of(USUAL, name)
        || is_one_of(OF_VOTERS, name)
        || is_of_number
        || !matches!(has, None | Some(Has::Units | Has::Dates | Has::Notes))
}

/// Whether a text has a letter.
fn has_letter(text: &str) -> bool {
    text.contains(|c: char| c.is_alphabetic())
}

/// The values of META that no count reads, by the ids that may stand in them.
#[derive(Drop)]
pub struct UnreadKeys {
    alloc: Global,
    /// Words with a digit and a letter, each with the place of its row among those that may be spoken of.
    words: IdTable,
    has_words: bool,
    rows: Vec<Odd>,
}

impl UnreadKeys {
    /// No value yet.
    pub fn new(alloc: Global) -> UnreadKeys {
        UnreadKeys {
            alloc,
            words: IdTable::new(alloc),
            has_words: false,
            rows: Vec::new(alloc),
        }
    }

    /// Takes a key with a value, whose row begins here.
    pub fn take(&mut self, (key, value): (&str, &str), mark: Mark) -> Result<(), AllocError> {
        let place = u32::try_from(self.rows.len()).unwrap_or(u32::MAX);
        let mut has_ids = false;
        for word in value.split(|c: char| !c.is_alphanumeric() && c != '-' && c != '_') {
            if has_digit(word) && has_letter(word) {
                let _ = self.words.insert(self.alloc, word, place)?;
                has_ids = true;
            }
        }
        self.has_words |= has_ids;
        let is_limit = has_one_of(LIMITS, key) && has_one_of(OF_VOTES, key);
        let form = if is_limit && whole_number(value).is_some_and(|number| number > 1) {
            SETS_LIMIT
        } else if is_one_of(USUAL_KEYS, key) || key.is_empty() || value.is_empty() {
            NAMES_ONE
        } else {
            IS_NOT_READ
        };
        if has_ids || form != NAMES_ONE {
            let odd = Odd::of_key(Oddity::ValidColumn, mark);
            self.rows.push(odd.in_form(form))?;
        }
        Ok(())
    }

    /// Takes the end of the file: of each id in one of them its row is odd, and each that sets a limit; for a check each that
    /// is not usual.
    pub fn end(&self, election: &Election, found: &mut Oddities) -> Result<(), AllocError> {
        let mut is_said = Vec::new(self.alloc);
        is_said.resize(self.rows.len(), false)?;
        if self.has_words {
            for project in election.projects() {
                self.say(project.id(), &mut is_said);
            }
            for voter in election.voters() {
                self.say(voter.id.text(), &mut is_said);
            }
        }
        let is_of_check = found.is_of_check();
        for (odd, is_said) in self.rows.iter().zip(&is_said) {
            if *is_said {
                found.take_unread(odd.in_form(NAMES_ONE))?;
            } else if odd.form == SETS_LIMIT || (odd.form == IS_NOT_READ && is_of_check) {
                found.take_unread(*odd)?;
            }
        }
        drop(is_said);
        Ok(())
    }

    /// Marks the row that has this id in its value, if there is one.
    fn say(&self, id: &str, is_said: &mut Vec<bool>) {
        let place = self.words.get(id).unwrap_or(u32::MAX);
        if let Some(is_said) = is_said.get_mut(place as usize) {
            *is_said = true;
        }
    }
}
