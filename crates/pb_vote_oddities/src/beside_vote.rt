//! Columns of VOTES that no count reads, beside the vote of each row: what all rows show of them.

use crate::behind_vote::OF_VOTES;
use crate::choices::{Choices, Named};
use crate::crosses::Crosses;
use crate::filled_down::LastEmpty;
use crate::prelude::*;
use pb_oddities::columns::MOST_COLUMNS;
use pb_seen::changed::{has_part, is_one_of};
use pb_seen::firsts::names_other;

/// The fewest rows by which something is so of all.
const FEWEST: u64 = 8;

/// The fewest rows above those that were only prepared.
const FEWEST_ABOVE: u64 = 3;

/// What columns are called that name projects which the voter is against.
const AGAINST: &str = "against|rejected|veto|contra";

/// A column, and what is true of it in all rows so far.
#[derive(Clone, Copy)]
struct OtherColumn {
    place: usize,
    /// Whether each vote ends with its text.
    ends: bool,
    /// The project that the first row has in it, and whether others have another.
    first: Option<u32>,
    differ: bool,
    /// Whether it has ids of projects just where the vote is empty, with the first such row, measured by how
    /// many there are.
    is_instead: bool,
    instead: Option<Odd>,
    /// Whether it names the project that the vote names alone, with the first row in which it names others
    /// too, measured by how many there are.
    names_it: bool,
    more: Option<Odd>,
    /// The names of projects in it.
    choices: Choices,
    /// Whether just the rows with a vote have a text in it.
    is_of_votes: bool,
    last_empty: LastEmpty,
    crosses: Crosses,
}

/// The columns of VOTES beside the voter's id and the vote.
#[derive(Drop)]
pub struct BesideVote {
    alloc: Global,
    /// Where the row of column names begins.
    header: Mark,
    columns: Vec<OtherColumn>,
    /// How many rows were read, and whether a vote names several projects.
    rows: u64,
    has_list: bool,
    /// The first row without a vote, measured by how many there are, and whether one has a text beside its id.
    blank: Option<Odd>,
    blank_has_more: bool,
    /// Whether each row above has a vote.
    pub are_last: bool,
    /// Whether something may be true of a column.
    pub is_open: bool,
}

impl BesideVote {
    /// Those with these names, which begin here.
    pub fn of(alloc: Global, names: &ByteRecord, header: Mark) -> Result<BesideVote, AllocError> {
        let mut columns = Vec::new(alloc);
        for place in 0..names.len().min(MOST_COLUMNS) {
            let name = text_at(names, place);
            let is_read = [Column::VoterId.name(), Column::Vote.name()]
                .iter()
                .any(|read| name.eq_ignore_ascii_case(read));
            if !is_read && !is_one_of(AGAINST, name) {
                columns.push(OtherColumn::of(place, name))?;
            }
        }
        Ok(BesideVote {
            alloc,
            header,
            is_open: !columns.is_empty(),
            columns,
            rows: 0,
            has_list: false,
            blank: None,
            blank_has_more: false,
            are_last: true,
        })
    }

    /// Takes a row that is accepted.
    pub fn take(&mut self, row: &Row<'_>) {
        let above = usize::try_from(self.rows).unwrap_or(usize::MAX);
        self.rows = self.rows.saturating_add(1);
        self.has_list |= row.ballot().len() > 1;
        if row.ballot().is_empty() {
            let odd = row.odd(Oddity::NoteRows).in_form(4);
            self.blank = Some(odd.behind(self.blank));
            self.blank_has_more |= row.has_more();
        } else {
            self.are_last &= self.blank.is_none();
        }
        if !self.is_open {
            return;
        }
        self.is_open = false;
        let has_vote = !row.ballot().is_empty();
        for column in self.columns.iter_mut() {
            let is_full = has_vote && !bytes_at(row.record, column.place).is_empty();
            if column.is_open() && !(is_full && column.waits()) {
                column.take(self.alloc, row, self.header, above);
            }
            self.is_open |= column.is_open();
        }
    }

    /// The first of the last rows, which have no vote, if each row above has one and a text in a column in which none of
    /// these has one; two or more if they have something beside their ids.
    pub fn prepared(&self) -> Option<Odd> {
        let column = self.columns.iter().find(|column| column.is_of_votes)?;
        let has_above = |odd: &Odd| odd.number.saturating_add(FEWEST_ABOVE) <= self.rows;
        let odd = self.blank.filter(|odd| self.are_last && has_above(odd))?;
        let are_enough = odd.number > 1 || !self.blank_has_more;
        are_enough.then_some(odd.at(column.place).named_in(self.header))
    }

    /// The first of the last rows, if all of these have the vote of the row above them, and nothing in a column that all rows
    /// above fill.
    pub fn filled_down(&self, election: &Election) -> Option<Odd> {
        let odd_in = |column: &OtherColumn| {
            let odd = column.last_empty.filled_down(election)?;
            Some(odd.at(column.place).named_in(self.header))
        };
        self.columns.iter().find_map(odd_in)
    }

    /// Takes the end of the file, and adds the columns that seem to hold votes to these.
    pub fn end(&self, all: &mut Vec<Odd>, found: &mut Oddities) -> Result<(), AllocError> {
        for column in &self.columns {
            let is_joined = column.ends && column.differ && self.has_list;
            if is_joined && self.rows >= FEWEST {
                let odd = Odd::of_column(Oddity::RepeatedColumn, self.header, column.place);
                found.take(odd.in_form(3));
            }
            let is_many = |odd: &Odd| {
                self.rows >= FEWEST && odd.number.saturating_mul(3) >= self.rows
            };
            let instead = column
                .instead
                .filter(|odd| column.is_instead && odd.number > 1);
            let more = column.more.filter(|odd| column.names_it && is_many(odd));
            let other = column.choices.other_than_votes();
            let crosses = column.crosses.with_more(self.rows);
            if let Some(odd) = instead.or(more).or(other).or(crosses) {
                if !all.iter().any(|other| other.value_place == odd.value_place) {
                    all.push(odd)?;
                }
            }
        }
        Ok(())
    }
}

impl OtherColumn {
    /// A column of this name, of which nothing was read. One that says it holds votes is not joined into them.
    fn of(place: usize, name: &str) -> OtherColumn {
        OtherColumn {
            place,
            ends: !has_part(OF_VOTES, name),
            first: None,
            differ: false,
            is_instead: true,
            instead: None,
            names_it: true,
            more: None,
            choices: Choices::of(name),
            is_of_votes: true,
            last_empty: LastEmpty::new(),
            crosses: Crosses::of(name),
        }
    }

    /// Whether something may be true of it; and of its texts.
    fn is_open(&self) -> bool {
        self.is_of_votes || self.last_empty.is_open || self.crosses.is_open || self.is_of_text()
    }

    /// Whether only a row can say something that has nothing in it, or no vote.
    fn waits(&self) -> bool {
        let is_of_empty = self.last_empty.is_open && !self.last_empty.waits();
        !(is_of_empty || self.crosses.is_open || self.is_of_text())
    }

    fn is_of_text(&self) -> bool {
        self.ends || self.is_instead || self.names_it || self.choices.is_open
    }

    /// Takes a row below the column names, which begin here, and below so many rows.
    fn take(&mut self, alloc: Global, row: &Row<'_>, header: Mark, above: usize) {
        let has_vote = !row.ballot().is_empty();
        let bytes = bytes_at(row.record, self.place);
        self.is_of_votes &= bytes.is_empty() != has_vote;
        if self.last_empty.is_open {
            self.last_empty.take(row, bytes.is_empty(), above);
        }
        if self.crosses.is_open {
            let odd = self.odd(row, header).in_form(6);
            self.crosses.take(bytes, row.ballot().len(), odd);
        }
        if !self.is_of_text() {
            return;
        }
        let value = row.at(self.place);
        if self.ends {
            self.ends &= is_it(row.value().rsplit(',').next(), value);
            let project = row.projects.place(value);
            self.differ |= self.first.is_some() && self.first != project;
            self.first = project;
        }
        if self.is_instead && value.is_empty() {
            self.is_instead = has_vote;
        } else if self.is_instead {
            self.is_instead = !has_vote && names_other(value, &[], row.projects).is_some();
            let odd = self.odd(row, header).in_form(1);
            self.instead = Some(odd.behind(self.instead));
        }
        if self.names_it || self.choices.is_open {
            self.take_names(alloc, row, self.odd(row, header));
        }
    }

    /// A row, as odd for its value in the column.
    fn odd(&self, row: &Row<'_>, header: Mark) -> Odd {
        let odd = row.odd(Oddity::IdBehindVote).named_in(header);
        odd.at(self.place)
    }

    /// Takes what the value of this oddity names.
    fn take_names(&mut self, alloc: Global, row: &Row<'_>, odd: Odd) {
        let value = row.at(self.place);
        let named = Named::of(alloc, row, value);
        self.choices.take(row, &named, odd);
        let length = row.ballot().len();
        self.names_it &= length == 0 || (length == 1 && named.has_own);
        if length == 1 && named.has_other {
            self.more = Some(odd.behind(self.more));
        }
    }
}

/// Whether a piece of a vote is this text, and not empty.
fn is_it(piece: Option<&str>, text: &str) -> bool {
    !text.is_empty() && piece.is_some_and(|piece| piece.trim() == text)
}
