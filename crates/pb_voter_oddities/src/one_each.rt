//! A row for each choice: every vote names one project, and another column says whose it is.

use crate::prelude::*;
use pb_oddities::chance::is_no_chance;
use pb_oddities::column_kinds::NOTES;
use pb_oddities::columns::MOST_COLUMNS;
use pb_seen::changed::is_one_of;
use pb_seen::fields::number_in;

/// How many of the first values of a column are looked at, in how many rows, and how long they may be together with a vote.
const MOST_VALUES: u64 = 1_000;

const MOST_ROWS: u64 = 5_000;

const LONGEST: usize = 64;

/// What is read, or is no voter.
const READ: &str = "voter_id|vote";

/// A column that may say whose choice a row is.
#[derive(Drop)]
struct VoterColumn {
    place: usize,
    /// Whether it has something in each row, and no value twice with one project.
    is_open: bool,
    /// Whether each row has how many come so far with its project.
    is_numbered: bool,
    /// The first values, and each with a project; how many values there are, and in how many rows.
    seen: IdTable,
    count: u64,
    rows: u64,
}

/// The columns of VOTES, as long as each vote names one project.
#[derive(Drop)]
pub struct OneEach {
    alloc: Global,
    header: Mark,
    columns: Vec<VoterColumn>,
    /// How many votes each project has.
    votes: Vec<u64>,
    /// Whether something may be said of a column.
    pub is_open: bool,
}

impl OneEach {
    /// Those with these names, which begin here.
    pub fn of(alloc: Global, names: &ByteRecord, header: Mark) -> Result<OneEach, AllocError> {
        let mut columns = Vec::new(alloc);
        for place in 0..names.len().min(MOST_COLUMNS) {
            let name = text_at(names, place);
            if !is_one_of(READ, name) && !is_one_of(NOTES, name) {
                columns.push(VoterColumn {
                    place,
                    is_open: true,
                    is_numbered: true,
                    seen: IdTable::new(alloc),
                    count: 0,
                    rows: 0,
                })?;
            }
        }
        Ok(OneEach {
            alloc,
            header,
            is_open: !columns.is_empty(),
            columns,
            votes: Vec::new(alloc),
        })
    }

    /// Takes a row that is accepted.
    pub fn take(&mut self, row: &Row<'_>) -> Result<(), AllocError> {
        self.is_open = false;
        let (&[project], limit) = (row.ballot(), row.election.max_length()) else {
            return Ok(());
        };
        if self.votes.is_empty() {
            self.votes.resize(row.election.projects().len(), 0)?;
        }
        let mut votes = 0u64;
        if let Some(count) = self.votes.get_mut(project as usize) {
            *count = count.saturating_add(1);
            votes = *count;
        }
        for column in self.columns.iter_mut() {
            if column.is_open && limit != Some(1) {
                column.take(self.alloc, row, votes)?;
                self.is_open |= column.is_open;
            }
        }
        Ok(())
    }

    /// Takes the end of the file: a column is odd whose values come in three rows for two on average, if it is no chance
    /// that none comes twice with one project.
    pub fn end(&self, found: &mut Oddities) {
        let (mut all, mut same) = (0u64, 0u64);
        for votes in &self.votes {
            all = all.saturating_add(*votes);
            same = same.saturating_add(votes.saturating_mul(*votes));
        }
        let pairs = all.saturating_mul(all);
        let other = pairs.saturating_sub(same);
        for column in self
            .columns
            .iter()
            .filter(|column| self.is_open && column.is_open)
        {
            let again = column.rows.saturating_sub(column.count);
            let are_most = again.saturating_mul(2) >= column.count && !column.is_numbered;
            if are_most && is_no_chance(1_000, (other, pairs), again) {
                let odd = Odd::of_column(Oddity::SeveralBallots, self.header, column.place);
                found.take(odd.in_form(2));
            }
        }
    }
}

impl VoterColumn {
    /// Takes a row whose project has so many votes with it.
    fn take(&mut self, alloc: Global, row: &Row<'_>, votes: u64) -> Result<(), AllocError> {
        let (value, vote) = (row.at(self.place), row.value());
        self.is_numbered &= number_in(value.as_bytes()).map(u64::from) == Some(votes);
        self.is_open = !value.is_empty() && value.len().saturating_add(vote.len()) <= LONGEST;
        if !self.is_open || self.rows >= MOST_ROWS {
            return Ok(());
        }
        if self.seen.get(value).is_none() {
            if self.count >= MOST_VALUES {
                return Ok(());
            }
            let _ = self.seen.insert(alloc, value, 0)?;
            self.count = self.count.saturating_add(1);
        }
        self.rows = self.rows.saturating_add(1);
        let mut pair = String::from_str(alloc, value)?;
        pair.push(';')?;
        pair.push_str(vote)?;
        self.is_open = self.seen.insert(alloc, pair.as_str(), 0)?.is_none();
        Ok(())
    }
}
