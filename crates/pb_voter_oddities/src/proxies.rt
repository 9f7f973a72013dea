//! Columns of VOTES that name voters who have no rows, as where a row stands for others too.

use crate::prelude::*;
use pb_oddities::column_kinds::{NOTES, OF_VOTERS};
use pb_oddities::columns::MOST_COLUMNS;
use pb_seen::changed::{form_of, has_digit, is_one_of};

/// The most bytes of an id in such a column, and the fewest ids.
const LONGEST: usize = 40;

const FEWEST: u64 = 2;

/// A column whose texts may be ids of voters.
#[derive(Drop)]
struct ProxyColumn {
    /// The ids in it, and one of them.
    ids: IdTable,
    form: String,
    /// The first row with a text, measured by how many ids there are.
    first: Option<Odd>,
    place: usize,
    is_open: bool,
}

/// The columns of VOTES beside the id and the vote.
#[derive(Drop)]
pub struct Proxies {
    alloc: Global,
    header: Mark,
    columns: Vec<ProxyColumn>,
    /// Whether one of them may still be odd.
    pub are_open: bool,
}

impl Proxies {
    /// Those with these names, which begin here.
    pub fn of(alloc: Global, names: &ByteRecord, header: Mark) -> Result<Proxies, AllocError> {
        let read = [Column::VoterId.name(), Column::Vote.name()];
        let mut columns = Vec::new(alloc);
        for place in 0..names.len().min(MOST_COLUMNS) {
            let name = text_at(names, place);
            let is_read = read.iter().any(|read| name.eq_ignore_ascii_case(read));
            columns.push(ProxyColumn {
                ids: IdTable::new(alloc),
                form: String::new(alloc),
                first: None,
                place,
                is_open: !is_read && !is_one_of(OF_VOTERS, name) && !is_one_of(NOTES, name),
            })?;
        }
        Ok(Proxies {
            alloc,
            header,
            columns,
            are_open: true,
        })
    }

    /// Takes a row that is accepted, as long as a column may still be odd.
    pub fn take(&mut self, row: &Row<'_>) -> Result<(), AllocError> {
        self.are_open = false;
        for column in self.columns.iter_mut() {
            if column.is_open && !bytes_at(row.record, column.place).is_empty() {
                column.take(self.alloc, row, self.header)?;
            }
            self.are_open |= column.is_open;
        }
        Ok(())
    }

    /// Takes the end of the file: a column is odd whose ids have the form of most voters' ids, and are those of no row.
    pub fn end(&self, election: &Election, found: &mut Oddities) -> Result<(), AllocError> {
        for column in &self.columns {
            if let Some(odd) = column
                .first
                .filter(|odd| column.is_open && odd.number >= FEWEST)
            {
                let (mut like, mut has_row) = (0usize, false);
                for voter in election.voters() {
                    let id = voter.id.text();
                    has_row |= column.ids.get(id).is_some();
                    let form = form_of(self.alloc, id, false)?;
                    like = like.saturating_add(usize::from(form.as_str() == column.form.as_str()));
                }
                if !has_row && like.saturating_mul(2) >= election.voters().len() {
                    found.take(odd);
                }
            }
        }
        Ok(())
    }
}

impl ProxyColumn {
    /// Takes the text of a row, in which other texts than ids of one form show that the column names no voters; or ids in most
    /// rows.
    fn take(&mut self, alloc: Global, row: &Row<'_>, header: Mark) -> Result<(), AllocError> {
        let is_between = |c: char| ",|/ ".contains(c);
        for id in row
            .at(self.place)
            .split(is_between)
            .filter(|id| !id.is_empty())
        {
            let form = form_of(alloc, id, false)?;
            if self.first.is_none() {
                self.form = form_of(alloc, id, false)?;
            }
            let odd = row.odd(Oddity::SeveralBallots).in_form(1).named_in(header);
            let first = odd.at(self.place).behind(self.first);
            self.first = Some(first);
            let is_id = id.len() <= LONGEST
                && has_digit(id)
                && id.contains(|c: char| c.is_alphabetic());
            let most = (row.election.voters().len() as u64).saturating_add(8);
            self.is_open &= is_id && form.as_str() == self.form.as_str() && first.number <= most;
            let is_again = self.is_open && self.ids.insert(alloc, id, 0)?.is_some();
            self.is_open &= !is_again;
        }
        Ok(())
    }
}
