//! Column names behind which, on the same line, the first row of the section stands.

use crate::prelude::*;
use pb_seen::firsts::names_other;
use pb_seen::swallowed::{columns_of, place_of_row};

/// A row of column names, and whether the first row may stand behind it.
#[derive(Clone, Copy)]
pub struct NamesRow {
    /// It, as odd for the field of that row which shows this, if one does.
    odd: Option<Odd>,
    /// How many names there are then, and the most fields of a row below.
    columns: usize,
    most: usize,
}

impl NamesRow {
    /// These names of a section, which begin here. No row was read yet.
    pub fn of(names: &ByteRecord, mark: Mark, section: Section, projects: &Firsts) -> NamesRow {
        let place = place_of_row(names, section, projects);
        NamesRow {
            odd: place.map(|place| Odd::of_column(Oddity::SwallowedRows, mark, place).in_form(2)),
            columns: columns_of(names),
            most: 0,
        }
    }

    /// Takes a row below.
    pub fn take(&mut self, row: &ByteRecord) {
        self.most = self.most.max(row.len());
    }

    /// Takes the end of the section: no row may have more fields than there are names.
    pub fn end(&self, found: &mut Oddities) {
        found.take_some(self.odd.filter(|_| self.most <= self.columns));
    }
}
