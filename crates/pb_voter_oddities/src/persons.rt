//! Several ballots of one person, by a column such as `email`.

use crate::prelude::*;
use pb_seen::changed::has_one_of;

/// Words in the name of a column that each person has one of, and in that of one that people share.
const PERSONS: &str = "email|mail|pesel|token|hash|passport|ssn";

const OTHERS: &str = "parent|parents|guardian|household|office|comment";

/// The fewest rows that repeat a value, and how many different values there are at least for each.
const FEWEST: u64 = 2;

const DIFFERENT: u64 = 5;

/// The longest value.
const LONGEST: usize = 64;

/// The first such column.
#[derive(Drop)]
pub struct Persons {
    alloc: Global,
    header: Mark,
    place: usize,
    /// Whether nearly all values so far are different.
    pub is_open: bool,
    /// The values, how many they are, and the first row that repeats one, measured by how many there are.
    seen: IdTable,
    count: u64,
    again: Option<Odd>,
}

impl Persons {
    /// Of these column names, which begin here.
    pub fn of(alloc: Global, names: &ByteRecord, header: Mark) -> Persons {
        let is_it = |place: &usize| {
            let name = text_at(names, *place);
            has_one_of(PERSONS, name) && !has_one_of(OTHERS, name)
        };
        let place = (0..names.len()).find(is_it);
        Persons {
            alloc,
            header,
            place: place.unwrap_or(0),
            is_open: place.is_some(),
            seen: IdTable::new(alloc),
            count: 0,
            again: None,
        }
    }

    /// Takes a row that is accepted.
    pub fn take(&mut self, row: &Row<'_>) -> Result<(), AllocError> {
        let value = row.at(self.place);
        if value.is_empty() || value.len() > LONGEST {
            return Ok(());
        }
        if self.seen.insert(self.alloc, value, 0)?.is_none() {
            self.count = self.count.saturating_add(1);
            return Ok(());
        }
        let odd = row.odd(Oddity::SeveralBallots).in_form(3);
        let odd = odd.at(self.place).named_in(self.header).behind(self.again);
        self.again = Some(odd);
        self.is_open = odd.number <= self.count;
        Ok(())
    }

    /// The first row that repeats a value, if there are two or more, and five different values for each.
    pub fn odd(&self) -> Option<Odd> {
        let is_few = |odd: &Odd| {
            odd.number >= FEWEST && odd.number.saturating_mul(DIFFERENT) <= self.count
        };
        self.again.filter(|odd| self.is_open && is_few(odd))
    }
}
