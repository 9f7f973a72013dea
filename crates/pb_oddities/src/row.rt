//! A row of PROJECTS or VOTES that is accepted.

use crate::prelude::*;
use pb_read::MetaKey;
use pb_seen::amounts::whole_number;
use pb_seen::changed::plain;

/// What META asks of ballots, beside the most projects that one may name.
#[derive(Clone, Copy, Default)]
pub struct Limits {
    /// The fewest projects.
    pub min_length: Option<u64>,
    /// The least and the most that its projects may cost together, in hundredths.
    pub min_cost: Option<u64>,
    pub max_cost: Option<u64>,
    /// The first and the last day on which ballots are cast, and the last row that says one of them.
    pub begin: Option<u64>,
    pub end: Option<u64>,
    pub dates: Option<Mark>,
}

/// How many days a ballot may be cast before the first day or behind the last, and nothing is said: where others are within,
/// as for ballots that were typed later, and where none is.
pub const NEXT: u64 = 3;

pub const NEAR: u64 = 31;

impl Limits {
    /// Whether META says what the projects of a ballot may cost together.
    pub fn are_of_costs(&self) -> bool {
        self.min_cost.is_some() || self.max_cost.is_some()
    }

    /// Whether a day is more than so many days before the first one or behind the last.
    pub fn exclude(&self, day: u64, days: u64) -> bool {
        let is_before = self
            .begin
            .is_some_and(|begin| day.saturating_add(days) < begin);
        is_before || self.end.is_some_and(|end| end.saturating_add(days) < day)
    }
}

/// Whether there is a digit among bytes.
fn has_number(bytes: &[u8]) -> bool {
    for byte in bytes {
        if byte.is_ascii_digit() {
            return true;
        }
    }
    false
}

/// The number of the day that a text begins with, like `2026-05-31` or `31.5.2026`: 400 years have 146,097 of them.
pub fn day_of(text: &str) -> Option<u64> {
    let mut parts = text.split(|c: char| !c.is_ascii_digit());
    let (first, month, last) = (parts.next()?, parts.next()?, parts.next()?);
    let (year, day) = if first.len() == 4 {
        (first, last)
    } else {
        (last, first)
    };
    let (months, days) = (whole_number(month)?, whole_number(day)?);
    let is_day = year.len() == 4 && matches!((months, days), (1..=12, 1..=31));
    // Years that begin in March end with the day that some lack.
    let months = months.saturating_add(9) % 12;
    let year = whole_number(year)?.saturating_sub(months / 10);
    let days = days
        .saturating_add(months.saturating_mul(306).saturating_add(5) / 10)
        .saturating_add(year.saturating_mul(365))
        .saturating_add(year / 4)
        .saturating_sub(year / 100);
    (is_day && !text.contains('/')).then_some(days.saturating_add(year / 400))
}

/// The year of the day with this number, or another one within two days of a new year.
pub fn year_of(day: u64) -> u64 {
    day.saturating_add(59).saturating_mul(400) / 146_097
}

/// A row of PROJECTS or VOTES that is accepted.
#[derive(Clone, Copy)]
pub struct Row<'a> {
    pub record: &'a ByteRecord,
    /// Where it begins, and what it is.
    pub mark: Mark,
    pub part: Part,
    /// What is accepted so far; it is the last project or voter of it.
    pub election: &'a Election,
    /// The ids of the projects before it, each with its place.
    pub projects: &'a Firsts,
    /// Their names, in plain form.
    pub names: &'a Firsts,
    /// What META asks of it.
    pub limits: &'a Limits,
    /// The district and the currency that META names; empty if it names none.
    pub district: &'a str,
    pub currency: &'a str,
    /// The places of the projects that its vote names.
    pub ballot: &'a [u32],
}

impl<'a> Row<'a> {
    /// It, as odd so.
    pub fn odd(&self, oddity: Oddity) -> Odd {
        Odd::of_row(oddity, self.mark, self.part)
    }

    /// Its field at this place.
    pub fn at(&self, place: usize) -> &'a str {
        text_at(self.record, place)
    }

    /// The places of its id, and of its cost or its vote.
    pub fn places(&self) -> (usize, usize) {
        match self.part {
            Part::Project(columns) => (columns.id, columns.cost),
            Part::Vote(columns) => (columns.voter, columns.vote),
            _ => (0, 1),
        }
    }

    /// The bytes of these.
    pub fn bytes(&self) -> (&'a [u8], &'a [u8]) {
        let (id, value) = self.places();
        (bytes_at(self.record, id), bytes_at(self.record, value))
    }

    /// Its id.
    pub fn id(&self) -> &'a str {
        self.at(self.places().0)
    }

    /// Whether its id, of these bytes, is a key of META that the count uses, as where a row of META stands in this section.
    pub fn has_key(&self, id: &[u8]) -> bool {
        !has_number(id) && MetaKey::of(self.id()).is_some()
    }

    /// Whether a text is the name of a project before it, or differs by case and white space.
    pub fn has_name(&self, alloc: Global, text: &str) -> bool {
        let name = plain(alloc, text);
        name.is_ok_and(|name| !name.is_empty() && self.names.has(name.as_str()))
    }

    /// Whether it has a text beside its id.
    pub fn has_more(&self) -> bool {
        let id = self.places().0;
        (0..self.record.len()).any(|place| place != id && !self.at(place).is_empty())
    }

    /// Its cost or its vote.
    pub fn value(&self) -> &'a str {
        self.at(self.places().1)
    }

    /// The places of the projects that its vote names.
    pub fn ballot(&self) -> &'a [u32] {
        self.ballot
    }
}
