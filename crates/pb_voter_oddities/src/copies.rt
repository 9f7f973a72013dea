//! Rows of VOTES that come again in the same order or the opposite one, as where a stack of ballots was scanned twice.

use crate::prelude::*;
use pb_oddities::chance::is_no_chance;
use pb_oddities::kept::kept_in;
use std::str;

/// The fewest rows that come again, how many of them are different, and how many rows there are.
const FEWEST: usize = 4;

const FEWEST_KINDS: usize = 3;

const FEWEST_ROWS: usize = 8;

/// The most rows of which it is looked for whether some come again.
const MOST_ROWS: usize = 2_000;

/// The rows of VOTES, by what they say beside their ids.
#[derive(Drop)]
pub struct Copies {
    alloc: Global,
    /// What rows say, each with the number of the first row that says it.
    texts: IdTable,
    /// Of each row the number of the first that says the same, and where it stands.
    rows: Vec<(u32, Mark)>,
}

impl Copies {
    /// No row yet.
    pub fn new(alloc: Global) -> Copies {
        Copies {
            alloc,
            texts: IdTable::new(alloc),
            rows: Vec::new(alloc),
        }
    }

    /// Whether there were no more rows than are looked at.
    pub fn is_open(&self) -> bool {
        self.rows.len() <= MOST_ROWS
    }

    /// Takes a row with an id of these bytes, if it is the first field.
    pub fn take(&mut self, row: &Row<'_>, id: &[u8]) -> Result<(), AllocError> {
        if row.places().0 > 0 {
            return Ok(());
        }
        let behind = row.record.as_slice().get(id.len()..).unwrap_or(b"");
        let text = str::from_utf8(behind).unwrap_or("");
        let place = u32::try_from(self.rows.len()).unwrap_or(u32::MAX);
        let first = kept_in(&mut self.texts, self.alloc, text, place)?;
        self.rows.push((first.unwrap_or(place), row.mark))?;
        Ok(())
    }

    /// Takes the end of the file, whose last row is odd so: the first rows that come again, four or more with three
    /// different texts or more, are odd if they are so many that this is no chance.
    pub fn end(&self, last: Option<Odd>, found: &mut Oddities) -> Result<(), AllocError> {
        let count = self.rows.len();
        if !(FEWEST_ROWS..=MOST_ROWS).contains(&count) {
            return Ok(());
        }
        let equal = self.equal_pairs()?;
        let mut windows = IdTable::new(self.alloc);
        for at in 0..=count.saturating_sub(FEWEST) {
            let key = self.key_at(at)?;
            let place = u32::try_from(at).unwrap_or(u32::MAX);
            let first = kept_in(&mut windows, self.alloc, key.as_str(), place)?;
            let first = first.map_or(at, |first| first as usize);
            let length = self.length_of(first, at);
            if self.are_again(at, length, equal) {
                self.say((first, at), (length, 5), last, found);
                return Ok(());
            }
            let key = self.key_from_below(at)?;
            let first = windows.get(key.as_str()).map_or(at, |first| first as usize);
            let bottom = first.saturating_add(FEWEST).saturating_sub(1);
            let length = self.length_from_below(bottom, at);
            if self.are_again(at, length, equal) {
                self.say((bottom, at), (length, 9), last, found);
                return Ok(());
            }
        }
        Ok(())
    }

    /// Whether so many rows from this place on, which say what earlier ones do, are enough, different and no chance.
    fn are_again(&self, at: usize, length: usize, equal: u64) -> bool {
        length >= FEWEST && self.is_no_chance(length, equal) && self.are_different(at, length)
    }

    /// Says that so many rows from the second place on are those from the first on, or from it upwards, by the form.
    fn say(
        &self,
        (first, at): (usize, usize),
        (length, form): (usize, usize),
        last: Option<Odd>,
        found: &mut Oddities,
    ) {
        if let (Some(odd), Some(row), Some(before)) = (
            last,
            self.rows.get(at),
            self.rows.get(first),
        ) {
            let odd = odd.as_a(Oddity::NoteRows).in_form(form);
            found.take(Odd {
                mark: row.1,
                before: Some(before.1),
                ..odd.by(length as u64)
            });
        }
    }

    /// What the row at this place says, by the first row that does.
    fn said_at(&self, place: usize) -> u32 {
        self.rows.get(place).map_or(u32::MAX, |row| row.0)
    }

    /// What four rows from this place on say.
    fn key_at(&self, at: usize) -> Result<String, AllocError> {
        let mut key = String::new(self.alloc);
        for place in at..at.saturating_add(FEWEST) {
            push_said(&mut key, self.said_at(place))?;
        }
        Ok(key)
    }

    /// What four rows from this place on say, from below.
    fn key_from_below(&self, at: usize) -> Result<String, AllocError> {
        let mut key = String::new(self.alloc);
        for step in 1..=FEWEST {
            let place = at.saturating_add(FEWEST).saturating_sub(step);
            push_said(&mut key, self.said_at(place))?;
        }
        Ok(key)
    }

    /// How many rows from the second place on say what those from the first on do, up to the second place.
    fn length_of(&self, first: usize, at: usize) -> usize {
        let mut length = 0usize;
        for (one, other) in (first..at).zip(at..self.rows.len()) {
            if self.said_at(one) != self.said_at(other) {
                break;
            }
            length = length.saturating_add(1);
        }
        length
    }

    /// How many rows from the second place on say what those from the first upwards do, if that is above the second.
    fn length_from_below(&self, bottom: usize, at: usize) -> usize {
        let mut length = 0usize;
        for step in 0..=bottom {
            let (one, other) = (bottom.saturating_sub(step), at.saturating_add(step));
            if bottom >= at || self.said_at(one) != self.said_at(other) {
                break;
            }
            length = length.saturating_add(1);
        }
        length
    }

    /// Whether there are three different ones or more among so many rows from this place on.
    fn are_different(&self, at: usize, length: usize) -> bool {
        let mut kinds = 0usize;
        for place in at..at.saturating_add(length) {
            let is_new = (at..place).all(|before| self.said_at(before) != self.said_at(place));
            kinds = kinds.saturating_add(usize::from(is_new));
            if kinds >= FEWEST_KINDS {
                return true;
            }
        }
        false
    }

    /// How many pairs of rows there are that say the same, in both orders and each with itself.
    fn equal_pairs(&self) -> Result<u64, AllocError> {
        let mut numbers = Vec::new(self.alloc);
        numbers.resize(self.rows.len(), 0u64)?;
        let mut equal = 0u64;
        for row in &self.rows {
            if let Some(number) = numbers.get_mut(row.0 as usize) {
                // Each of them makes two pairs with this row.
                equal = equal.saturating_add(number.saturating_mul(2).saturating_add(1));
                *number = number.saturating_add(1);
            }
        }
        drop(numbers);
        Ok(equal)
    }

    /// Whether the chance is less than one in a thousand that so many rows come again, in any two places, if so many pairs of
    /// rows say the same by chance; also if as many do as say the same as the row above.
    fn is_no_chance(&self, length: usize, equal: u64) -> bool {
        let count = self.rows.len() as u64;
        let pairs = count.saturating_mul(count);
        let (times, run) = (pairs.saturating_mul(500), length as u64);
        if !is_no_chance(times, (equal, pairs), run) {
            return false;
        }
        let mut as_above = 0u64;
        for (above, place) in (0..self.rows.len()).zip(1..self.rows.len()) {
            as_above = as_above.saturating_add(u64::from(
                self.said_at(above) == self.said_at(place),
            ));
        }
        is_no_chance(times, (as_above, count), run)
    }
}

/// Puts what a row says behind a key.
fn push_said(key: &mut String, said: u32) -> Result<(), AllocError> {
    for part in [said / 64, said % 64] {
        key.push(char::from(u8::try_from(part).unwrap_or(u8::MAX)))?;
    }
    Ok(())
}
