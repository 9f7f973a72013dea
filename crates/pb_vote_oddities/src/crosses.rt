//! A column of VOTES that says how many crosses a ballot has, and the votes that have fewer projects.

use crate::prelude::*;
use pb_seen::changed::has_one_of;
use pb_seen::fields::number_in;

/// The fewest rows, and how many more rows may say more than the vote than just as much.
const FEWEST: u64 = 8;

/// The fewest rows that say more than the vote.
const FEWEST_MORE: u64 = 2;

/// The longest number, in digits; and so many numbers are told apart.
const LONGEST: usize = 2;

const NUMBERS: usize = 10;

/// Words in the name of a column that says how many projects a voter may choose, or is not meant for votes.
const OTHERS: &str = "max|maximum|most|limit|allowed|permitted|comment";

/// What a column says beside the votes.
#[derive(Clone, Copy)]
pub struct Crosses {
    /// Whether it may say how many projects votes have.
    pub is_open: bool,
    /// How many rows say just how many, and how many of these say each number.
    equal: u64,
    numbers: [u64; NUMBERS],
    /// The first row that says more, measured by how many there are.
    more: Option<Odd>,
}

impl Crosses {
    /// A column of this name, of which nothing was read.
    pub fn of(name: &str) -> Crosses {
        Crosses {
            is_open: !has_one_of(OTHERS, name),
            equal: 0,
            numbers: [0; NUMBERS],
            more: None,
        }
    }

    /// Takes a row, with the bytes of this column, whose vote has so many projects.
    pub fn take(&mut self, value: &[u8], length: usize, odd: Odd) {
        let number = number_in(value).filter(|_| value.len() <= LONGEST);
        match number.map(|number| number as usize) {
            Some(number) if number == length => {
                self.equal = self.equal.saturating_add(1);
                if let Some(count) = self.numbers.get_mut(number) {
                    *count = count.saturating_add(1);
                }
            }
            Some(number) if number > length => self.more = Some(odd.behind(self.more)),
            _ => self.is_open = false,
        }
        let more = self.more.map_or(0, |odd| odd.number);
        self.is_open &= more <= self.equal.saturating_add(FEWEST);
    }

    /// The first of the rows, two or more, that say more than the vote has, if none of so many says less, three in five say
    /// just as much, and these say different numbers.
    pub fn with_more(&self, rows: u64) -> Option<Odd> {
        let odd = self.more.filter(|_| self.is_open && rows >= FEWEST)?;
        let are_most = self.equal.saturating_mul(5) >= rows.saturating_mul(3);
        let again = self.numbers.iter().filter(|count| **count > 1).count();
        (odd.number >= FEWEST_MORE && are_most && again > 1).then_some(odd)
    }
}
