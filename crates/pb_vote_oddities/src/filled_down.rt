//! The last rows of VOTES, if they have the vote of the row above them and lack what all rows above have: as where a vote was
//! filled down to rows with an id alone.

use crate::prelude::*;
use pb_oddities::chance::is_no_chance;

/// The fewest rows that are filled down, and the fewest above them.
const FEWEST: u64 = 4;

/// Which rows have nothing in a column.
#[derive(Clone, Copy)]
pub struct LastEmpty {
    /// Whether each row without a text comes behind each with one, and behind some.
    pub is_open: bool,
    /// How many rows have one, above the first that has none.
    full: usize,
    /// The first row that has none, measured by how many there are.
    empty: Option<Odd>,
}

impl LastEmpty {
    /// Of no row yet.
    pub fn new() -> LastEmpty {
        LastEmpty {
            is_open: true,
            full: 0,
            empty: None,
        }
    }

    /// Whether each row so far has one: then nothing is to be taken of a further row that has one.
    pub fn waits(&self) -> bool {
        self.is_open && self.empty.is_none()
    }

    /// Takes a row, which has nothing in the column or something, below so many.
    pub fn take(&mut self, row: &Row<'_>, is_empty: bool, above: usize) {
        if self.empty.is_none() {
            self.full = above;
        }
        if !is_empty {
            self.is_open = self.empty.is_none();
        } else if (self.full as u64) < FEWEST {
            self.is_open = false;
        } else {
            let odd = row.odd(Oddity::NoteRows).in_form(11);
            self.empty = Some(odd.behind(self.empty));
        }
    }

    /// The first row that has none, if all of these have the vote of the row above them, and it is less than one in a hundred
    /// that by chance so many do, where as many have it as above, or have the vote of the row above.
    pub fn filled_down(&self, election: &Election) -> Option<Odd> {
        let odd = self.empty?;
        if !self.is_open || odd.number < FEWEST {
            return None;
        }
        let ballot = ballot_at(election, self.full.saturating_sub(1));
        let is_it = |place: usize| ballot_at(election, place) == ballot;
        let are_filled = (self.full..election.voters().len()).all(is_it);
        if ballot.is_empty() || !are_filled {
            return None;
        }
        let (mut same, mut as_above) = (0u64, 0u64);
        for place in 0..self.full {
            let (own, above) = (
                ballot_at(election, place),
                ballot_at(election, place.saturating_sub(1)),
            );
            same = same.saturating_add(u64::from(own == ballot));
            as_above = as_above.saturating_add(u64::from(place > 0 && own == above));
        }
        let part = (same.max(as_above), self.full as u64);
        is_no_chance(100, part, odd.number).then_some(odd)
    }
}

/// The places of the projects that the voter at this place approves.
fn ballot_at(election: &Election, place: usize) -> &[u32] {
    match election.voters().get(place) {
        Some(voter) => voter.ballot.places(),
        None => &[],
    }
}
