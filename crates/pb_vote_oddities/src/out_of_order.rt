//! A few votes whose last id is not the one that comes last in PROJECTS, as in all others, and the same in each of them: a
//! program may have read `3,10` as the number 3.1, or replaced a part of it.

use crate::prelude::*;

/// The fewest votes of two projects or more, the fewest that are odd, and the part of all that these may be.
const FEWEST_VOTES: u64 = 20;

const FEWEST: u64 = 3;

const PART: u64 = 4;

/// The votes of two projects or more.
#[derive(Clone, Copy, Default)]
pub struct OutOfOrder {
    votes: u64,
    /// The first vote that does not end in the last of its projects, measured by how many there are, and in which project it ends.
    first: Option<Odd>,
    end: Option<u32>,
    /// Whether another one ends in another project.
    are_others: bool,
}

impl OutOfOrder {
    /// Takes a row that is accepted, with a vote of these bytes.
    pub fn take(&mut self, row: &Row<'_>, vote: &[u8]) {
        let ballot = row.ballot();
        let (Some(last), false) = (ballot.last(), self.are_others || ballot.len() < 2) else {
            return;
        };
        if ends_in(vote, id_of(row, *last)) {
            self.votes = self.votes.saturating_add(1);
            return;
        }
        let id = row.value().rsplit(',').next().unwrap_or("").trim();
        if id.is_empty() {
            return;
        }
        self.votes = self.votes.saturating_add(1);
        let mut places = ballot.iter().copied();
        let place = places.find(|place| id_of(row, *place) == id);
        if place == Some(*last) {
            return;
        }
        self.are_others = place.is_none() || (self.first.is_some() && place != self.end);
        self.end = place;
        let odd = row.odd(Oddity::TwiceInVote).in_form(5);
        self.first = Some(odd.behind(self.first));
    }

    /// The first such vote, if there are enough, and few among enough votes.
    pub fn odd(&self) -> Option<Odd> {
        let is_few = |odd: &Odd| {
            odd.number >= FEWEST && odd.number.saturating_mul(PART) <= self.votes
        };
        let may_be = !self.are_others && self.votes >= FEWEST_VOTES;
        self.first.filter(|odd| may_be && is_few(odd))
    }
}

/// The id of the project at this place.
fn id_of<'a>(row: &Row<'a>, place: u32) -> &'a str {
    match row.election.projects().get(place as usize) {
        Some(project) => project.id(),
        None => "",
    }
}

/// Whether a vote of these bytes ends in this id, behind a comma.
fn ends_in(vote: &[u8], id: &str) -> bool {
    let before = vote.len().saturating_sub(id.len()).saturating_sub(1);
    vote.ends_with(id.as_bytes()) && vote.get(before) == Some(&b',')
}
