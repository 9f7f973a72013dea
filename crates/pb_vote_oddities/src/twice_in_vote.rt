//! Votes that name a project twice; and whether it is the one with which every vote begins.

use crate::prelude::*;
use pb_seen::fields::count_of;

/// The fewest votes that begin with one id.
const FEWEST: u64 = 8;

/// The form of a vote that has twice the id with which every vote begins.
const BEGUN: usize = 4;

/// What all votes begin with.
#[derive(Drop)]
pub struct TwiceInVote {
    /// The id with which the first vote begins.
    first: String,
    /// How many votes begin with it, and whether all do so far.
    rows: u64,
    is_open: bool,
}

impl TwiceInVote {
    /// No row yet.
    pub fn new(alloc: Global) -> TwiceInVote {
        TwiceInVote {
            first: String::new(alloc),
            rows: 0,
            is_open: true,
        }
    }

    /// Takes a row, whose vote has these bytes.
    pub fn take(
        &mut self,
        row: &Row<'_>,
        vote: &[u8],
        found: &mut Oddities,
    ) -> Result<(), AllocError> {
        let length = row.ballot().len();
        if self.is_open {
            self.take_first(row.value())?;
        }
        if count_of(vote, b',') >= length && names_twice(row.value(), length) {
            let odd = row.odd(Oddity::TwiceInVote);
            found.take(odd.in_form(self.form_of(row.value())));
        }
        Ok(())
    }

    /// Takes the id with which a vote begins.
    fn take_first(&mut self, vote: &str) -> Result<(), AllocError> {
        let id = vote.split(',').next().unwrap_or("").trim();
        if self.rows == 0 {
            self.first.push_str(id)?;
        }
        self.rows = self.rows.saturating_add(1);
        self.is_open = !id.is_empty() && id == self.first.as_str();
        Ok(())
    }

    /// How a vote is odd that names a project twice, by all votes so far.
    fn form_of(&self, vote: &str) -> usize {
        let (_, rest) = vote.split_once(',').unwrap_or(("", ""));
        let is_it = |piece: &str| piece.trim() == self.first.as_str();
        let is_begun = self.is_open && rest.split(',').any(is_it);
        if is_begun { BEGUN } else { 0 }
    }

    /// Takes the end of the file: unless all votes begin with one id, and there are enough, no vote is odd for that.
    pub fn end(&self, found: &mut Oddities) {
        if !self.is_open || self.rows < FEWEST {
            found.reform(Oddity::TwiceInVote, (BEGUN, 0));
        }
    }
}

/// Whether a vote that approves so many projects names more.
fn names_twice(vote: &str, length: usize) -> bool {
    let pieces = vote.split(',');
    pieces.filter(|piece| !piece.trim().is_empty()).count() > length
}
