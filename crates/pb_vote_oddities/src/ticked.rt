//! Ballots that name all projects, where the others name few: the boxes may have been ticked before voters saw them.

use crate::prelude::*;

/// The fewest projects, and the fewest ballots that name all of them, and of others.
const FEWEST_PROJECTS: usize = 6;

const FEWEST: u64 = 4;

/// Of how many ballots one names all projects, at least.
const OF_BALLOTS: u64 = 5;

/// The ballots that name all projects, and the others.
#[derive(Clone, Copy, Default)]
pub struct Ticked {
    /// How many ballots name some projects, and how many the longest that does not name all.
    rows: u64,
    most: usize,
    /// The first that names all, measured by how many do.
    full: Option<Odd>,
}

impl Ticked {
    /// Takes a row that is accepted.
    pub fn take(&mut self, row: &Row<'_>) {
        let (length, all) = (row.ballot().len(), row.election.projects().len());
        if length == 0 {
            return;
        }
        self.rows = self.rows.saturating_add(1);
        if length < all {
            self.most = self.most.max(length);
        } else {
            let odd = row.odd(Oddity::TwiceInVote).in_form(3);
            self.full = Some(odd.behind(self.full));
        }
    }

    /// The first ballot that names all of so many projects, if at least one in five ballots does, and no other names more than half.
    pub fn ticked(&self, projects: usize) -> Option<Odd> {
        let odd = self.full.filter(|_| projects >= FEWEST_PROJECTS)?;
        let (full, others) = (odd.number, self.rows.saturating_sub(odd.number));
        let are_many = full.saturating_mul(OF_BALLOTS) >= self.rows;
        let are_apart = self.most.saturating_mul(2) <= projects;
        let is_odd = full >= FEWEST && others >= FEWEST && are_many && are_apart;
        is_odd.then_some(Odd {
            limit: Some(self.most as u64),
            ..odd
        })
    }
}
