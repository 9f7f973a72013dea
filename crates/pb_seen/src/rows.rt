//! The rows of VOTES, as far as their number says why voters stand in several of them.

use crate::fields::count_of;
use crate::prelude::*;

/// The place of no voter and no project.
const NONE: u32 = u32::MAX;

/// The fewest rows of a first list.
const FEWEST: u64 = 3;

/// The rows of VOTES that were read.
#[derive(Drop)]
pub struct VoteRows {
    /// Where the first row stands that is accepted, how many rows are, and how many are refused.
    pub first: Option<Mark>,
    pub accepted: u64,
    pub refused: u64,
    /// How many of these name no project, and something else than words for nothing: without their unknown
    /// ids they are empty.
    pub emptied: u64,
    /// Whether a vote names a project that the file has.
    pub names_project: bool,
    /// Of each further row the place of the voter, and of the project that it names, or `NONE`.
    repeated: Vec<(u32, u32)>,
    /// How many rows were accepted before the first of them; and whether these are a second list: they follow
    /// each other as the first rows of these voters do, from the first row of the file on.
    before: u64,
    is_second_list: bool,
    /// How many rows name a project that another row of their voter names.
    twice: u64,
    /// How many votes that are accepted end in a comma.
    pub cut: u64,
    /// How many rows repeat an id, and how many voters stand in several rows, once the file has ended.
    pub rows_repeated: u64,
    pub voters_repeated: u64,
    /// Whether a row names several projects.
    has_long: bool,
    /// Whether a vote that is accepted names a project, or several, where some are refused for an unknown id;
    /// and whether one of these has a comma.
    pub has_bare: bool,
    pub has_list: bool,
    pub has_comma: bool,
    /// How many commas the last vote with ids has, and whether all have as many.
    commas: Option<usize>,
    pub differ: bool,
    /// Of each project up to the last one that a vote names whether a vote names it.
    named: Vec<bool>,
}

impl VoteRows {
    /// No row yet.
    pub fn new(alloc: Global) -> VoteRows {
        VoteRows {
            first: None,
            accepted: 0,
            refused: 0,
            emptied: 0,
            names_project: false,
            repeated: Vec::new(alloc),
            before: 0,
            is_second_list: true,
            twice: 0,
            cut: 0,
            rows_repeated: 0,
            voters_repeated: 0,
            has_long: false,
            has_bare: false,
            has_list: false,
            has_comma: false,
            commas: None,
            differ: false,
            named: Vec::new(alloc),
        }
    }

    /// Takes a further row of the voter at this place, with this vote, which may be the project at this
    /// place.
    pub fn repeat(
        &mut self,
        place: u32,
        vote: &str,
        project: Option<u32>,
    ) -> Result<(), AllocError> {
        self.has_long |= vote.contains(',');
        let is_next = match self.repeated.last() {
            None => {
                self.before = self.accepted;
                place == 0
            }
            Some((before, _)) => {
                self.before == self.accepted && place == before.saturating_add(1)
            }
        };
        self.is_second_list &= is_next;
        self.repeated.push((place, project.unwrap_or(NONE)))?;
        Ok(())
    }

    /// Whether so many rows name a project that another row of their voter names that these are no copies:
    /// one for each three voters.
    pub fn name_twice(&self) -> bool {
        self.twice > 0 && self.twice.saturating_mul(3) >= self.accepted
    }

    /// Whether the ids begin anew in a later row, as in two lists, and not as in one that is sorted by
    /// projects.
    pub fn begin_anew(&self) -> bool {
        let first = self.repeated.first().map(|row| row.1);
        let is_other = |row: &(u32, u32)| Some(row.1) != first;
        self.is_second_list && self.before >= FEWEST && self.repeated.iter().any(is_other)
    }

    /// Takes the vote of a row that is accepted, and begins here.
    pub fn take(&mut self, vote: &[u8], mark: Mark) {
        if self.accepted == 0 {
            self.first = Some(mark);
        }
        self.accepted = self.accepted.saturating_add(1);
        self.see(vote);
        let is_cut = vote.last() == Some(&b',');
        self.cut = self.cut.saturating_add(u64::from(is_cut));
    }

    /// Whether no vote has a text, accepted or not.
    pub fn are_blank(&self) -> bool {
        self.commas.is_none()
    }

    /// Takes a vote, accepted or not.
    pub fn see(&mut self, vote: &[u8]) {
        if !self.differ && !vote.is_empty() {
            let commas = count_of(vote, b',');
            self.differ |= self.commas.is_some_and(|before| before != commas);
            self.commas = Some(commas);
        }
    }

    /// Takes a project that a vote names.
    pub fn name(&mut self, place: u32) -> Result<(), AllocError> {
        let place = place as usize;
        for _ in self.named.len()..place.saturating_add(1) {
            self.named.push(false)?;
        }
        if let Some(is_named) = self.named.get_mut(place) {
            *is_named = true;
        }
        Ok(())
    }

    /// Whether a vote names the project at this place.
    pub fn is_named(&self, place: u32) -> bool {
        self.named.get(place as usize) == Some(&true)
    }

    /// Whether a vote has commas between its ids, so that another sign there may not stand for one.
    pub fn have_commas(&self) -> bool {
        self.has_list || self.has_comma
    }

    /// Takes the projects that these ballots name.
    pub fn name_all(&mut self, election: &Election) -> Result<(), AllocError> {
        for voter in election.voters() {
            self.has_bare |= !voter.ballot.places().is_empty();
            self.has_list |= voter.ballot.places().len() > 1;
            for place in voter.ballot.places() {
                self.name(*place)?;
            }
        }
        Ok(())
    }

    /// Learns that the file has ended, with these ballots.
    pub fn end(&mut self, election: &Election) {
        if self.repeated.is_empty() {
            return;
        }
        self.rows_repeated = self.repeated.len() as u64;
        self.repeated.sort_unstable();
        let mut before = (NONE, NONE);
        for row in &self.repeated {
            let is_other = u64::from(row.0 != before.0);
            self.voters_repeated = self.voters_repeated.saturating_add(is_other);
            let first = election.voters().get(row.0 as usize);
            let is_twice = first.is_some_and(|first| first.ballot.places().contains(&row.1));
            let is_again = row.1 != NONE && (*row == before || is_twice);
            self.twice = self.twice.saturating_add(u64::from(is_again));
            before = *row;
        }
        for voter in election.voters() {
            self.has_long |= voter.ballot.places().len() > 1;
        }
    }

    /// Whether several ballots, and more than a tenth of all, would be empty without their unknown ids.
    pub fn would_empty(&self) -> bool {
        self.emptied > 1 && self.emptied.saturating_mul(10) > self.count()
    }

    /// How many rows there are.
    pub fn count(&self) -> u64 {
        self.accepted.saturating_add(self.refused)
    }

    /// Whether the file seems to have a row for each voter and project: most voters stand in several rows,
    /// and no row names several projects.
    pub fn is_by_project(&self) -> bool {
        !self.has_long
            && self.voters_repeated > 1
            && self.voters_repeated.saturating_mul(2) >= self.accepted
    }
}
