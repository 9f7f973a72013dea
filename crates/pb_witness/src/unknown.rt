//! The votes that are refused since they name an id that no project has, by that id.

use crate::prelude::*;
use pb_read::MOST_FAULTS;
use pb_seen::amounts::whole_number;
use pb_seen::changed::{is_empty_list, is_in_brackets};

/// So many of the refused votes are shown.
const SHOWN: usize = 3;

/// The fewest ids that are a series.
const SERIES: u64 = 3;

/// Votes that are refused for one reason.
#[derive(Clone, Copy)]
pub struct Votes {
    pub count: u64,
    /// Where the first of them stand, in order.
    pub first: [Option<Mark>; SHOWN],
}

impl Votes {
    /// No vote yet.
    pub fn none() -> Votes {
        Votes {
            count: 0,
            first: [None; SHOWN],
        }
    }

    /// Takes a vote.
    pub(crate) fn take(&mut self, mark: Mark) {
        self.count = self.count.saturating_add(1);
        self.show(mark);
    }

    /// Takes these votes as well.
    pub fn join(&mut self, others: &Votes) {
        self.count = self.count.saturating_add(others.count);
        for mark in others.first.iter().flatten() {
            self.show(*mark);
        }
    }

    /// Whether the record with this mark is the first of them.
    pub fn begin_at(&self, mark: Mark) -> bool {
        self.first[0].is_some_and(|first| first.at == mark.at)
    }

    /// Keeps where a vote stands, if it is one of the first.
    fn show(&mut self, mark: Mark) {
        let mut later = mark;
        for place in 0..SHOWN {
            match self.first[place] {
                Some(there) if there.at <= later.at => {}
                Some(there) => {
                    self.first[place] = Some(later);
                    later = there;
                }
                None => {
                    self.first[place] = Some(later);
                    return;
                }
            }
        }
    }
}

/// An id that no project has, and the votes that are refused for it.
#[derive(Drop)]
pub struct Unknown {
    pub id: String,
    /// Whether a vote has it beside other ids.
    pub is_beside: bool,
    /// Whether brackets are around each vote that has it.
    pub is_in_brackets: bool,
    pub votes: Votes,
}

/// The ids that no project has, as far as a check lists votes that name them.
#[derive(Drop)]
pub struct UnknownIds {
    places: IdTable,
    pub found: Vec<Unknown>,
    /// How many votes are refused for one of them.
    pub votes: u64,
    /// Whether brackets are around one id alone.
    pub(crate) has_one_in_brackets: bool,
}

impl UnknownIds {
    /// No id yet.
    pub(crate) fn new(alloc: Global) -> UnknownIds {
        UnknownIds {
            places: IdTable::new(alloc),
            found: Vec::new(alloc),
            votes: 0,
            has_one_in_brackets: false,
        }
    }

    /// Takes a vote, with this mark, that is refused for this id.
    pub(crate) fn take(
        &mut self,
        alloc: Global,
        id: &str,
        vote: &str,
        mark: Mark,
    ) -> Result<(), AllocError> {
        self.votes = self.votes.saturating_add(1);
        let is_beside = id.len() < vote.len();
        let is_one = is_in_brackets(vote) && !vote.contains(',') && !is_empty_list(vote);
        self.has_one_in_brackets |= is_one;
        if self.places.get(id).is_none() && self.found.len() < MOST_FAULTS {
            let place = u32::try_from(self.found.len()).unwrap_or(u32::MAX);
            self.places.insert(alloc, id, place)?;
            self.found.push(Unknown {
                id: String::from_str(alloc, id)?,
                is_beside: false,
                is_in_brackets: true,
                votes: Votes::none(),
            })?;
        }
        let place = self.places.get(id).unwrap_or(u32::MAX);
        if let Some(unknown) = self.found.get_mut(place as usize) {
            unknown.votes.take(mark);
            unknown.is_beside |= is_beside;
            unknown.is_in_brackets &= is_in_brackets(vote);
        }
        Ok(())
    }

    /// Whether the numbers of three of them, or more, follow each other from row to row, as a spreadsheet
    /// continues a series.
    pub fn are_series(&self) -> bool {
        let (mut before, mut run) = (None, 0u64);
        for unknown in &self.found {
            let id = unknown.id.as_str();
            let number = id.trim_start_matches(|c: char| !c.is_ascii_digit());
            let at = unknown.votes.first[0].map_or(0, |mark| mark.at);
            let place = whole_number(number).map(|number| (number, at));
            let next = place.map(|(number, at)| (number.saturating_add(1), at.saturating_add(1)));
            let is_next = place.is_some() && place == before;
            run = if is_next { run.saturating_add(1) } else { 1 };
            if run >= SERIES {
                return true;
            }
            before = next;
        }
        false
    }

    /// The place of this id among those that were found.
    pub fn place(&self, id: &str) -> Option<u32> {
        self.places.get(id)
    }
}
