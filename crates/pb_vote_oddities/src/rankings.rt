//! Votes that name all projects, each in an order of its own: the order was probably meant.

use std::alloc::{AllocError, Global};

/// The fewest projects, and the fewest votes, of which this is said.
const FEWEST: u64 = 3;

/// Whether all votes so far name all projects, and how many they are.
#[derive(Drop)]
pub struct Rankings {
    /// The first vote that is not empty.
    first: String,
    count: u64,
    are_all: bool,
    /// Whether one has another order than the first.
    differ: bool,
}

impl Rankings {
    /// No vote yet.
    pub fn new(alloc: Global) -> Rankings {
        Rankings {
            first: String::new(alloc),
            count: 0,
            are_all: true,
            differ: false,
        }
    }

    /// Whether a vote that names this many of so many projects can still make a difference.
    pub fn asks(&mut self, length: usize, projects: usize) -> bool {
        self.are_all &= length == 0 || length == projects;
        self.are_all && length > 0
    }

    /// Takes a vote that names all projects.
    pub fn take(&mut self, vote: &str) -> Result<(), AllocError> {
        self.count = self.count.saturating_add(1);
        if self.count == 1 {
            return self.first.push_str(vote);
        }
        if !self.differ && vote != self.first.as_str() {
            let (one, other) = (self.first.split(','), vote.split(','));
            self.differ = one
                .zip(other)
                .any(|(one, other)| one.trim() != other.trim());
        }
        Ok(())
    }

    /// Whether all votes name all projects, in different orders.
    pub fn are_rankings(&self, projects: u64) -> bool {
        self.are_all && self.differ && self.count >= FEWEST && projects >= FEWEST
    }
}
