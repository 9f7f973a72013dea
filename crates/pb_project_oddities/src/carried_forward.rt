//! Rows of PROJECTS that are sums of the projects above them, carried forward from page to page.

use crate::prelude::*;

/// The fewest projects above a sum, and how many of their costs are different.
const FEWEST: u64 = 4;

const FEWEST_COSTS: u64 = 3;

/// The projects above a row, without the sums among them.
#[derive(Clone, Copy, Default)]
pub struct ProjectsAbove {
    count: u64,
    sum: u64,
    /// How many costs are different, up to three, and the last two of these.
    costs: u64,
    one: u64,
    other: u64,
}

impl ProjectsAbove {
    /// Takes the next project, which so many ballots approve, and answers whether it is a sum: nobody approves it, and it costs
    /// what all projects above it cost.
    pub fn is_sum(&mut self, cost: u64, supporters: u64) -> bool {
        let are_enough = self.count >= FEWEST && self.costs >= FEWEST_COSTS;
        if are_enough && supporters == 0 && cost == self.sum {
            return true;
        }
        self.count = self.count.saturating_add(1);
        self.sum = self.sum.saturating_add(cost);
        let is_new = match self.costs {
            0 => true,
            1 => cost != self.other,
            2 => cost != self.other && cost != self.one,
            _ => false,
        };
        if is_new {
            self.costs = self.costs.saturating_add(1);
            self.one = self.other;
            self.other = cost;
        }
        false
    }
}
