//! How many ballots approve each project, and which projects lose approvals by what a spreadsheet does to their ids.

use crate::prelude::*;
use pb_seen::changed::is_decimal;

/// The fewest ballots that show it.
const FEWEST: u64 = 3;

/// How many ballots approve each project, and how many it alone.
#[derive(Drop)]
pub struct Approvals {
    pub all: Vec<u64>,
    alone: Vec<u64>,
}

impl Approvals {
    /// Those of the ballots of this election.
    pub fn of(alloc: Global, election: &Election) -> Result<Approvals, AllocError> {
        let (mut all, mut alone) = (Vec::new(alloc), Vec::new(alloc));
        all.resize(election.projects().len(), 0u64)?;
        alone.resize(election.projects().len(), 0u64)?;
        for voter in election.voters() {
            let places = voter.ballot.places();
            for place in places {
                add_one(&mut all, *place);
                if places.len() == 1 {
                    add_one(&mut alone, *place);
                }
            }
        }
        Ok(Approvals { all, alone })
    }

    /// Whether votes for this project alone seem to name another one: its id is a decimal with zeros at its end, and
    /// without them that of the other, which votes name alone. It has no vote; or none for it alone, though ballots
    /// of several projects name it, and as many that one would be expected.
    pub fn are_lost(&self, place: usize, id: &str, projects: &Firsts) -> bool {
        let short = id.trim_end_matches('0');
        let other = projects
            .place(short)
            .filter(|_| is_decimal(id) && short.len() < id.len());
        let Some(other) = other else {
            return false;
        };
        let (all, alone) = self.at(place);
        let (its, its_alone) = self.at(other as usize);
        let are_apart = its == its_alone && its >= FEWEST;
        let (sum, sum_alone) = (sum_of(&self.all), sum_of(&self.alone));
        let is_due = all.saturating_mul(sum_alone) >= sum.saturating_mul(FEWEST);
        alone == 0 && its_alone > 0 && (all == 0 || are_apart || is_due)
    }

    /// How many ballots approve the project at this place, and it alone.
    fn at(&self, place: usize) -> (u64, u64) {
        let count = |counts: &Vec<u64>| counts.get(place).copied().unwrap_or(0);
        (count(&self.all), count(&self.alone))
    }
}

/// Counts one more of a project.
fn add_one(counts: &mut Vec<u64>, place: u32) {
    if let Some(count) = counts.get_mut(place as usize) {
        *count = count.saturating_add(1);
    }
}

/// The sum of these.
fn sum_of(counts: &Vec<u64>) -> u64 {
    counts
        .iter()
        .fold(0, |sum: u64, count| sum.saturating_add(*count))
}
