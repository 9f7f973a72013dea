//! Rows of VOTES that may be a list of the projects, and no ballots.

use crate::prelude::*;
use pb_core::voter::Voter;
use pb_seen::changed::{differ_in_form, is_digits};

/// The fewest such rows.
const FEWEST: usize = 3;

/// Whether the ids of the last rows are those of all projects, the row above has an id of another form, and
/// most of these rows name no other project.
pub fn ends_in_projects(
    alloc: Global,
    election: &Election,
    projects: &Firsts,
) -> Result<bool, AllocError> {
    let voters = election.voters();
    let above = voters.len().saturating_sub(projects.len());
    let last = voters.get(above..).unwrap_or(&[]);
    let are_all = last.len() == projects.len()
        && last.iter().all(|voter| projects.has(voter.id.text()));
    let others = last.iter().filter(|voter| names_others(voter, projects));
    let are_votes = others.count().saturating_mul(2) > last.len();
    match (last.first(), voters.get(above.saturating_sub(1))) {
        (Some(first), Some(other)) if are_all && !are_votes && last.len() >= FEWEST => {
            differ_in_form(alloc, first.id.text(), other.id.text())
        }
        _ => Ok(false),
    }
}

/// Whether a vote names projects beside the one with the voter's id; one alone that is a number may be that of a
/// tally.
fn names_others(voter: &Voter, projects: &Firsts) -> bool {
    let (id, vote) = (voter.id.text(), voter.ballot.places());
    let own = projects.place(id);
    vote.len() > 1 || (!is_digits(id) && vote.first().is_some_and(|place| Some(*place) != own))
}
