//! Votes that all name one project alone, as the column of a list of who has voted does, where 1 says that somebody has.

use crate::prelude::*;

/// The fewest such votes, and the fewest projects.
const FEWEST: u64 = 8;

const FEWEST_PROJECTS: usize = 4;

/// Takes a file whose last row is odd so: all votes that name a project, eight or more, name one and the same alone.
pub fn take_turnout(election: &Election, last: Option<Odd>, found: &mut Oddities) {
    let may_be = election.projects().len() >= FEWEST_PROJECTS && !found.refuses_votes;
    let (Some(odd), true) = (last, may_be) else {
        return;
    };
    let (mut project, mut count) = (None, 0u64);
    for voter in election.voters() {
        match voter.ballot.places() {
            [] => {}
            [place] if project.unwrap_or(*place) == *place => {
                project = Some(*place);
                count = count.saturating_add(1);
            }
            _ => return,
        }
    }
    if count >= FEWEST {
        found.take(odd.as_a(Oddity::VotesMissing).in_form(7).by(count));
    }
}
