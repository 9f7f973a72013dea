//! Rows of VOTES whose ids differ only at their ends: a ballot that was typed twice, or a voter with a row for each choice.

use crate::parts::{are_same, sheet_of};
use crate::prelude::*;
use pb_core::voter::Voter;
use pb_oddities::kept::kept_in;

/// The fewest rows of which another one has the id but for its end, where most have its vote; and where each has another project.
const FEWEST_SAME: u64 = 5;

const FEWEST_CHOICES: u64 = 10;

/// The forms of both.
const TYPED_TWICE: usize = 4;

const A_CHOICE_EACH: usize = 5;

/// The place of no row; and of several.
const NONE: u32 = u32::MAX;

const SEVERAL: u32 = NONE - 1;

/// How many rows have an earlier one's id but for its end, and how many of these one project alone, behind that of the other;
/// how many rows have such later ones, and how many just one, which has their vote, with two projects or more.
#[derive(Clone, Copy, Default)]
struct Pairs {
    all: u64,
    rising: u64,
    firsts: u64,
    same: u64,
}

impl Pairs {
    /// Those among the voters of an election.
    fn of(alloc: Global, election: &Election) -> Result<Pairs, AllocError> {
        let (mut pairs, mut stems) = (Pairs::default(), IdTable::new(alloc));
        let (voters, mut seconds) = (election.voters(), Vec::new(alloc));
        seconds.resize(voters.len(), NONE)?;
        for (place, voter) in voters.iter().enumerate() {
            let Some((stem, _)) = sheet_of(voter.id.text()) else {
                continue;
            };
            let place = u32::try_from(place).unwrap_or(u32::MAX);
            let before = kept_in(&mut stems, alloc, stem, place)?.unwrap_or(NONE) as usize;
            if let (Some(first), Some(second)) = (voters.get(before), seconds.get_mut(before)) {
                pairs.take(first.ballot.places(), voter.ballot.places());
                *second = if *second == NONE { place } else { SEVERAL };
            }
        }
        drop(stems);
        for (first, second) in voters
            .iter()
            .zip(&seconds)
            .filter(|(_, second)| **second != NONE)
        {
            let only = voters.get(*second as usize);
            let is_same = |other: &Voter| {
                let ballot = other.ballot.places();
                ballot.len() > 1 && are_same(first.ballot.places(), ballot)
            };
            pairs.firsts = pairs.firsts.saturating_add(1);
            pairs.same = pairs
                .same
                .saturating_add(u64::from(only.is_some_and(is_same)));
        }
        drop(seconds);
        Ok(pairs)
    }

    /// Takes the ballots of an earlier row and of one with its id but for its end.
    fn take(&mut self, one: &[u32], other: &[u32]) {
        let is_rising = one.len() == 1 && other.len() == 1 && one.first() < other.first();
        self.all = self.all.saturating_add(1);
        self.rising = self.rising.saturating_add(u64::from(is_rising));
    }

    /// How the rows are odd, if they are.
    fn form(self) -> Option<usize> {
        let are_most = self.same.saturating_mul(5) >= self.firsts.saturating_mul(4);
        if self.firsts >= FEWEST_SAME && are_most {
            Some(TYPED_TWICE)
        } else if self.all >= FEWEST_CHOICES && self.rising == self.all {
            Some(A_CHOICE_EACH)
        } else {
            None
        }
    }
}

/// Takes the end of a file whose accepted rows give this election, and whose first row of VOTES is this: it stands for the pairs.
pub fn take_pairs(
    alloc: Global,
    election: &Election,
    first: Odd,
    found: &mut Oddities,
) -> Result<(), AllocError> {
    let pairs = Pairs::of(alloc, election)?;
    if let Some(form) = pairs.form() {
        let odd = first.as_a(Oddity::SeveralBallots).in_form(form);
        found.take(odd.by(pairs.all));
    }
    Ok(())
}
