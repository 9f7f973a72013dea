//! The winners by a rule.

ghost use Rattle.std.specs.Prelude.{◌≡◌, ◌^◌, ◌<◌, ◌≤◌, All, List, [], IfOk, ℕ, length, map, slice_index};
ghost use Rattle.std.specs.Prelude.{sum_by};
ghost use Rattle.std.specs.List.{range_with_len};
ghost use Rattle.pb_rounds.specs.MostVotes.{is_taken};
ghost use Rattle.pb_price.specs.Supporters.{ballot_at, cost_at, support_of};
ghost use Rattle.pb_reasons.specs.Comparison.{choices_of};
ghost use Rattle.pb_reasons.specs.Inner.Comparing.{AreFlags, content_of, row_after};
ghost use Rattle.pb_reasons.specs.Inner.Raises.{leave_room_for};

use crate::content::Content;
use crate::rule_row::RuleRow;
use pb_core::election::Election;
use pb_core::money::Money;
use pb_core::no_memory::NoMemory;
use pb_core::project::Project;
use std::alloc::Global;
use std::marker::Model;

/// The winners by a rule, by place.
///
/// A contract sees the election and the places.
#[derive(Drop)]
pub struct Winners<'a> {
    election: &'a Election,
    places: &'a [u32],
    /// Whether each project is among them, in their order.
    flags: Vec<bool>,
}

impl<'a> Model for Winners<'a> {
    ghost use Rattle.std.specs.Prelude.{List, length, ℕ};
    ghost use Rattle.pb_core.specs.Election.{ElectionView};
    ghost use Rattle.pb_reasons.specs.Inner.Comparing.{AreFlags};

    ghost Value = { ElectionView × List ℕ };

    ghost view = { λ w. (w.election.now, w.places.now) };

    ghost invariant = { λ w. AreFlags (length w.election.now.projects) w.places.now w.flags.items };
}

impl<'a> Winners<'a> {
    /// The winners at these places; a place that no project has says nothing.
    pub fn of(
        alloc: Global,
        election: &'a Election,
        places: &'a [u32],
    ) -> Result<Winners<'a>, NoMemory>
        ensures { IfOk result (λ winners. winners ≡ (election.now, places.now)) }
    {
        let flags = flags_of(alloc, places, election.projects().len())?;
        Ok(Winners {
            election,
            places,
            flags,
        })
    }

    /// Whether the project at this place is among them.
    pub fn has(&self, place: u32) -> bool
        requires { place < length self.now.0.projects }
        ensures { result ≡ is_taken self.now.1 place }
    {
        self.flags[place as usize]
    }

    /// How many choices of each voter are among them, voters in the order of the file.
    pub fn choices_by_voter(&self, alloc: Global) -> Result<Vec<u32>, NoMemory>
        ensures { IfOk result (λ choices. choices.items ≡
            map (λ voter. choices_of self.now.1 (ballot_at self.now.0 voter))
            (range_with_len 0 (length self.now.0.voters))) }
    {
        let voters = self.election.voters();
        let mut choices = Vec::with_capacity(alloc, voters.len())?;
        for voter in voters {
            let ballot = voter.ballot.places();
            choices.push(self.choices(ballot))?;
        }
        Ok(choices)
    }

    /// How many of a ballot's choices are among them.
    fn choices(&self, ballot: &[u32]) -> u32
        requires known { All (λ place. place < length self.now.0.projects) ballot.now }
        requires few { length ballot.now < 2 ^ 32 }
        ensures { result ≡ choices_of self.now.1 ballot.now }
    {
        let mut choices = 0;
        for place in ballot {
            if self.flags[*place as usize] {
                choices += 1;
            }
        }
        choices
    }

    /// Whether the project at this place is not among them and costs at most what is left.
    pub(crate) fn leave_room_for(&self, place: u32, left: Money) -> bool
        requires { place < length self.now.0.projects }
        ensures { result ≡ leave_room_for self.now left place }
    {
        let project = &self.election.projects()[place as usize];
        !self.flags[place as usize] && project.cost().0 <= left.0
    }

    /// The row of the rule before the first voter.
    pub(crate) fn row(&self) -> RuleRow
        ensures { (other : List ℕ) → result ≡ row_after self.now.0 self.now.1 other [] }
    {
        let spent = spent_on(self.election.projects(), self.places);
        RuleRow {
            projects: self.places.len(),
            spent,
            left: u128::from(self.election.budget().0).saturating_sub(spent),
            without: 0,
            choices: 0,
            worth: 0,
            more_choices: 0,
            more_worth: 0,
        }
    }

    /// What a ballot has of the winners.
    pub(crate) fn content(&self, ballot: &[u32]) -> Content
        requires known { All (λ place. place < length self.now.0.projects) ballot.now }
        requires few { length ballot.now < 2 ^ 32 }
        ensures content { result ≡ content_of self.now.0 self.now.1 ballot.now }
        ensures small { result.worth ≤ 2 ^ 96 }
    {
        let projects = self.election.projects();
        let mut content = Content {
            choices: 0,
            worth: 0,
        };
        for place in ballot {
            if self.flags[*place as usize] {
                content.choices += 1;
                content.worth += u128::from(projects[*place as usize].cost().0);
            }
        }
        content
    }
}

/// Whether each of this many projects is among the winners at these places.
pub(crate) fn flags_of(
    alloc: Global,
    places: &[u32],
    projects: usize,
) -> Result<Vec<bool>, NoMemory>
    ensures { IfOk result (λ flags. AreFlags projects places.now flags.items) }
{
    let mut flags = vec![in alloc; false; projects]?;
    for place in places {
        if (*place as usize) < projects {
            flags[*place as usize] = true;
        }
    }
    Ok(flags)
}

/// What the projects at these places cost together, in hundredths.
fn spent_on(projects: &[Project], places: &[u32]) -> u128
    ensures { result ≡ sum_by (slice_index (map (λ p. p.cost) projects.now)) places.now }
{
    let mut spent = 0;
    for place in places {
        spent += u128::from(cost_of(projects, *place));
    }
    spent
}

/// What the project at this place costs, in hundredths; 0 where no project has the place.
fn cost_of(projects: &[Project], place: u32) -> u64
    ensures { result ≡ slice_index (map (λ p. p.cost) projects.now) place }
{
    match projects.get(place as usize) {
        Some(project) => project.cost().0,
        None => 0,
    }
}
