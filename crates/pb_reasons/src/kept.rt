//! What is kept of a count, to answer from.

ghost use Rattle.std.specs.Prelude.{◌≡◌, ◌<◌, IfOk, false, length, slice_index_or};
ghost use Rattle.pb_reasons.specs.Inner.Counts.{IsCounted};
ghost use Rattle.pb_reasons.specs.Inner.Kept.{IsKept};
ghost use Rattle.pb_reasons.specs.Inner.OfOutcome.{ending_as};
ghost use Rattle.pb_reasons.specs.Inner.Told.{CanBeTold};
ghost use Rattle.pb_reasons.specs.Reasons.{project_reason};

use crate::counted::Counted;
use crate::numbers::numbers_of;
use crate::project_reason::{Added, Ending, ProjectReason};
use crate::reasons::Reasons;
use crate::winners::flags_of;
use pb_core::election::Election;
use pb_core::no_memory::NoMemory;
use pb_price::Grain;
use pb_price::supporters::Supporters;
use std::alloc::Global;
use std::marker::Model;

/// What is kept of a count, each made once.
#[derive(Drop)]
pub(crate) struct Kept {
    reasons: Reasons,
    /// The number of each project among the added ones, from 0; as many as there are where it is none of
    /// them.
    numbers: Vec<usize>,
    /// The elected in order of election, and then the added in theirs, by place.
    winners: Vec<u32>,
    /// Whether each project is among these, in their order.
    flags: Vec<bool>,
}

impl Model for Kept {
    ghost use Rattle.pb_reasons.specs.Inner.Kept.{KeptView};

    ghost Value = { KeptView };

    ghost view = { λ k. record {
      reasons = k.reasons;
      numbers = k.numbers.items;
      winners = k.winners.items;
      flags = k.flags.items;
    } };
}

impl Kept {
    /// What is kept of a count of this election that comes to this.
    pub(crate) fn of(
        alloc: Global,
        election: &Election,
        counted: &Counted,
        grain: Grain,
    ) -> Result<Kept, NoMemory>
        requires counted { IsCounted election.now counted.now }
        requires told { CanBeTold grain election.now counted.now.outcome }
        ensures { IfOk result (IsKept grain election.now counted.now) }
    {
        let projects = election.projects().len();
        let numbers = numbers_of(alloc, counted.added.as_slice(), projects)?;
        let reasons = Reasons::of(alloc, election, &counted.outcome, grain)?;
        let winners = counted.winners(alloc)?;
        let flags = flags_of(alloc, winners.as_slice(), projects)?;
        Ok(Kept {
            reasons,
            numbers,
            winners,
            flags,
        })
    }

    /// The supporters of each project.
    pub(crate) fn supporters(&self) -> &Supporters
        ensures { result.now ≡ self.now.reasons.supporters }
    {
        self.reasons.supporters()
    }

    /// Which round elected each project.
    pub(crate) fn rounds(&self) -> &[u32]
        ensures { result.now ≡ self.now.reasons.rounds }
    {
        self.reasons.rounds()
    }

    /// The number of each project among the added ones.
    pub(crate) fn numbers(&self) -> &[usize]
        ensures { result.now ≡ self.now.numbers }
    {
        self.numbers.as_slice()
    }

    /// The winners, by place.
    pub(crate) fn winners(&self) -> &[u32]
        ensures { result.now ≡ self.now.winners }
    {
        self.winners.as_slice()
    }

    /// Whether the project at this place is among the winners.
    pub(crate) fn has_won(&self, place: u32) -> bool
        requires { place < length self.now.flags }
        ensures { result ≡ slice_index_or self.now.flags place false }
    {
        self.flags[place as usize]
    }

    /// Why the project at this place is elected or added, or is neither.
    pub(crate) fn project(
        &self,
        election: &Election,
        counted: &Counted,
        place: u32,
    ) -> ProjectReason
        requires told { CanBeTold self.now.reasons.supporters.grain election.now counted.now.outcome }
        requires own { IsKept self.now.reasons.supporters.grain election.now counted.now self.now }
        requires known { place < length election.now.projects }
        ensures { result ≡ project_reason self.now.reasons.supporters.grain election.now counted.now place }
    {
        let reason = self.reasons.project(election, &counted.outcome, place);
        let number = self.numbers[place as usize];
        let ending = ending_with(reason.ending, number, counted.added.len());
        ProjectReason {
            votes: reason.votes,
            ending,
        }
    }
}

/// How a project ended that ended so in the outcome, and has this number among so many added ones, from 0, if
/// below that.
fn ending_with(ending: Ending, number: usize, added: usize) -> Ending
    ensures { result ≡ ending_as ending number added }
{
    match ending {
        Ending::Lost(_) if number < added => Ending::Added(Added {
            number: number as u64 + 1,
        }),
        ending => ending,
    }
}
