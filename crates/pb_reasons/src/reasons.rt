//! Why an outcome is as it is.

ghost use Rattle.std.specs.Prelude.{◌≡◌, ◌<◌, IfOk, length};
ghost use Rattle.pb_reasons.specs.Inner.Kept.{AreReasons};
ghost use Rattle.pb_reasons.specs.Inner.Told.{CanBeTold};
ghost use Rattle.pb_reasons.specs.Inner.OfOutcome.{outcome_reason};

use crate::ending::lost;
use crate::project_reason::{Ending, ProjectReason, Won};
use crate::replay::replay;
use crate::rounds::rounds_of;
use pb_core::election::Election;
use pb_core::no_memory::NoMemory;
use pb_price::Grain;
use pb_price::supporters::Supporters;
use pb_rounds::outcome::Outcome;
use std::alloc::Global;
use std::marker::Model;

/// Why an outcome is as it is.
#[derive(Drop)]
pub(crate) struct Reasons {
    supporters: Supporters,
    rounds: Vec<u32>,
    /// How many paid the whole price for each of the elected, in order of election.
    in_full: Vec<usize>,
}

impl Model for Reasons {
    ghost use Rattle.pb_reasons.specs.Inner.Kept.{ReasonsView};

    ghost Value = { ReasonsView };

    ghost view = { λ r. record {
      supporters = r.supporters;
      rounds = r.rounds.items;
      in_full = r.in_full.items;
    } };
}

impl Reasons {
    /// The reasons of the outcome of a count of this election.
    pub(crate) fn of(
        alloc: Global,
        election: &Election,
        outcome: &Outcome,
        grain: Grain,
    ) -> Result<Reasons, NoMemory>
        requires { CanBeTold grain election.now outcome.now }
        ensures { IfOk result (AreReasons grain election.now outcome.now) }
    {
        let elected = outcome.elected.as_slice();
        let supporters = Supporters::build_in(alloc, election, grain)?;
        let rounds = rounds_of(alloc, elected, election.projects().len())?;
        let in_full = replay(alloc, &supporters, outcome.share, elected)?;
        Ok(Reasons {
            supporters,
            rounds,
            in_full,
        })
    }

    /// The supporters of each project.
    pub(crate) fn supporters(&self) -> &Supporters
        ensures { result.now ≡ self.now.supporters }
    {
        &self.supporters
    }

    /// The round of each project, from 0; as many as there are elected where it has none.
    pub(crate) fn rounds(&self) -> &[u32]
        ensures { result.now ≡ self.now.rounds }
    {
        self.rounds.as_slice()
    }

    /// Why the project at this place is elected, or is not.
    pub(crate) fn project(
        &self,
        election: &Election,
        outcome: &Outcome,
        place: u32,
    ) -> ProjectReason
        requires told { CanBeTold self.now.supporters.grain election.now outcome.now }
        requires own { AreReasons self.now.supporters.grain election.now outcome.now self.now }
        requires known { place < length election.now.projects }
        ensures { result ≡ outcome_reason self.now.supporters.grain election.now outcome.now place }
    {
        let supporters = self.supporters.of(place);
        let round = self.rounds[place as usize];
        let ending = if (round as usize) < self.in_full.len() {
            let winner = outcome.elected[round as usize];
            Ending::Won(Won {
                round: round + 1,
                price: winner.price,
                exact: winner.exact,
                collected: winner.collected,
                in_full: self.in_full[round as usize] as u32,
            })
        } else {
            let cost = self.supporters.cost_in_parts(place);
            Ending::Lost(lost(supporters, cost, outcome.rests.as_slice()))
        };
        ProjectReason {
            votes: supporters.len() as u32,
            ending,
        }
    }
}
