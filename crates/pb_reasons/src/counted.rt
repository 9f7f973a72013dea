//! What a count comes to.

ghost use Rattle.std.specs.Prelude.{◌≡◌, ◌-◌, ◌<◌, ◌≤◌, ◌^◌, IfOk, map};
ghost use Rattle.pb_price.specs.Supporters.{support_of};
ghost use Rattle.pb_reasons.specs.Counted.{counted, winners_of};
ghost use Rattle.pb_reasons.specs.Inner.Counts.{added_to};
ghost use Rattle.pb_reasons.specs.Inner.OfOutcome.{IsOutcome};
ghost use Rattle.pb_rounds.specs.Counted.{IsCountOf};
ghost use Rattle.pb_rounds.specs.declared.options.CountOptions.{CountOptions};
ghost use Rattle.pb_rounds.specs.declared.rule.FillUp.TheVariants.{MostVotes};

use crate::totals::spent_for;
use pb_core::election::Election;
use pb_core::money::Money;
use pb_core::no_memory::NoMemory;
use pb_price::supporters::Supporters;
use pb_rounds::most_votes_first;
use pb_rounds::outcome::{Elected, Outcome};
use pb_rounds::rule::FillUp;
use std::alloc::Global;
use std::marker::Model;

/// What a count comes to: its outcome, and what is added to that.
#[derive(Drop)]
pub(crate) struct Counted {
    pub(crate) outcome: Outcome,
    fill_up: FillUp,
    pub(crate) added: Vec<u32>,
}

impl Model for Counted {
    ghost use Rattle.pb_reasons.specs.Counted.{CountedView};

    ghost Value = { CountedView };

    ghost view = { λ c. record { outcome = c.outcome; fill_up = c.fill_up; added = c.added.items } };
}

impl Counted {
    /// The outcome of a count of this election, and what is added to its elected out of what they leave of
    /// the budget.
    pub(crate) fn of(
        alloc: Global,
        election: &Election,
        outcome: Outcome,
        fill_up: FillUp,
    ) -> Result<Counted, NoMemory>
        requires { (options : CountOptions) × IsCountOf election.now options outcome }
        ensures { IfOk result (λ c. c ≡ counted election.now fill_up outcome) }
    {
        match added_to(alloc, election, fill_up, &outcome) {
            Ok(added) => Ok(Counted {
                outcome,
                fill_up,
                added,
            }),
            Err(refused) => {
                drop(outcome);
                Err(refused)
            }
        }
    }

    /// The projects that are added, by place, in the order in which they are added.
    pub(crate) fn added(&self) -> &[u32]
        ensures { result.now ≡ self.now.added }
    {
        self.added.as_slice()
    }

    /// The places of the elected, in order of election, and then of the added in theirs.
    pub(crate) fn winners(&self, alloc: Global) -> Result<Vec<u32>, NoMemory>
        ensures { IfOk result (λ places. places.items ≡ winners_of self.now) }
    {
        let mut places = places_of(alloc, self.outcome.elected.as_slice())?;
        places.extend_from_slice(self.added.as_slice())?;
        Ok(places)
    }
}

/// What is added to the elected of an outcome.
fn added_to(
    alloc: Global,
    election: &Election,
    fill_up: FillUp,
    outcome: &Outcome,
) -> Result<Vec<u32>, NoMemory>
    requires { IsOutcome election.now outcome.now }
    ensures { IfOk result (λ added. added.items ≡ added_to election.now fill_up outcome.now) }
{
    match fill_up {
        FillUp::Nothing => Ok(Vec::new(alloc)),
        FillUp::MostVotes => most_votes_added(alloc, election, outcome),
    }
}

/// What most votes first adds to the elected of an outcome.
fn most_votes_added(
    alloc: Global,
    election: &Election,
    outcome: &Outcome,
) -> Result<Vec<u32>, NoMemory>
    requires { IsOutcome election.now outcome.now }
    ensures { IfOk result (λ added. added.items ≡ added_to election.now MostVotes outcome.now) }
{
    let budget = election.budget();
    let elected = outcome.elected.as_slice();
    let left = Money(budget.0 - spent_for(election, elected));
    let taken = places_of(alloc, elected)?;
    let supporters = Supporters::build(alloc, election)?;
    most_votes_first(alloc, &supporters, taken.as_slice(), left)
}

/// The places of the elected.
pub(crate) fn places_of(alloc: Global, elected: &[Elected]) -> Result<Vec<u32>, NoMemory>
    ensures { IfOk result (λ places. places.items ≡ map (λ w. w.place) elected.now) }
{
    let mut places = Vec::with_capacity(alloc, elected.len())?;
    for winner in elected {
        places.push(winner.place)?;
    }
    Ok(places)
}
