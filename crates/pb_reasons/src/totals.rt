//! What those come to together that a count elects and adds.

ghost use Rattle.std.specs.Prelude.{◌≡◌, ◌<◌, ◌^◌, All, length, sum_by};
ghost use Rattle.pb_core.specs.Election.{IsElection};
ghost use Rattle.pb_price.specs.Supporters.{cost_at, support_of};
ghost use Rattle.pb_rounds.specs.Count.{spent_on};
ghost use Rattle.pb_reasons.specs.Inner.Counts.{IsCounted};
ghost use Rattle.pb_reasons.specs.Inner.OfOutcome.{collected_for, outcome_totals};
ghost use Rattle.pb_reasons.specs.Inner.Told.{CanBeTold};
ghost use Rattle.pb_reasons.specs.Totals.{totals_of};

use crate::counted::Counted;
use pb_core::election::Election;
use pb_core::money::Money;
use pb_price::Grain;
use pb_rounds::outcome::{Elected, Outcome};

/// What those come to together that a count elects and adds.
#[derive(Clone, Copy)]
pub struct Totals {
    /// What they cost, in hundredths.
    pub spent: Money,
    /// What was paid beyond the costs of the elected, since prices are rounded up; or in fine money what is left
    /// uncovered of these, since payments are rounded down. In the parts that are counted.
    pub surplus: Money,
}

impl Totals {
    /// The totals of what a count of this election comes to.
    pub(crate) fn of(election: &Election, counted: &Counted, grain: Grain) -> Totals
        requires counted { IsCounted election.now counted.now }
        requires told { CanBeTold grain election.now counted.now.outcome }
        ensures { result ≡ totals_of grain election.now counted.now }
    {
        let elected = Totals::of_elected(election, &counted.outcome, grain);
        let added = costs_of(election, counted.added.as_slice());
        Totals {
            spent: Money(elected.spent.0 + added),
            surplus: elected.surplus,
        }
    }

    /// The totals of the elected of an outcome of a count of this election.
    fn of_elected(election: &Election, outcome: &Outcome, grain: Grain) -> Totals
        requires { CanBeTold grain election.now outcome.now }
        ensures totals { result ≡ outcome_totals grain election.now outcome.now.elected }
        ensures is_election { IsElection election.now }
    {
        // What is true of every election bounds the sums of its outcome.
        let _budget = election.budget();
        let elected = outcome.elected.as_slice();
        let spent = spent_for(election, elected);
        let parts = grain.parts(election.voters().len() as u32);
        let cost = u128::from(parts) * u128::from(spent);
        let surplus = collected_for(elected).abs_diff(cost) as u64;
        Totals {
            spent: Money(spent),
            surplus: Money(surplus),
        }
    }
}

/// What the projects at these places cost together, in hundredths.
fn costs_of(election: &Election, places: &[u32]) -> u64
    requires known { All (λ place. place < length election.now.projects) places.now }
    requires fits { sum_by (cost_at (support_of election.now)) places.now < 2 ^ 64 }
    ensures { result ≡ sum_by (cost_at (support_of election.now)) places.now }
{
    let projects = election.projects();
    let mut sum = 0;
    for place in places {
        sum += projects[*place as usize].cost().0;
    }
    sum
}

/// What the elected cost together, in hundredths.
pub(crate) fn spent_for(election: &Election, elected: &[Elected]) -> u64
    requires known { All (λ w. w.place < length election.now.projects) elected.now }
    requires fits { spent_on (support_of election.now) elected.now < 2 ^ 64 }
    ensures { result ≡ spent_on (support_of election.now) elected.now }
{
    let projects = election.projects();
    let mut spent = 0;
    for winner in elected {
        spent += projects[winner.place as usize].cost().0;
    }
    spent
}

/// What was paid for the elected together, in the parts that are counted.
fn collected_for(elected: &[Elected]) -> u128
    requires { collected_for elected.now < 2 ^ 128 }
    ensures { result ≡ collected_for elected.now }
{
    elected
        .iter()
        .map(|winner| u128::from(winner.collected.0))
        .sum()
}
