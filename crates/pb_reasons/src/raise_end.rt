//! Why the raises of a count ended.

ghost use Rattle.std.specs.Prelude.{◌≡◌, ◌+◌, ◌<◌, ◌≤◌, ◌^◌, All, IfOk, filter, length, map, not};
ghost use Rattle.pb_rounds.specs.MostVotes.{is_taken};
ghost use Rattle.pb_price.specs.Price.{largest_share};
ghost use Rattle.pb_price.specs.Supporters.{support_of};
ghost use Rattle.pb_rounds.specs.Count.{spent_on};
ghost use Rattle.pb_rounds.specs.Counted.{IsCountOf};
ghost use Rattle.pb_rounds.specs.Run.{is_elected};
ghost use Rattle.pb_rounds.specs.declared.options.Completion.TheVariants.{Add1};
ghost use Rattle.pb_reasons.specs.RaiseEnd.{IsRaiseEnd};
ghost use Rattle.pb_reasons.specs.Inner.OfOutcome.{IsOutcome};
ghost use Rattle.pb_reasons.specs.Inner.Raises.{TellsExhausted};

use crate::counted::places_of;
use crate::counted_election::CountedElection;
use crate::room::{leave_room_for_any_project, leave_room_for_any_voter};
use crate::totals::spent_for;
use crate::winners::Winners;
use pb_core::election::Election;
use pb_core::gate::Gate;
use pb_core::money::Money;
use pb_core::no_memory::NoMemory;
use pb_rounds::count::{equal_shares, step_in_parts};
use pb_rounds::count_fault::CountFault;
use pb_rounds::options::{Completion, CountOptions};
use pb_rounds::outcome::{Elected, Outcome};
use std::alloc::Global;
use std::thread::Threads;

/// What one raise more than those of an outcome would elect.
#[derive(Drop)]
pub struct NextRaise {
    /// Everyone's share after that raise, in the parts that are counted.
    pub share: Money,
    /// What the projects that it elects cost together, in hundredths: more than the budget.
    pub cost: Money,
    /// The projects that the outcome does not elect and this raise does, by place, in order of election.
    pub only_then: Vec<u32>,
    /// The projects that the outcome elects and this raise does not, by place, in order of election.
    pub no_more: Vec<u32>,
}

/// Why the raises of a count ended.
#[derive(Drop)]
pub enum RaiseEnd {
    /// The count raises no share.
    Plain,
    /// The outcome is exhausted: each other project that has a supporter costs more than what is left of the
    /// budget.
    Exhausted,
    /// The outcome is not exhausted, and one raise more would elect projects that cost more than the budget.
    Over(NextRaise),
}

impl RaiseEnd {
    /// Why the raises of a count ended. Where it is not exhausted, the method is run once more, at the share
    /// after one raise more, by as many workers as count.
    pub fn of<R: Threads + Sync, G: Gate>(
        rt: &R,
        alloc: Global,
        count: &CountedElection,
        gate: &G,
    ) -> Result<RaiseEnd, NoMemory>
        ensures { IfOk result
            (IsRaiseEnd count.now.election count.now.rule.options count.now.counted.outcome) }
    {
        let options = count.rule().options;
        match options.completion {
            Completion::Plain | Completion::NoShares => Ok(RaiseEnd::Plain),
            Completion::Add1 => {
                completed_end(rt, alloc, count.election(), &options, count.outcome(), gate)
            }
        }
    }
}

/// Why the raises of a completed count ended.
fn completed_end<R: Threads + Sync, G: Gate>(
    rt: &R,
    alloc: Global,
    election: &Election,
    options: &CountOptions,
    outcome: &Outcome,
    gate: &G,
) -> Result<RaiseEnd, NoMemory>
    requires counted { IsCountOf election.now options.now outcome.now }
    requires add1 { options.now.completion ≡ Add1 }
    ensures { IfOk result (IsRaiseEnd election.now options.now outcome.now) }
{
    // What is true of every election bounds the next share.
    let _budget = election.budget();
    if is_exhausted(alloc, election, outcome)? {
        return Ok(RaiseEnd::Exhausted);
    }
    let share = next_share(outcome, step_in_parts(election, options));
    match equal_shares(rt, alloc, election, share, options, gate) {
        Ok(next) => {
            let raise = next_raise(alloc, election, outcome, &next);
            drop(next);
            Ok(RaiseEnd::Over(raise?))
        }
        Err(CountFault::NoMemory) => Err(NoMemory),
        // The count had these workers, so nothing but want of memory refuses the run.
        Err(_) => unreachable!(),
    }
}

/// The share after one raise more.
fn next_share(outcome: &Outcome, step: Money) -> Money
    requires { outcome.now.share + step ≤ largest_share }
    ensures share { result ≡ outcome.now.share + step }
    ensures small { result ≤ largest_share }
{
    Money(outcome.share.0 + step.0)
}

/// Whether each other project that has a supporter costs more than what the elected leave of the budget.
pub(crate) fn is_exhausted(
    alloc: Global,
    election: &Election,
    outcome: &Outcome,
) -> Result<bool, NoMemory>
    requires { IsOutcome election.now outcome.now }
    ensures { IfOk result (TellsExhausted election.now outcome.now) }
{
    let budget = election.budget();
    let elected = outcome.elected.as_slice();
    let left = Money(budget.0 - spent_for(election, elected));
    let places = places_of(alloc, elected)?;
    let winners = Winners::of(alloc, election, places.as_slice())?;
    let projects = election.projects().len() as u32;
    // Where each other project costs more than what is left, it looks at no ballot.
    let has_room = leave_room_for_any_project(&winners, projects, left)
        && leave_room_for_any_voter(&winners, election.voters(), left);
    Ok(!has_room)
}

/// What is told of the run after one raise more than those of an outcome.
fn next_raise(
    alloc: Global,
    election: &Election,
    outcome: &Outcome,
    next: &Outcome,
) -> Result<NextRaise, NoMemory>
    requires now { All (λ w. w.place < length election.now.projects) outcome.now.elected }
    requires known { All (λ w. w.place < length election.now.projects) next.now.elected }
    requires fits { spent_on (support_of election.now) next.now.elected < 2 ^ 64 }
    ensures { IfOk result (λ raise. (raise.share ≡ next.now.share)
        × (raise.cost ≡ spent_on (support_of election.now) next.now.elected)
        × (raise.only_then.items ≡ map (λ w. w.place)
        (filter (λ w. not (is_elected outcome.now.elected w.place)) next.now.elected))
        × (raise.no_more.items ≡ map (λ w. w.place)
        (filter (λ w. not (is_elected next.now.elected w.place)) outcome.now.elected))) }
{
    let elected = next.elected.as_slice();
    let cost = spent_for(election, elected);
    let now = outcome.elected.as_slice();
    let only_then = only_by(alloc, election, now, elected)?;
    let no_more = only_by(alloc, election, elected, now)?;
    Ok(NextRaise {
        share: next.share,
        cost: Money(cost),
        only_then,
        no_more,
    })
}

/// The places of those of the elected that are none of the others.
fn only_by(
    alloc: Global,
    election: &Election,
    others: &[Elected],
    elected: &[Elected],
) -> Result<Vec<u32>, NoMemory>
    requires { All (λ w. w.place < length election.now.projects) elected.now }
    ensures { IfOk result (λ places. places.items
        ≡ map (λ w. w.place) (filter (λ w. not (is_elected others.now w.place)) elected.now)) }
{
    let places = places_of(alloc, others)?;
    let winners = Winners::of(alloc, election, places.as_slice())?;
    let only = others_of(alloc, &winners, elected);
    drop(winners);
    drop(places);
    only
}

/// The places of those of the elected that are not among the winners.
fn others_of(alloc: Global, winners: &Winners, elected: &[Elected]) -> Result<Vec<u32>, NoMemory>
    requires { All (λ w. w.place < length winners.now.0.projects) elected.now }
    ensures { IfOk result (λ places. places.items
        ≡ map (λ w. w.place) (filter (λ w. not (is_taken winners.now.1 w.place)) elected.now)) }
{
    let mut places = Vec::new(alloc);
    for winner in elected {
        if !winners.has(winner.place) {
            places.push(winner.place)?;
        }
    }
    Ok(places)
}
