//! The count of one election, and what it says of a project.

ghost use Rattle.std.specs.Prelude.{◌≡◌, ◌≢◌, ◌<◌, IfErr, IfOk, OnOk, length};
ghost use Rattle.pb_core.specs.Election.{ElectionView, IsElection};
ghost use Rattle.pb_reasons.specs.CountedElection.{IsFaultIn};
ghost use Rattle.pb_rounds.specs.Outcome.{OutcomeView};
ghost use Rattle.pb_rounds.specs.TieOrder.{IsSortedFor};
ghost use Rattle.pb_rounds.specs.MostVotes.{is_taken};
ghost use Rattle.pb_reasons.specs.Counted.{counted, is_selected};
ghost use Rattle.pb_rounds.specs.Run.{is_elected};
ghost use Rattle.pb_rounds.specs.Counted.{IsCountFault, IsCountOf};
ghost use Rattle.pb_reasons.specs.WhatIf.{Says};
ghost use Rattle.pb_reasons.specs.Inner.Searching.{HasWon, IsStop};

use crate::changes::change::Verdict;
use crate::changes::question::Question;
use crate::counted::Counted;
use pb_core::election::Election;
use pb_core::gate::Gate;
use pb_core::no_memory::NoMemory;
use pb_core::order::ProjectOrder;
use pb_rounds::count::count_watched;
use pb_rounds::count_fault::CountFault;
use pb_rounds::outcome::{Elected, Outcome};
use pb_rounds::rule::Rule;
use pb_rounds::tie_order::put_in_tie_order;
use pb_rounds::tie_rule::TieRule;
use std::alloc::Global;
use std::thread::Threads;

/// How changed elections are counted: by which threads, in which memory, what is asked of them, and who is
/// told of raises.
#[derive(Drop)]
pub struct Recount<'a, T, G> {
    pub rt: &'a T,
    pub alloc: Global,
    /// It is told of raises before they are tried.
    pub gate: &'a G,
    pub question: Question,
}

/// What the count of an election says of the project.
pub(crate) fn verdict_of<T: Threads + Sync, G: Gate>(
    recount: &Recount<T, G>,
    election: &mut Election,
) -> Result<Verdict, CountFault>
    requires known { recount.now.question.place < length election.old.projects }
    ensures ok { IfOk result (Says election.old recount.now.question) }
    ensures kept { IfOk result (λ _. election.new ≡ election.old) }
    ensures fault { IfErr result (IsStop recount.now.question) }
{
    match has_won(recount, election) {
        Ok(true) => Ok(Verdict::Won),
        Ok(false) => Ok(Verdict::Lost),
        Err(CountFault::RaisesSpent) => Ok(Verdict::Refused),
        Err(CountFault::TooFine) => Ok(Verdict::Refused),
        Err(fault) => Err(fault),
    }
}

/// Whether the count of an election elects or adds the project.
pub(crate) fn has_won<T: Threads + Sync, G: Gate>(
    recount: &Recount<T, G>,
    election: &mut Election,
) -> Result<bool, CountFault>
    requires known { recount.now.question.place < length election.old.projects }
    ensures ok { IfOk result (HasWon election.old recount.now.question) }
    ensures kept { IfOk result (λ _. election.new ≡ election.old) }
    ensures refused { IfErr result (λ fault. fault ≢ CountFault.NoMemory → election.new ≡ election.old) }
    ensures fault { IfErr result (λ fault. fault ≢ CountFault.NoMemory
        → IsFaultIn recount.now.question.rule election.old fault) }
{
    let alloc = recount.alloc;
    // What is true of every election holds of this one.
    let _projects = election.projects();
    let order = put_in_tie_order(alloc, election, &recount.question.rule.ties)?;
    let won = has_won_in(recount, election, order.position(recount.question.place));
    let back = put_back(alloc, election, &order, &recount.question.rule.ties);
    drop(order);
    back?;
    won
}

/// Puts the projects of an election, which stand in this order of ties, back in the order of the file.
pub(crate) fn put_back(
    alloc: Global,
    election: &mut Election,
    order: &ProjectOrder,
    ties: &TieRule,
) -> Result<(), NoMemory>
    requires sorted { (e : ElectionView) × IsElection e × IsSortedFor ties.now e order.now election.old }
    ensures { (e : ElectionView) → IsElection e → IsSortedFor ties.now e order.now election.old
        → OnOk result (election.new ≡ e) }
{
    if ties.is_file() {
        return Ok(());
    }
    let back = order.back(alloc)?;
    election.put_in_order(alloc, &back)?;
    drop(back);
    Ok(())
}

/// Whether the count of an election, whose projects stand as ties take them, elects or adds the project at this
/// place of it.
fn has_won_in<T: Threads + Sync, G: Gate>(
    recount: &Recount<T, G>,
    election: &Election,
    place: u32,
) -> Result<bool, CountFault>
    ensures ok { IfOk result (λ won. (o : OutcomeView) × IsCountOf election.now recount.now.question.rule.options o
        × (won ≡ is_selected (counted election.now recount.now.question.rule.fill_up o) place)) }
    ensures fault { IfErr result (IsCountFault election.now recount.now.question.rule.options) }
{
    let (rt, alloc) = (recount.rt, recount.alloc);
    let rule = &recount.question.rule;
    let outcome = count_watched(rt, alloc, election, &rule.options, recount.gate)?;
    Ok(is_won_by(alloc, election, outcome, rule, place)?)
}

/// Whether an outcome elects the project, or it is added to those that the outcome elects.
fn is_won_by(
    alloc: Global,
    election: &Election,
    outcome: Outcome,
    rule: &Rule,
    place: u32,
) -> Result<bool, NoMemory>
    requires { IsCountOf election.now rule.now.options outcome }
    ensures { IfOk result (λ won. won ≡ is_selected (counted election.now rule.now.fill_up outcome) place) }
{
    let counted = Counted::of(alloc, election, outcome, rule.fill_up)?;
    let won = is_selected(&counted, place);
    drop(counted);
    Ok(won)
}

/// Whether a count elected or added the project at this place.
fn is_selected(counted: &Counted, place: u32) -> bool
    ensures { result ≡ is_selected counted.now place }
{
    is_elected(counted.outcome.elected.as_slice(), place)
        || is_added(counted.added.as_slice(), place)
}

/// Whether the project at this place is one of the elected.
fn is_elected(elected: &[Elected], place: u32) -> bool
    ensures { result ≡ is_elected elected.now place }
{
    elected.iter().any(|winner| winner.place == place)
}

/// Whether the project at this place is one of the added.
fn is_added(added: &[u32], place: u32) -> bool
    ensures { result ≡ is_taken added.now place }
{
    added.contains(&place)
}
