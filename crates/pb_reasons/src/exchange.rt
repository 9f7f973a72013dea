//! Counts in which two projects of a tie are exchanged.

ghost use Rattle.std.specs.Prelude.{◌≡◌, ◌≢◌, ◌↔◌, ◌≤◌, ◌<◌, All, AllPairs, IfOk, List, MatchOption, OnOk, false, length, map};
ghost use Rattle.std.specs.Prelude.{slice_index, swap, true};
ghost use Rattle.std.specs.List.{Any, range_with_len};
ghost use Rattle.pb_core.specs.Ballot.{HasSameMembers};
ghost use Rattle.pb_core.specs.Election.{ElectionView, most_projects};
ghost use Rattle.pb_core.specs.Order.{IsOrder};
ghost use Rattle.pb_reasons.specs.AllTies.{Changes, is_same_pair};
ghost use Rattle.pb_reasons.specs.Counted.{CountedView, IsCountBy, winners_of};
ghost use Rattle.pb_reasons.specs.CountedElection.{CountedElectionView};
ghost use Rattle.pb_reasons.specs.Inner.AllTies.{AreBefore, AreRecounted, AreRowsOf, IsRecounted, IsTieOf};
ghost use Rattle.pb_reasons.specs.declared.tie.Tie.{Tie};
ghost use Rattle.pb_rounds.specs.Counted.{IsCountFault};
ghost use Rattle.pb_rounds.specs.declared.rule.Rule.{Rule};
ghost use Rattle.pb_rounds.specs.declared.count_fault.CountFault.TheVariants.{RaisesSpent};

use crate::changes::recounts::Recounts;
use crate::counted::Counted;
use crate::counted_election::CountedElection;
use crate::tie::Tie;
use crate::told_tie::{TieRow, ToldTie};
use crate::winners::flags_of;
use pb_core::election::Election;
use pb_core::gate::Gate;
use pb_core::no_memory::NoMemory;
use pb_core::order::ProjectOrder;
use pb_rounds::count::count_watched;
use pb_rounds::count_fault::CountFault;
use std::alloc::Global;
use std::thread::Threads;

/// Of how many different pairs it is said what it changes to exchange them.
const MOST_RECOUNTED: usize = 100;

/// The winners of the count whose ties are told.
#[derive(Drop)]
struct Before {
    /// Whether each project has won.
    has_won: Vec<bool>,
    winners: usize,
}

/// What it changes to exchange the two projects of a tie.
#[derive(Clone, Copy)]
pub(crate) struct Recounted {
    pub tie: Tie,
    /// Whether others win, or the count is refused.
    pub changes: bool,
}

/// The rows of these ties: each of the first hundred different pairs is recounted, with just these two exchanged.
pub(crate) fn with_changes<T: Threads + Sync, G: Gate>(
    recounts: &Recounts<T, G>,
    count: CountedElection,
    told: &[ToldTie],
) -> Result<Vec<TieRow>, NoMemory>
    requires by { recounts.now.rule ≡ count.rule }
    requires known { All (λ t. IsTieOf count.election t.tie) told.now }
    ensures { IfOk result (λ rows. AreRowsOf count told.now rows.items) }
{
    let before = before_of(recounts.alloc, &count)?;
    let mut election = count.into_election();
    let rows = rows_of(recounts, &mut election, &before, told);
    drop(election);
    drop(before);
    rows
}

/// The winners of a count.
fn before_of(alloc: Global, count: &CountedElection) -> Result<Before, NoMemory>
    ensures { IfOk result (λ before.
        AreBefore count.now.rule count.now.election before.has_won.items before.winners count.now) }
{
    let winners = count.winners();
    let has_won = flags_of(alloc, winners, count.election().projects().len())?;
    Ok(Before {
        has_won,
        winners: winners.len(),
    })
}

/// The rows of these ties.
fn rows_of<T: Threads + Sync, G: Gate>(
    recounts: &Recounts<T, G>,
    election: &mut Election,
    before: &Before,
    told: &[ToldTie],
) -> Result<Vec<TieRow>, NoMemory>
    requires known { All (λ t. IsTieOf election.old t.tie) told.now }
    requires one_each { length before.now.has_won.items ≡ length election.old.projects }
    ensures { IfOk result (λ rows. (x : CountedElectionView)
        → AreBefore recounts.now.rule election.old before.now.has_won.items before.now.winners x
        → AreRowsOf x told.now rows.items) }
{
    let mut known = Vec::new(recounts.alloc);
    let mut rows = Vec::new(recounts.alloc);
    for one in told {
        let changes = changes_by(recounts, election, before, &mut known, one.tie)?;
        rows.push(TieRow {
            told: *one,
            changes,
        })?;
    }
    drop(known);
    Ok(rows)
}

/// What it changes to exchange the two projects of a tie, as it is known or by one count more; none where as many
/// pairs were recounted as are at most.
fn changes_by<T: Threads + Sync, G: Gate>(
    recounts: &Recounts<T, G>,
    election: &mut Election,
    before: &Before,
    known: &mut Vec<Recounted>,
    tie: Tie,
) -> Result<Option<bool>, NoMemory>
    requires known { IsTieOf election.old tie }
    requires one_each { length before.now.has_won.items ≡ length election.old.projects }
    ensures kept { OnOk result (election.new ≡ election.old) }
    ensures recounted { IfOk result (λ changes. (x : CountedElectionView) (ties : List Tie)
        → AreBefore recounts.now.rule election.old before.now.has_won.items before.now.winners x
        → AreRecounted x ties known.old.items → IsRecounted x ties tie changes known.new.items) }
{
    if let Some(changes) = change_known(known.as_slice(), tie) {
        return Ok(Some(changes));
    }
    if known.len() == MOST_RECOUNTED {
        return Ok(None);
    }
    let changes = changes(recounts, election, before, tie)?;
    known.push(Recounted { tie, changes })?;
    Ok(Some(changes))
}

/// What it changes to exchange the two projects of a tie, if these were recounted.
fn change_known(known: &[Recounted], tie: Tie) -> Option<bool>
    ensures { MatchOption result (All (λ k. is_same_pair k.tie tie ≡ false) known.now)
        (λ changes. Any (λ k. (is_same_pair k.tie tie ≡ true) × (k.changes ≡ changes)) known.now) }
{
    for pair in known {
        if is_same_pair(pair.tie, tie) {
            return Some(pair.changes);
        }
    }
    None
}

/// Whether two ties are of the same two projects.
fn is_same_pair(tie: Tie, other: Tie) -> bool
    ensures { result ≡ is_same_pair tie other }
{
    tie.winner == other.winner && tie.other == other.other
}

/// Whether others win where the two projects of a tie are exchanged, or the count is refused.
fn changes<T: Threads + Sync, G: Gate>(
    recounts: &Recounts<T, G>,
    election: &mut Election,
    before: &Before,
    tie: Tie,
) -> Result<bool, NoMemory>
    requires known { IsTieOf election.old tie }
    requires one_each { length before.now.has_won.items ≡ length election.old.projects }
    ensures kept { OnOk result (election.new ≡ election.old) }
    ensures changes { IfOk result (λ changes. (x : CountedElectionView)
        → AreBefore recounts.now.rule election.old before.now.has_won.items before.now.winners x
        → Changes x tie changes) }
{
    let alloc = recounts.alloc;
    let projects = election.projects().len() as u32;
    let order = exchanged(alloc, projects, tie)?;
    election.put_in_order(alloc, &order)?;
    let winners = winners_in(recounts, election);
    // Exchanged once more they stand as before.
    election.put_in_order(alloc, &order)?;
    let winners = winners?;
    let changes = match &winners {
        Some(winners) => differ(before, order.places(), winners.as_slice()),
        None => true,
    };
    drop(winners);
    drop(order);
    Ok(changes)
}

/// All places, with the two projects of a tie exchanged.
fn exchanged(alloc: Global, projects: u32, tie: Tie) -> Result<ProjectOrder, NoMemory>
    requires few { projects ≤ most_projects }
    requires winner { tie.winner < projects }
    requires other { tie.other < projects }
    ensures { IfOk result (λ order. order ≡ swap (range_with_len 0 projects) tie.winner tie.other) }
{
    let mut places = Vec::with_capacity(alloc, projects as usize)?;
    for place in 0..projects {
        places.push(place)?;
    }
    places.swap(tie.winner as usize, tie.other as usize);
    Ok(ProjectOrder::of(alloc, places)?)
}

/// The winners of a count of an election; none where its raises are spent.
fn winners_in<T: Threads + Sync, G: Gate>(
    recounts: &Recounts<T, G>,
    election: &Election,
) -> Result<Option<Vec<u32>>, NoMemory>
    ensures { IfOk result (λ found.
        MatchOption found (IsCountFault election.now recounts.now.rule.options RaisesSpent)
        (λ winners. (c : CountedView) × IsCountBy recounts.now.rule election.now c
        × (winners.items ≡ winners_of c))) }
{
    let (rt, alloc, rule) = (recounts.rt, recounts.alloc, &recounts.rule);
    match count_watched(rt, alloc, election, &rule.options, recounts.gate) {
        Ok(outcome) => {
            let counted = Counted::of(alloc, election, outcome, rule.fill_up)?;
            let winners = counted.winners(alloc);
            drop(counted);
            Ok(Some(winners?))
        }
        Err(CountFault::RaisesSpent) => Ok(None),
        // The count had these options, so only want of memory refuses this one too.
        Err(_) => Err(NoMemory),
    }
}

/// Whether these winners, whose projects stand at these places, are others than before.
fn differ(before: &Before, places: &[u32], winners: &[u32]) -> bool
    requires known { All (λ w. w < length places.now) winners.now }
    requires order { IsOrder places.now }
    requires differ { AllPairs (λ w v. w ≢ v) winners.now }
    requires one_each { length before.now.has_won.items ≡ length places.now }
    ensures { (x : CountedElectionView) (rule : Rule) (e : ElectionView)
        → AreBefore rule e before.now.has_won.items before.now.winners x
        → (result ≡ false) ↔ HasSameMembers (map (slice_index places.now) winners.now) (winners_of x.counted) }
{
    if winners.len() != before.winners {
        return true;
    }
    for winner in winners {
        let place = places[*winner as usize];
        if !before.has_won[place as usize] {
            return true;
        }
    }
    false
}
