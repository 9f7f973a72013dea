//! What would have made the losers with most votes win.

ghost use Rattle.std.specs.Prelude.{◌≡◌, ◌≢◌, ◌++◌, ◌∷◌, [], All, ◌<◌, IfErr, IfOk, OnOk, length, map, slice_index};
ghost use Rattle.pb_price.specs.Supporters.{cost_at, support_of};
ghost use Rattle.pb_rounds.specs.Counted.{IsCountFault, IsCountOf};
ghost use Rattle.pb_rounds.specs.Outcome.{OutcomeView};
ghost use Rattle.pb_reasons.specs.Counted.{counted};
ghost use Rattle.pb_reasons.specs.CountedElection.{IsFaultIn};
ghost use Rattle.pb_reasons.specs.Losers.{AreFound};
ghost use Rattle.pb_reasons.specs.WhatIf.{IsWhatIf};
ghost use Rattle.pb_reasons.specs.Inner.Losers.{AreAnswers, AreAsked, AreFirst, HasLost, IsAnswer, IsLoser};
ghost use Rattle.pb_reasons.specs.Inner.Losers.{IsSearched, about};

use crate::changes::answer::loser;
use crate::changes::changing::Changing;
use crate::changes::loser::Loser;
use crate::changes::project_gate::ProjectGate;
use crate::changes::ranked::first_losers;
use crate::changes::recount::put_back;
use crate::changes::recounts::Recounts;
use crate::counted::Counted;
use pb_core::election::Election;
use pb_core::gate::Gate;
use pb_core::no_memory::NoMemory;
use pb_core::order::ProjectOrder;
use pb_rounds::count::count_watched;
use pb_rounds::count_fault::CountFault;
use pb_rounds::tie_order::put_in_tie_order;
use std::alloc::Global;
use std::thread::{self, Threads};

/// What the search of a loser answers.
type Answer = Result<Loser, NoMemory>;

/// Searches what would have made each of the losers with most votes win, at most this many: as `what_if` does
/// it for one.
pub fn what_if_losers<T: Threads + Sync, G: Gate + ProjectGate>(
    recounts: &Recounts<T, G>,
    election: Election,
    first: usize,
) -> Result<Vec<Loser>, CountFault>
    ensures found { IfOk result (λ found. AreFound election recounts.now.rule first found.items) }
    ensures fault { IfErr result (λ fault. fault ≢ CountFault.NoMemory
        → IsFaultIn recounts.now.rule election fault) }
{
    let mut election = election;
    // What is true of every election holds of this one.
    let _projects = election.projects();
    match asked(recounts, &mut election, first) {
        Ok(places) => {
            let found = searched(recounts, election, places.as_slice());
            drop(places);
            Ok(found?)
        }
        Err(fault) => {
            drop(election);
            Err(fault)
        }
    }
}

/// The losers that are asked about, by place: the election is counted as it is.
fn asked<T: Threads + Sync, G: Gate>(
    recounts: &Recounts<T, G>,
    election: &mut Election,
    first: usize,
) -> Result<Vec<u32>, CountFault>
    ensures asked { IfOk result (λ places. AreAsked election.old recounts.now.rule first places.items) }
    ensures kept { IfOk result (λ _. election.new ≡ election.old) }
    ensures fault { IfErr result (λ fault. fault ≢ CountFault.NoMemory
        → IsFaultIn recounts.now.rule election.old fault) }
{
    let alloc = recounts.alloc;
    // What is true of every election holds of this one.
    let _projects = election.projects();
    let order = put_in_tie_order(alloc, election, &recounts.rule.ties)?;
    let losers = losers_in(recounts, election, &order, first);
    let back = put_back(alloc, election, &order, &recounts.rule.ties);
    drop(order);
    back?;
    losers
}

/// The same, of an election whose projects stand in this order of ties.
fn losers_in<T: Threads + Sync, G: Gate>(
    recounts: &Recounts<T, G>,
    election: &Election,
    order: &ProjectOrder,
    first: usize,
) -> Result<Vec<u32>, CountFault>
    requires { length order.now ≡ length election.now.projects }
    ensures ok { IfOk result (λ places. (o : OutcomeView) × IsCountOf election.now recounts.now.rule.options o
        × AreFirst election.now (counted election.now recounts.now.rule.fill_up o) order.now first places.items) }
    ensures fault { IfErr result (IsCountFault election.now recounts.now.rule.options) }
{
    let (rt, alloc, rule) = (recounts.rt, recounts.alloc, recounts.rule);
    let outcome = count_watched(rt, alloc, election, &rule.options, recounts.gate)?;
    // What is true of every election holds of its projects.
    let _projects = election.projects();
    let counted = Counted::of(alloc, election, outcome, rule.fill_up)?;
    let places = first_losers(alloc, election, &counted, order, first);
    drop(counted);
    Ok(places?)
}

/// Searches what would have made each of these losers win.
fn searched<T: Threads + Sync, G: Gate + ProjectGate>(
    recounts: &Recounts<T, G>,
    election: Election,
    places: &[u32],
) -> Result<Vec<Loser>, NoMemory>
    requires { All (HasLost election recounts.now.rule) places.now }
    ensures each { IfOk result (λ found. All (λ l. IsWhatIf election (about recounts.now.rule l.place)
        (cost_at (support_of election) l.place) l.found) found.items) }
    ensures places { IfOk result (λ found. map (λ l. l.place) found.items ≡ places.now) }
{
    let changing = Changing::of(recounts.alloc, election)?;
    let found = search_each(recounts, &changing, places);
    drop(changing);
    found
}

/// Searches these losers, and lists what is found of them.
fn search_each<T: Threads + Sync, G: Gate + ProjectGate>(
    recounts: &Recounts<T, G>,
    changing: &Changing,
    places: &[u32],
) -> Result<Vec<Loser>, NoMemory>
    requires { All (IsLoser changing.now recounts.now.rule) places.now }
    ensures each { IfOk result (λ found. All (IsSearched changing.now recounts.now.rule) found.items) }
    ensures places { IfOk result (λ found. map (λ l. l.place) found.items ≡ places.now) }
{
    let answers = answers_of(recounts, changing, places)?;
    let mut found = Vec::new(recounts.alloc);
    for answer in answers.as_slice() {
        let loser = (*answer)?;
        keep(&mut found, loser)?;
    }
    drop(answers);
    Ok(found)
}

/// Puts what is found of a loser behind what is found of others.
fn keep(found: &mut Vec<Loser>, loser: Loser) -> Result<(), NoMemory>
    ensures { OnOk result (found.new.items ≡ found.old.items ++ loser ∷ []) }
{
    found.push(loser)?;
    Ok(())
}

/// What the searches of these losers answer, each at its place.
fn answers_of<T: Threads + Sync, G: Gate + ProjectGate>(
    recounts: &Recounts<T, G>,
    changing: &Changing,
    places: &[u32],
) -> Result<Vec<Answer>, NoMemory>
    requires { All (IsLoser changing.now recounts.now.rule) places.now }
    ensures { IfOk result (λ answers. AreAnswers changing.now recounts.now.rule places.now answers.items) }
{
    let mut answers = Vec::new(recounts.alloc);
    answers.resize(places.len(), Err(NoMemory))?;
    search_beside(recounts, changing, places, answers.as_mut_slice());
    Ok(answers)
}

/// Searches these losers side by side.
fn search_beside<T: Threads + Sync, G: Gate + ProjectGate>(
    recounts: &Recounts<T, G>,
    changing: &Changing,
    places: &[u32],
    answers: &mut [Answer],
)
    requires losers { All (IsLoser changing.now recounts.now.rule) places.now }
    requires one_each { length answers.old ≡ length places.now }
    ensures { AreAnswers changing.now recounts.now.rule places.now answers.new }
{
    let search = |i: usize, answer: &mut Answer|
        requires { (i < length places.now) × All (IsLoser changing.now recounts.now.rule) places.now }
        ensures { IsAnswer changing.entry.now recounts.entry.now.rule
            (slice_index places.entry.now i) answer.exit.now }
    { *answer = search_copy(recounts, changing, places, i) };
    let threads = searchers(recounts.rt, recounts.rule.options.workers);
    thread::for_each_mut(recounts.rt, answers, threads, &search);
}

/// How many losers are searched side by side: one for each worker, but at most one for each processor, since
/// each search has a copy of the ballots.
fn searchers(rt: &impl Threads, workers: u32) -> usize
    ensures { 0 < result }
{
    let most = match thread::available_parallelism(rt) {
        Ok(processors) => processors.get(),
        Err(_) => 1,
    };
    most.min(workers as usize).max(1)
}

/// Searches what would have made one of these losers win, in a copy of the election.
fn search_copy<T: Threads + Sync, G: Gate + ProjectGate>(
    recounts: &Recounts<T, G>,
    changing: &Changing,
    places: &[u32],
    number: usize,
) -> Answer
    requires known { number < length places.now }
    requires losers { All (IsLoser changing.now recounts.now.rule) places.now }
    ensures { IsAnswer changing.now recounts.now.rule (slice_index places.now number) result }
{
    recounts.gate.begins(places.len());
    let place = places[number];
    let recount = recounts.about(place);
    let mut own = changing.copy_about(recounts.alloc, place)?;
    let cost = own.cost(place);
    let found = loser(&recount, &mut own, cost)?;
    drop(own);
    Ok(Loser { place, found })
}
