//! The pairs of equal projects that the rule for ties separated.

ghost use Rattle.std.specs.Prelude.{◌≡◌, ◌<◌, ◌≤◌, ◌++◌, ◌∷◌, [], All, IfOk, MatchOption, OnOk, Some, filter, length, nat_le};
ghost use Rattle.std.specs.Prelude.{◌&&◌, ◌==◌, false, not, slice_index_or, take};
ghost use Rattle.std.specs.List.{range_with_len};
ghost use Rattle.pb_price.specs.Price.{largest_share};
ghost use Rattle.pb_price.specs.Supporters.{cost_at, support_in};
ghost use Rattle.pb_reasons.specs.AllTies.{AreTieRows, added_ties, all_ties, answered_ties, run_ties, runs_of};
ghost use Rattle.pb_reasons.specs.Inner.AllTies.{IsTieOf, is_equal_to, ties_at_added, told_with, with_other};
ghost use Rattle.pb_rounds.specs.Cheapest.{IsRun};
ghost use Rattle.pb_rounds.specs.Count.{share_by, step_of};
ghost use Rattle.pb_rounds.specs.MostVotes.{is_taken, votes_at};

use crate::changes::recounts::Recounts;
use crate::counted_election::CountedElection;
use crate::exchange::with_changes;
use crate::first_told::FirstTold;
use crate::raise_end::is_exhausted;
use crate::replay::pay;
use crate::tie::Tie;
use crate::tie_queue::opening_queue;
use crate::tied_round::{TiedRound, opening_bounds, opening_rests};
use crate::told_tie::{ToldTie, ToldTies};
use crate::winners::flags_of;
use pb_core::gate::Gate;
use pb_core::money::Money;
use pb_core::no_memory::NoMemory;
use pb_price::supporters::Supporters;
use pb_rounds::count::{equal_shares, step_in_parts};
use pb_rounds::options::Completion;
use pb_rounds::outcome::Outcome;
use std::alloc::Global;
use std::thread::Threads;

/// The most runs whose ties are told.
const MOST_RUNS: u32 = 1_000;

/// The most ties of all runs that are told.
const MOST_ROWS: usize = 100_000;

/// One more, which tells that there are others.
const WITH_ANOTHER: usize = 100_001;

/// The most ties of the answered run that are told.
const MOST_ANSWERED: usize = 100;

/// All pairs of equal projects that the rule for ties separated, in each run of a count: all raises up to the
/// answered one are run, and the one beyond it where that one ended the raises. None where these are more than a
/// thousand runs. At most 100,000 pairs are told; of the first hundred different ones, whether others win where just
/// the two are exchanged.
pub fn all_ties<T: Threads + Sync, G: Gate>(
    rt: &T,
    alloc: Global,
    gate: &G,
    count: CountedElection,
) -> Result<Option<ToldTies>, NoMemory>
    ensures { IfOk result (λ found. MatchOption found (1000 < runs_of count)
        (λ ties. (runs_of count ≤ 1000) × AreTieRows count 100000 ties.rows.items
        × (ties.is_whole ≡ nat_le (length (all_ties count)) 100000))) }
{
    let recounts = Recounts {
        rt,
        alloc,
        gate,
        rule: count.rule(),
    };
    let runs = runs_of(alloc, &count)?;
    if runs > MOST_RUNS {
        drop(count);
        return Ok(None);
    }
    let mut told = separated(&recounts, &count, runs)?;
    let is_whole = told.len() <= MOST_ROWS;
    told.truncate(MOST_ROWS);
    let rows = with_changes(&recounts, count, told.as_slice());
    drop(told);
    Ok(Some(ToldTies {
        rows: rows?,
        is_whole,
    }))
}

/// The first hundred pairs of equal projects that the rule for ties separated in the answered run and in filling up.
///
/// In a round it looks only at projects whose last known price, which never falls, is not already above a tie: a queue
/// has them by that price.
pub fn answered_ties(alloc: Global, count: &CountedElection) -> Result<Vec<ToldTie>, NoMemory>
    ensures { IfOk result (λ ties. ties.items ≡ answered_ties count.now) }
{
    let outcome = count.outcome();
    let mut told: FirstTold<MOST_ANSWERED> = FirstTold {
        rows: Vec::new(alloc),
    };
    put_rounds(alloc, count, outcome.raised, outcome, &mut told)?;
    put_added(alloc, count, &mut told)?;
    Ok(told.rows)
}

/// How many runs a count rests on.
fn runs_of(alloc: Global, count: &CountedElection) -> Result<u32, NoMemory>
    ensures { IfOk result (λ runs. runs ≡ runs_of count.now) }
{
    let outcome = count.outcome();
    match count.rule().options.completion {
        Completion::Plain | Completion::NoShares => Ok(outcome.raised + 1),
        Completion::Add1 => {
            if is_exhausted(alloc, count.election(), outcome)? {
                Ok(outcome.raised + 1)
            } else {
                Ok(outcome.raised + 2)
            }
        }
    }
}

/// The ties of so many runs, and of the added; where they are more than are told, one more than these.
fn separated<T: Threads + Sync, G: Gate>(
    recounts: &Recounts<T, G>,
    count: &CountedElection,
    runs: u32,
) -> Result<Vec<ToldTie>, NoMemory>
    requires by { recounts.now.rule ≡ count.now.rule }
    requires runs { runs ≡ runs_of count.now }
    ensures told { IfOk result (λ told. told.items ≡ take 100001 (all_ties count.now)) }
    ensures known { IfOk result (λ told. All (λ t. IsTieOf count.now.election t.tie) told.items) }
{
    // What is true of every count is so of this one.
    let _election = count.election();
    let mut told: FirstTold<WITH_ANOTHER> = FirstTold {
        rows: Vec::new(recounts.alloc),
    };
    for run in 0..runs {
        put_run(recounts, count, run, &mut told)?;
    }
    put_added(recounts.alloc, count, &mut told)?;
    Ok(told.rows)
}

/// Puts the ties of a run behind the others.
fn put_run<T: Threads + Sync, G: Gate>(
    recounts: &Recounts<T, G>,
    count: &CountedElection,
    run: u32,
    told: &mut FirstTold<WITH_ANOTHER>,
) -> Result<(), NoMemory>
    requires by { recounts.now.rule ≡ count.now.rule }
    requires made { run < runs_of count.now }
    ensures { OnOk result (told.new.rows.items ≡ take 100001 (told.old.rows.items ++ run_ties count.now run)) }
{
    if told.is_full() {
        return Ok(());
    }
    let (rt, alloc, options) = (recounts.rt, recounts.alloc, recounts.rule.options);
    let share = share_after(count, run);
    let election = count.election();
    match equal_shares(rt, alloc, election, share, &options, recounts.gate) {
        Ok(outcome) => {
            let put = put_rounds(alloc, count, run, &outcome, told);
            drop(outcome);
            put
        }
        // The count had these workers, so only want of memory refuses the run.
        Err(_) => Err(NoMemory),
    }
}

/// Everyone's share after so many raises.
fn share_after(count: &CountedElection, run: u32) -> Money
    requires { run < runs_of count.now }
    ensures { result ≡ share_by count.now.rule.options.completion count.now.rule.options.grain
        count.now.election (step_of count.now.election count.now.rule.options) run }
{
    let (outcome, options) = (count.outcome(), count.rule().options);
    let step = step_in_parts(count.election(), &options).0;
    let opening = outcome.share.0 - u64::from(outcome.raised) * step;
    Money(opening + u64::from(run) * step)
}

/// Puts the ties of the rounds of a run behind the others.
fn put_rounds<const MOST: usize>(
    alloc: Global,
    count: &CountedElection,
    run: u32,
    outcome: &Outcome,
    told: &mut FirstTold<MOST>,
) -> Result<(), NoMemory>
    requires share { outcome.now.share ≡ share_by count.now.rule.options.completion count.now.rule.options.grain
        count.now.election (step_of count.now.election count.now.rule.options) run }
    requires small { outcome.now.share ≤ largest_share }
    requires is_run { IsRun count.now.rule.options.measure
        (support_in count.now.rule.options.grain count.now.election) outcome.now.share outcome.now.elected outcome.now.rests }
    ensures { OnOk result (told.new.rows.items ≡ take MOST (told.old.rows.items ++ run_ties count.now run)) }
{
    // What is true of every count is so of this one.
    let _election = count.election();
    let (supporters, measure) = (count.supporters(), count.rule().options.measure);
    let elected = outcome.elected.as_slice();
    let mut bounds = opening_bounds(alloc, supporters.projects() as usize)?;
    let mut queue = opening_queue(alloc, measure, supporters)?;
    let mut rests = opening_rests(alloc, outcome.share, supporters.voters())?;
    for (before, winner) in elected.iter().enumerate() {
        if told.is_full() {
            return Ok(());
        }
        bounds[winner.place as usize] = None;
        let round = TiedRound {
            measure,
            supporters,
            elected: &elected[..before + 1],
            rests: &rests,
            winner: *winner,
        };
        let others = round.others(alloc, &mut bounds, &mut queue)?;
        let first = first_of(run, before + 1, Some(before + 1), winner.place);
        put_others(alloc, told, count, first, others.as_slice())?;
        drop(others);
        pay(supporters.of(winner.place), winner.price, &mut rests);
    }
    Ok(())
}

/// What is told of a winner's ties, but for the other project.
fn first_of(run: u32, number: usize, round: Option<usize>, winner: u32) -> ToldTie
    ensures { result ≡ record {
      run = run;
      number = number;
      tie = record { round = round; winner = winner; other = winner };
    } }
{
    ToldTie {
        run,
        number,
        tie: Tie {
            round,
            winner,
            other: winner,
        },
    }
}

/// Puts the ties with these other projects behind those that stand there, in the order of the file, as far as they are
/// told.
fn put_others<const MOST: usize>(
    alloc: Global,
    told: &mut FirstTold<MOST>,
    count: &CountedElection,
    first: ToldTie,
    others: &[u32],
) -> Result<(), NoMemory>
    ensures { OnOk result (told.new.rows.items ≡ take MOST (told.old.rows.items
        ++ told_with count.now first (is_taken others.now))) }
{
    if others.is_empty() {
        return Ok(());
    }
    let projects = count.election().projects().len();
    let ties = flags_of(alloc, others, projects)?;
    for place in 0..projects {
        let position = count.position(place as u32);
        if ties[position as usize] {
            told.tell(with_other(first, position))?;
        }
    }
    Ok(())
}

/// The same, with this other project.
fn with_other(first: ToldTie, other: u32) -> ToldTie
    ensures { result ≡ with_other first other }
{
    ToldTie {
        run: first.run,
        number: first.number,
        tie: Tie {
            round: first.tie.round,
            winner: first.tie.winner,
            other,
        },
    }
}

/// Puts the ties of the added behind the others.
fn put_added<const MOST: usize>(
    alloc: Global,
    count: &CountedElection,
    told: &mut FirstTold<MOST>,
) -> Result<(), NoMemory>
    ensures { OnOk result (told.new.rows.items ≡ take MOST (told.old.rows.items ++ added_ties count.now)) }
{
    for number in 0..count.added().len() {
        put_one_added(alloc, count, number, told)?;
    }
    Ok(())
}

/// Puts the ties of the added project with this number, from 0, behind the others.
fn put_one_added<const MOST: usize>(
    alloc: Global,
    count: &CountedElection,
    number: usize,
    told: &mut FirstTold<MOST>,
) -> Result<(), NoMemory>
    requires known { number < length count.now.counted.added }
    ensures { OnOk result (told.new.rows.items ≡ take MOST (told.old.rows.items ++ ties_at_added count.now number)) }
{
    if told.is_full() {
        return Ok(());
    }
    // What is true of every count is so of this one.
    let _election = count.election();
    let winner = count.added()[number];
    let elected = count.outcome().elected.len();
    let taken = &count.winners()[..elected + number + 1];
    let others = equals(alloc, count.supporters(), taken, winner)?;
    let first = first_of(count.outcome().raised, number + 1, None, winner);
    let put = put_others(alloc, told, count, first, others.as_slice());
    drop(others);
    put
}

/// The projects that are not taken, and have as many votes as this one and the same cost, by place.
fn equals(
    alloc: Global,
    supporters: &Supporters,
    taken: &[u32],
    winner: u32,
) -> Result<Vec<u32>, NoMemory>
    requires known { winner < length supporters.now.costs }
    ensures { IfOk result (λ others. others.items
        ≡ filter (is_equal_to supporters.now taken.now winner) (range_with_len 0 (length supporters.now.costs))) }
{
    let projects = supporters.projects();
    let is_taken = flags_of(alloc, taken, projects as usize)?;
    let mut others = Vec::new(alloc);
    for place in 0..projects {
        if is_free_equal(supporters, &is_taken, winner, place) {
            others.push(place)?;
        }
    }
    Ok(others)
}

/// Whether the project at a place is not taken, and has as many votes as another one and the same cost.
fn is_free_equal(supporters: &Supporters, is_taken: &[bool], winner: u32, place: u32) -> bool
    requires winner { winner < length supporters.now.costs }
    requires known { place < length supporters.now.costs }
    requires one_each { length is_taken.now ≡ length supporters.now.costs }
    ensures { result ≡ not (slice_index_or is_taken.now place false)
        && ((votes_at supporters.now place == votes_at supporters.now winner)
        && (cost_at supporters.now place == cost_at supporters.now winner)) }
{
    !is_taken[place as usize]
        && supporters.of(place).len() == supporters.of(winner).len()
        && supporters.cost(place).0 == supporters.cost(winner).0
}
