//! Completion by raises that are tried, side by side where there are several workers, until one decides.

ghost use Rattle.std.specs.Prelude.{◌≡◌, ◌+◌, ◌*◌, ◌<◌, ◌≤◌, ℕ, None, length, slice_index_or, Some, IfOk};
ghost use Rattle.std.specs.Prelude.{IfErr, MatchOption, OnOk, ⊤, false, ◌-◌, true};
ghost use Rattle.pb_core.specs.Election.{IsElection};
ghost use Rattle.pb_price.specs.Price.{largest_share};
ghost use Rattle.pb_rounds.specs.Count.{add1_of, elected_after, is_decisive, share_after};
ghost use Rattle.pb_rounds.specs.Inner.Count.{IsCompletionFault};
ghost use Rattle.pb_rounds.specs.CountFault.{most_raises};
ghost use Rattle.pb_rounds.specs.Inner.Front.{IsFront, IsFrontAt};
ghost use Rattle.pb_rounds.specs.Inner.RaiseEnds.{CanComplete, IsCompletion, IsFound};
ghost use Rattle.pb_rounds.specs.Inner.Threads.{group_size};

use crate::count::{opening_of, outcome_after};
use crate::count_fault::CountFault;
use crate::front::Front;
use crate::outcome::Outcome;
use crate::pace::Pace;
use crate::pricing::{Pricing, workers_for_trials};
use crate::raise_end::RaiseEnd;
use crate::reach::{raised_share, raises_with_room};
use crate::trial::Trial;
use pb_core::election::Election;
use pb_core::gate::Gate;
use pb_core::money::Money;
use pb_core::no_memory::NoMemory;
use std::alloc::Allocator;
use std::mem::swap;
use std::thread::{self, Threads};

/// The most jumps after one group, so that the loop ends; a count that reaches it goes on with the next
/// group.
const MOST_JUMPS: u32 = 1_000;

/// Raises that are tried side by side, from this number of raises on.
#[derive(Drop)]
struct Group<'a, R, G, A: Allocator> {
    pricing: &'a Pricing<'a, R, G, A>,
    front: &'a Front<'a, A>,
    budget: Money,
    opening: Money,
    step: Money,
    next: u32,
}

impl<'a, R: Threads + Sync, G: Gate, A: Allocator + Copy + Send + Sync> Group<'a, R, G, A> {
    /// Tries the raise at this place of the group.
    fn try_raise(&self, i: usize, trial: &mut Trial<A>)
        requires small { self.now.opening + (self.now.next + i) * self.now.step ≤ largest_share }
        requires raised { self.now.next + i ≤ most_raises }
        requires front { IsFront self.now.front.now }
        requires of { IsFrontAt self.now.pricing.now.measure self.now.pricing.now.supporters.now
            (self.now.opening + self.now.next * self.now.step) self.now.front.now }
        ensures { IsFound self.now.pricing.now.measure self.now.pricing.now.supporters.now self.now.budget
            (self.now.opening + (self.now.next + i) * self.now.step) trial.new.outcome.elected trial.new.end }
    {
        let share = raised_share(self.opening, self.next + i as u32, self.step);
        let end = trial.end_of(self.front, self.budget, share);
        trial.end = end;
    }
}

/// Tries the raises of a group, one for each trial, each in a thread of its own where one can be made.
fn try_group<R: Threads + Sync, G: Gate, A: Allocator + Copy + Send + Sync>(
    group: &Group<R, G, A>,
    trials: &mut Vec<Trial<A>, A>,
)
    requires front { IsFront group.now.front.now }
    requires of { IsFrontAt group.now.pricing.now.measure group.now.pricing.now.supporters.now
        (group.now.opening + group.now.next * group.now.step) group.now.front.now }
    requires small { (i : ℕ) → i < length trials.old.items
        → group.now.opening + (group.now.next + i) * group.now.step ≤ largest_share }
    requires few { group.now.next + length trials.old.items ≤ most_raises + 1 }
    ensures len { length trials.new.items ≡ length trials.old.items }
    ensures ends { (i : ℕ) (d : _) → i < length trials.old.items
        → IsFound group.now.pricing.now.measure group.now.pricing.now.supporters.now group.now.budget
        (group.now.opening + (group.now.next + i) * group.now.step)
        (slice_index_or trials.new.items i d).outcome.elected (slice_index_or trials.new.items i d).end }
{
    let try_one = |i: usize, trial: &mut [Trial<A>]|
        requires { (length trial.now ≡ 1)
            × (group.now.opening + (group.now.next + i) * group.now.step ≤ largest_share)
            × (group.now.next + i ≤ most_raises)
            × IsFront group.now.front.now
            × IsFrontAt group.now.pricing.now.measure group.now.pricing.now.supporters.now
            (group.now.opening + group.now.next * group.now.step) group.now.front.now }
        ensures { (d : _) → IsFound group.entry.now.pricing.now.measure
            group.entry.now.pricing.now.supporters.now
            group.entry.now.budget (group.entry.now.opening
            + (group.entry.now.next + i) * group.entry.now.step)
            (slice_index_or trial.exit.now 0 d).outcome.elected (slice_index_or trial.exit.now 0 d).end }
    { group.try_raise(i, &mut trial[0]) };
    thread::for_each_chunk_mut(group.pricing.rt, trials.as_mut_slice(), 1, &try_one);
}

/// A completion by raises: what it counts, what each raise adds to the share, and how many there may be.
#[derive(Drop)]
struct Raising<'a, R, G, A: Allocator, B: Allocator> {
    pricing: &'a Pricing<'a, R, G, A>,
    election: &'a Election<B>,
    step: Money,
    max_raises: u32,
    ghost given: { CanComplete election.now pricing.now.supporters.now step max_raises },
}

impl<'a, R, G, A, B> Raising<'a, R, G, A, B>
where
    R: Threads + Sync,
    G: Gate,
    A: Allocator + Copy + Send + Sync,
    B: Allocator,
{
    /// Tries raises side by side, one for each trial, from this number of raises on, none before which
    /// decides: how many raises the completion decides on, where one of these decides. The first of them that
    /// does counts, whatever the later ones say. Where none does, the last trial has whom the last of these
    /// raises elects. The front is that of the first of these raises.
    fn try_raises(
        &self,
        front: &Front<'_, A>,
        trials: &mut Vec<Trial<A>, A>,
        next: u32,
    ) -> Result<Option<u32>, NoMemory>
        requires front { IsFront front.now }
        requires of { IsFrontAt self.now.pricing.now.measure self.now.pricing.now.supporters.now
            (share_after self.now.pricing.now.supporters.now.grain self.now.election.now self.now.step next) front.now }
        requires some { 0 < length trials.old.items }
        requires few { next + length trials.old.items ≤ self.now.max_raises + 1 }
        requires tried { (raises : ℕ) → raises < next
            → is_decisive self.now.pricing.now.measure self.now.pricing.now.supporters.now.grain self.now.election.now self.now.step raises ≡ false }
        ensures len { length trials.new.items ≡ length trials.old.items }
        ensures decided { IfOk result (λ found. MatchOption found
            ((raises : ℕ) → raises < next + length trials.old.items
            → is_decisive self.now.pricing.now.measure self.now.pricing.now.supporters.now.grain self.now.election.now self.now.step raises ≡ false)
            (λ raises. (raises ≤ self.now.max_raises)
            × (add1_of self.now.pricing.now.measure self.now.pricing.now.supporters.now.grain self.now.election.now self.now.step self.now.max_raises
            ≡ Some raises))) }
        ensures last { IfOk result (λ found. (d : _) → found ≡ None
            → (slice_index_or trials.new.items (length trials.old.items - 1) d).outcome.elected
            ≡ elected_after self.now.pricing.now.measure self.now.pricing.now.supporters.now.grain self.now.election.now self.now.step
            (next + length trials.old.items - 1)) }
    {
        let group = Group {
            pricing: self.pricing,
            front,
            budget: self.election.budget(),
            opening: opening_of(self.election, self.pricing.supporters),
            step: self.step,
            next,
        };
        try_group(&group, trials);
        drop(group);
        for i in 0..trials.len() {
            let raised = next + i as u32;
            let end = trials[i].end?;
            match end {
                RaiseEnd::Over => return Ok(Some(raised - 1)),
                RaiseEnd::Exhausted => return Ok(Some(raised)),
                RaiseEnd::GoesOn => {}
            }
        }
        Ok(None)
    }

    /// Whether every raise from this number on up to the target elects what the last one tried elected, so
    /// that none of them decides as that did not. Then the last trial has whom the target elects.
    fn jump(
        &self,
        last: &mut Trial<A>,
        ahead: &mut Trial<A>,
        next: u32,
        target: u32,
    ) -> Result<bool, NoMemory>
        requires given { CanComplete self.now.election.now self.now.pricing.now.supporters.now
            self.now.step target }
        requires next { (0 < next) × (next ≤ target) }
        requires tried { (raises : ℕ) → raises < next
            → is_decisive self.now.pricing.now.measure self.now.pricing.now.supporters.now.grain self.now.election.now self.now.step raises ≡ false }
        requires last { last.old.outcome.elected
            ≡ elected_after self.now.pricing.now.measure self.now.pricing.now.supporters.now.grain self.now.election.now self.now.step (next - 1) }
        ensures decided { IfOk result (λ jumped. jumped ≡ true → (raises : ℕ) → raises < target + 1
            → is_decisive self.now.pricing.now.measure self.now.pricing.now.supporters.now.grain self.now.election.now self.now.step raises ≡ false) }
        ensures last { IfOk result (λ jumped. jumped ≡ true → last.new.outcome.elected
            ≡ elected_after self.now.pricing.now.measure self.now.pricing.now.supporters.now.grain self.now.election.now self.now.step target) }
        ensures stays { IfOk result (λ jumped. jumped ≡ false
            → last.new.outcome.elected ≡ last.old.outcome.elected) }
    {
        let opening = opening_of(self.election, self.pricing.supporters);
        let share = raised_share(opening, target, self.step);
        let elected = last.outcome.elected.as_slice();
        let (measure, supporters) = (self.pricing.measure, self.pricing.supporters);
        let keeps = ahead.keeps(measure, supporters, share, elected)?;
        if keeps {
            swap(&mut last.outcome, &mut ahead.outcome);
        }
        Ok(keeps)
    }

    /// Jumps ahead from the last raise that was tried, as far as that goes: the number of raises that is
    /// tried next, none before which decides.
    fn jump_ahead(
        &self,
        last: &mut Trial<A>,
        ahead: &mut Trial<A>,
        pace: &mut Pace,
        from: u32,
    ) -> Result<u32, NoMemory>
        requires from { (0 < from) × (from ≤ self.now.max_raises + 1) }
        requires tried { (raises : ℕ) → raises < from
            → is_decisive self.now.pricing.now.measure self.now.pricing.now.supporters.now.grain self.now.election.now self.now.step raises ≡ false }
        requires last { last.old.outcome.elected
            ≡ elected_after self.now.pricing.now.measure self.now.pricing.now.supporters.now.grain self.now.election.now self.now.step (from - 1) }
        ensures range { IfOk result (λ next. (from ≤ next) × (next ≤ self.now.max_raises + 1)) }
        ensures tried { IfOk result (λ next. (raises : ℕ) → raises < next
            → is_decisive self.now.pricing.now.measure self.now.pricing.now.supporters.now.grain self.now.election.now self.now.step raises ≡ false) }
    {
        let mut next = from;
        if !pace.is_due() {
            return Ok(next);
        }
        for _ in 0..MOST_JUMPS {
            let target = pace.target(next, self.max_raises);
            if target <= next {
                return Ok(next);
            }
            if self.jump(last, ahead, next, target)? {
                next = target + 1;
                pace.won();
            } else if !pace.lost() {
                return Ok(next);
            }
        }
        Ok(next)
    }

    /// How many raises the completion decides on, from this number on, none before which decides. They are
    /// tried in groups that grow until each worker has a raise, or each processor where those are fewer,
    /// behind a front that goes on with them. After each group raises are jumped over, as far as they elect
    /// the same.
    fn decide(&self, first: u32) -> Result<Option<u32>, NoMemory>
        requires first { first ≤ self.now.max_raises + 1 }
        requires tried { (raises : ℕ) → raises < first
            → is_decisive self.now.pricing.now.measure self.now.pricing.now.supporters.now.grain self.now.election.now self.now.step raises ≡ false }
        ensures { IfOk result (λ found.
            (add1_of self.now.pricing.now.measure self.now.pricing.now.supporters.now.grain self.now.election.now self.now.step
            self.now.max_raises ≡ found)
            × MatchOption found ⊤ (λ raises. raises ≤ self.now.max_raises)) }
    {
        let pricing = self.pricing;
        let processors = processors(pricing.rt);
        let workers = workers_for_trials(pricing.workers, pricing.supporters);
        let opening = opening_of(self.election, pricing.supporters);
        let mut front = Front::open(pricing.alloc, pricing.measure, pricing.supporters, opening)?;
        let mut trials = Vec::new(pricing.alloc);
        let mut ahead = Trial::new(pricing.alloc);
        let mut pace = Pace::new();
        let mut next = first;
        while next <= self.max_raises {
            self.prepare_group(&mut front, &mut trials, next, workers, processors)?;
            if let Some(raises) = self.try_raises(&front, &mut trials, next)? {
                return Ok(Some(raises));
            }
            tell_pace(&mut pace, trials.as_slice());
            let count = trials.len();
            next = self.jump_ahead(
                &mut trials[count - 1],
                &mut ahead,
                &mut pace,
                next + count as u32,
            )?;
        }
        Ok(None)
    }

    /// Prepares the group of raises from this number on: the front goes on at the share of the first, and
    /// there is a trial for each.
    fn prepare_group(
        &self,
        front: &mut Front<'_, A>,
        trials: &mut Vec<Trial<A>, A>,
        next: u32,
        workers: u32,
        processors: u32,
    ) -> Result<(), NoMemory>
        requires front { IsFront front.old }
        requires of { IsFrontAt self.now.pricing.now.measure self.now.pricing.now.supporters.now
            front.old.outcome.share front.old }
        requires share { front.old.outcome.share ≤ share_after self.now.pricing.now.supporters.now.grain self.now.election.now self.now.step next }
        requires next { next ≤ self.now.max_raises }
        requires last { length trials.old.items ≤ 64 }
        requires workers { (0 < workers) × (workers ≤ 64) × (0 < processors) }
        ensures front { OnOk result (IsFront front.new) }
        ensures of { OnOk result (IsFrontAt self.now.pricing.now.measure self.now.pricing.now.supporters.now
            (share_after self.now.pricing.now.supporters.now.grain self.now.election.now self.now.step next) front.new) }
        ensures some { OnOk result (0 < length trials.new.items) }
        ensures few { OnOk result (length trials.new.items ≤ 64) }
        ensures within { OnOk result (next + length trials.new.items ≤ self.now.max_raises + 1) }
    {
        let opening = opening_of(self.election, self.pricing.supporters);
        let share = raised_share(opening, next, self.step);
        self.pricing.gate.raised(next, share);
        front.extend(share)?;
        let left = self.max_raises + 1 - next;
        resize(self.pricing.alloc, trials, workers, processors, left)
    }
}

/// How many processors there are, or as many as a number can say where that is not known.
fn processors(rt: &impl Threads) -> u32
    ensures { 0 < result }
{
    match thread::available_parallelism(rt) {
        Ok(processors) => u32::try_from(processors.get()).unwrap_or(u32::MAX),
        Err(_) => u32::MAX,
    }
}

/// Makes the trials as many as the next group has, of the raises that are left: twice as many as the last one
/// had, and at least 2, but at most one for each worker and for each processor, since what runs beside others
/// on one processor only delays them.
fn resize<A: Allocator + Copy>(
    alloc: A,
    trials: &mut Vec<Trial<A>, A>,
    workers: u32,
    processors: u32,
    left: u32,
) -> Result<(), NoMemory>
    requires last { length trials.old.items ≤ 64 }
    ensures { OnOk result (length trials.new.items
        ≡ group_size (length trials.old.items) workers processors left) }
{
    let most = workers.min(processors).min(left) as usize;
    let count = (2 * trials.len()).max(2).min(most);
    trials.truncate(count);
    while trials.len() < count {
        trials.push(Trial::new(alloc))?;
    }
    Ok(())
}

/// Tells the pace of each trial of a group, in order.
fn tell_pace<A: Allocator>(pace: &mut Pace, trials: &[Trial<A>]) {
    for trial in trials {
        pace.tried(trial.spent);
    }
}

/// Counts with completion by raises. The first raises that leave room decide nothing and are not run, and the
/// raise that is answered is run once more, with all workers.
pub(crate) fn complete<R: Threads + Sync, G: Gate, A: Allocator + Copy + Send + Sync, B: Allocator>(
    pricing: &Pricing<R, G, A>,
    election: &Election<B>,
    step: Money,
    max_raises: u32,
) -> Result<Outcome<A>, CountFault>
    requires given { CanComplete election.now pricing.now.supporters.now step max_raises }
    ensures completed { IfOk result
        (IsCompletion pricing.now.measure pricing.now.supporters.now.grain election.now pricing.now.workers step max_raises) }
    ensures faults { IfErr result (IsCompletionFault pricing.now.measure pricing.now.supporters.now.grain election.now step max_raises) }
    ensures is_election { IsElection election.now }
{
    let budget = election.budget();
    let opening = opening_of(election, pricing.supporters);
    let first = raises_with_room(pricing.supporters, budget, opening, step, max_raises);
    let raising = Raising {
        pricing,
        election,
        step,
        max_raises,
    };
    match raising.decide(first)? {
        Some(raises) => Ok(outcome_after(pricing, election, step, raises)?),
        None => Err(CountFault::RaisesSpent),
    }
}
