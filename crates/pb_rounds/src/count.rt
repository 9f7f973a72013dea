//! Counts of elections, plain or completed by raises.

ghost use Rattle.std.specs.Prelude.{◌≡◌, ◌+◌, ◌*◌, ◌≤◌, ℕ, List, None, IfOk, IfErr, MatchBool, false};
ghost use Rattle.std.specs.Prelude.{IsOkUnless, MatchResult, length, nat_le, ◌^◌};
ghost use Rattle.pb_core.specs.Election.{IsElection};
ghost use Rattle.pb_core.specs.Money.{largest_money};
ghost use Rattle.pb_price.specs.PriceFault.{is_worker_count};
ghost use Rattle.pb_price.specs.Supporters.{IsSupport, support_in};
ghost use Rattle.pb_rounds.specs.Cheapest.{IsRun};
ghost use Rattle.pb_rounds.specs.Count.{has_too_fine_cost, is_too_fine, opening_share, share_after, share_by, step_of};
ghost use Rattle.pb_rounds.specs.CountFault.{refusal_of};
ghost use Rattle.pb_rounds.specs.Counted.{IsCountFault, IsCountOf};
ghost use Rattle.pb_rounds.specs.PriceSystem.{IsPriceSystem};
ghost use Rattle.pb_rounds.specs.PricingRecord.{HasPricing};
ghost use Rattle.pb_rounds.specs.Inner.RaiseEnds.{CanComplete, IsOutcomeAt};

use crate::count_fault::CountFault;
use crate::measure::Measure;
use crate::options::{Completion, CountOptions, LARGEST_STEP, MOST_RAISES};
use crate::outcome::Outcome;
use crate::pricing::Pricing;
use crate::reach::raised_share;
use crate::run::whole_run;
use crate::side_by_side::complete;
use pb_core::election::Election;
use pb_core::gate::{Gate, NoGate};
use pb_core::money::Money;
use pb_core::no_memory::NoMemory;
use pb_price::{Grain, Supporters, is_worker_count};
use std::alloc::Allocator;
use std::thread::Threads;

/// The first of the options that is out of its range.
fn refusal_of(options: &CountOptions) -> Option<CountFault>
    ensures { result ≡ refusal_of options.now }
{
    if !is_worker_count(options.workers) {
        return Some(CountFault::WorkerCount);
    }
    if options.step < Money(1) || options.step > LARGEST_STEP {
        return Some(CountFault::StepRange);
    }
    if options.max_raises > MOST_RAISES {
        return Some(CountFault::RaisesRange);
    }
    None
}

/// What each voter gets of the budget, down to whole parts of those that are counted.
pub fn opening_share<B: Allocator>(election: &Election<B>, grain: Grain) -> Money
    ensures share { result ≡ opening_share grain election.now }
    ensures small { result ≤ 10000 * largest_money }
    ensures is_election { IsElection election.now }
{
    let voters = election.voters().len() as u32;
    if voters == 0 {
        return Money(0);
    }
    let parts = grain.parts(voters);
    let budget = election.budget();
    let all = u128::from(parts) * u128::from(budget.0);
    Money((all / u128::from(voters)) as u64)
}

/// The same in the parts that these supporters are counted in.
pub(crate) fn opening_of<A: Allocator, B: Allocator>(
    election: &Election<B>,
    supporters: &Supporters<A>,
) -> Money
    ensures share { result ≡ opening_share supporters.now.grain election.now }
    ensures is_support { IsSupport supporters.now }
{
    opening_share(election, supporters.grain())
}

/// What a raise adds to each share, in the parts that are counted.
pub fn step_in_parts<B: Allocator>(election: &Election<B>, options: &CountOptions) -> Money
    requires in_range { refusal_of options.now ≡ None }
    ensures { result ≡ step_of election.now options.now }
{
    let voters = election.voters().len() as u32;
    let parts = options.grain.parts(voters);
    let step = options.step;
    Money(parts * step.0)
}

/// Whether a cost is too large to be counted so finely.
fn has_too_fine_cost<B: Allocator>(election: &Election<B>, grain: Grain) -> bool
    ensures { result ≡ has_too_fine_cost grain election.now }
{
    let voters = election.voters().len() as u32;
    let parts = grain.parts(voters);
    for project in election.projects() {
        if is_too_much(project.cost(), parts) {
            return true;
        }
    }
    false
}

/// Whether an amount of hundredths, of which each has so many parts, is too large.
fn is_too_much(amount: Money, parts: u64) -> bool
    ensures { result ≡ nat_le (2 ^ 64) (parts * amount) }
{
    u128::from(parts) * u128::from(amount.0) > u128::from(u64::MAX)
}

/// The largest share that there can be.
fn largest_share<B: Allocator>(election: &Election<B>, options: &CountOptions) -> u128
    requires in_range { refusal_of options.now ≡ None }
    ensures { result ≡ share_by options.now.completion options.now.grain election.now
        (step_of election.now options.now) options.now.max_raises }
{
    let share = opening_share(election, options.grain);
    let step = step_in_parts(election, options);
    let opening = u128::from(share.0);
    let more = u128::from(options.max_raises) * u128::from(step.0);
    match options.completion {
        Completion::NoShares => 0,
        Completion::Plain => opening,
        Completion::Add1 => opening + more,
    }
}

/// Whether the largest share that there can be, or a cost, is too large to be counted so finely.
fn is_too_fine<B: Allocator>(election: &Election<B>, options: &CountOptions) -> bool
    requires in_range { refusal_of options.now ≡ None }
    ensures { result ≡ is_too_fine election.now options.now }
{
    if largest_share(election, options) > u128::from(u64::MAX) {
        return true;
    }
    has_too_fine_cost(election, options.grain)
}

/// The method of equal shares at one share (Peters, Pierczynski and Skowron 2021, with whole payments): while
/// a project that is left has a price, the one with the least price is elected, under measure cost the one
/// with the least price over cost, the earliest among equals, and each of its supporters pays the
/// price, or all that is left to them where that is less.
///
/// The first round prices every project, the later ones those whose last known price could still be the best.
/// The workers price side by side, each project a piece, and meet the gate before each piece; what is elected
/// is the same for any number of them.
///
/// Measure, money and workers are those of the options. WorkerCount is answered where the number of workers is not
/// 1 to 64, TooFine where a cost is too large to be counted so finely, and NoMemory where an allocation was refused.
pub fn equal_shares<R: Threads + Sync, G: Gate, A: Allocator + Send + Sync, B: Allocator>(
    rt: &R,
    alloc: A,
    election: &Election<B>,
    share: Money,
    options: &CountOptions,
    gate: &G,
) -> Result<Outcome<A>, CountFault>
where
    A: Copy,
    // which refusals come
    ensures refused { MatchBool (is_worker_count options.now.workers)
        (MatchBool (has_too_fine_cost options.now.grain election.now) (result ≡ Err CountFault.TooFine)
        (IsOkUnless result CountFault.NoMemory)) (result ≡ Err CountFault.WorkerCount) }
    // what is answered
    ensures outcome { IfOk result (λ o. (o.share ≡ share) × (o.raised ≡ 0)
        × IsRun options.now.measure (support_in options.now.grain election.now) share o.elected o.rests) }
    ensures priced { IfOk result (λ o. HasPricing options.now.measure (support_in options.now.grain election.now)
        options.now.workers share o.elected o.priced) }
    ensures one_more { IfOk result (λ o. length o.priced ≡ length o.elected + 1) }
    ensures price_system { IfOk result (λ o. (payments : List (List ℕ))
        × IsPriceSystem (support_in options.now.grain election.now) share o.elected o.rests payments) }
{
    if !is_worker_count(options.workers) {
        return Err(CountFault::WorkerCount);
    }
    if has_too_fine_cost(election, options.grain) {
        return Err(CountFault::TooFine);
    }
    let supporters = Supporters::build_in(alloc, election, options.grain)?;
    let pricing = Pricing {
        rt,
        gate,
        alloc,
        workers: options.workers,
        measure: options.measure,
        supporters: &supporters,
    };
    let outcome = whole_run(&pricing, share, 0)?;
    Ok(outcome)
}

/// Counts an election: the outcome at the opening share, or with completion by raises the first one that is
/// exhausted, or the last one before the first that is over the budget. It is fair to groups
/// (`laws::outcomes_are_fair_to_groups`).
///
/// The options are checked first, workers, step and raises in this order, whatever the completion; then whether the
/// amounts can be counted so finely.
pub fn count<R: Threads + Sync, A: Allocator + Send + Sync, B: Allocator>(
    rt: &R,
    alloc: A,
    election: &Election<B>,
    options: &CountOptions,
) -> Result<Outcome<A>, CountFault>
where
    A: Copy,
    ensures { MatchResult result (IsCountOf election.now options.now) (IsCountFault election.now options.now) }
{
    count_watched(rt, alloc, election, options, &NoGate)
}

/// Counts as `count` does, and tells the gate of raises before they are tried.
pub fn count_watched<R: Threads + Sync, G: Gate, A: Allocator + Send + Sync, B: Allocator>(
    rt: &R,
    alloc: A,
    election: &Election<B>,
    options: &CountOptions,
    gate: &G,
) -> Result<Outcome<A>, CountFault>
where
    A: Copy,
    ensures { MatchResult result (IsCountOf election.now options.now) (IsCountFault election.now options.now) }
{
    if let Some(fault) = refusal_of(options) {
        return Err(fault);
    }
    if is_too_fine(election, options) {
        return Err(CountFault::TooFine);
    }
    count_in_range(rt, alloc, election, options, gate)
}

/// Counts an election, with options that are in their ranges.
fn count_in_range<R: Threads + Sync, G: Gate, A: Allocator + Copy + Send + Sync, B: Allocator>(
    rt: &R,
    alloc: A,
    election: &Election<B>,
    options: &CountOptions,
    gate: &G,
) -> Result<Outcome<A>, CountFault>
    requires in_range { refusal_of options.now ≡ None }
    requires countable { is_too_fine election.now options.now ≡ false }
    ensures counted { IfOk result (IsCountOf election.now options.now) }
    ensures faults { IfErr result (IsCountFault election.now options.now) }
{
    let supporters = Supporters::build_in(alloc, election, options.grain)?;
    let step = step_in_parts(election, options);
    let pricing = Pricing {
        rt,
        gate,
        alloc,
        workers: options.workers,
        measure: options.measure,
        supporters: &supporters,
    };
    match options.completion {
        Completion::Plain => {
            let outcome = outcome_after(&pricing, election, step, 0)?;
            Ok(outcome)
        }
        Completion::NoShares => {
            let outcome = whole_run(&pricing, Money(0), 0)?;
            Ok(outcome)
        }
        Completion::Add1 => complete(&pricing, election, step, options.max_raises),
    }
}

/// The outcome after this many raises.
pub(crate) fn outcome_after<
    R: Threads + Sync,
    G: Gate,
    A: Allocator + Copy + Send + Sync,
    B: Allocator,
>(
    pricing: &Pricing<R, G, A>,
    election: &Election<B>,
    step: Money,
    raised: u32,
) -> Result<Outcome<A>, NoMemory>
    requires given { CanComplete election.now pricing.now.supporters.now step raised }
    ensures { IfOk result (IsOutcomeAt pricing.now.measure pricing.now.supporters.now pricing.now.workers
        (share_after pricing.now.supporters.now.grain election.now step raised) raised) }
{
    let opening = opening_of(election, pricing.supporters);
    let share = raised_share(opening, raised, step);
    whole_run(pricing, share, raised)
}
