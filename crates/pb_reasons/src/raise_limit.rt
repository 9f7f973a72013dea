//! A limit of raises with which a completion ends, where those that were allowed are spent.

ghost use Rattle.std.specs.Prelude.{◌≡◌, ◌≢◌, ◌*◌, ◌<◌, ◌≤◌, IfErr, IfOk, Some};
ghost use Rattle.pb_rounds.specs.CountFault.{most_raises};
ghost use Rattle.pb_rounds.specs.Counted.{IsCountOf};
ghost use Rattle.pb_rounds.specs.declared.count_fault.CountFault.TheVariants.{RaisesSpent};
ghost use Rattle.pb_reasons.specs.RaiseLimit.{IsLimit};
ghost use Rattle.pb_reasons.specs.Inner.Strides.{by_strides};

use crate::raise_end::is_exhausted;
use pb_core::election::Election;
use pb_core::gate::Gate;
use pb_core::money::Money;
use pb_core::no_memory::NoMemory;
use pb_rounds::count::count_watched;
use pb_rounds::count_fault::CountFault;
use pb_rounds::options::{Completion, CountOptions, LARGEST_STEP, MOST_RAISES};
use pb_rounds::outcome::Outcome;
use std::alloc::Global;
use std::thread::Threads;

/// How often a stride is halved: the longest has 524,288 raises.
const MOST_HALVINGS: u32 = 19;

/// A limit of raises with which a completion by raises ends.
#[derive(Clone, Copy)]
pub enum RaiseLimit {
    /// The least one.
    Least(u32),
    /// One of them: perhaps a smaller one is enough.
    Enough(u32),
}

/// Says for how long a search goes on.
pub trait Patience {
    /// Whether there is time for as much again as has been done so far.
    fn has_time(&self) -> bool;
}

/// Strides of so many raises, and how many strides there are at most.
#[derive(Clone, Copy)]
pub(crate) struct Strides {
    pub(crate) length: u32,
    pub(crate) most: u32,
}

/// Looks for a limit of raises with which the completion of this election ends, by the step and the measure of
/// these options.
///
/// It counts with long strides first: a share that is reached by strides is reached by single steps as well.
/// Each stride is half of the one before, so each count takes about twice as long as the last one. The first
/// ones go no further than as many strides as raises were allowed. None is answered where these end nothing.
pub fn find_raise_limit<T: Threads + Sync, G: Gate, P: Patience>(
    rt: &T,
    election: &Election,
    options: &CountOptions,
    gate: &G,
    patience: &P,
) -> Result<Option<RaiseLimit>, CountFault>
where
    T: AllocGlobal,
    ensures found { IfOk result (λ found. (limit : RaiseLimit) → found ≡ Some limit
        → IsLimit election.now options.now limit) }
    ensures fault { IfErr result (λ fault. fault ≢ RaisesSpent) }
{
    let mut strides = longest_strides(options);
    let mut found = None;
    'halving: for _halving in 0..=MOST_HALVINGS {
        let limit = match limit_by_strides(rt, election, options, gate, strides) {
            Ok(limit) => limit,
            Err(CountFault::RaisesSpent | CountFault::TooFine) => return Ok(found),
            Err(fault) => return Err(fault),
        };
        found = Some(limit);
        match limit {
            RaiseLimit::Enough(raises) if patience.has_time() => {
                strides = halved(strides.length, raises)
            }
            _ => return Ok(found),
        }
    }
    Ok(found)
}

/// The longest strides, a power of two, that lift a share by no more than one raise may.
fn longest_strides(options: &CountOptions) -> Strides
    ensures { result.most * result.length ≤ most_raises }
{
    let mut length: u32 = 1;
    'doubling: for _doubling in 0..MOST_HALVINGS {
        let twice = length.saturating_mul(2);
        if options.step.0.saturating_mul(u64::from(twice)) <= LARGEST_STEP.0 {
            length = twice;
        }
    }
    let all = MOST_RAISES / length;
    let most = all.min(options.max_raises.max(1));
    Strides { length, most }
}

/// Strides half as long, as many as this limit of raises has of them.
fn halved(length: u32, raises: u32) -> Strides
    requires { raises ≤ most_raises }
    ensures { result.most * result.length ≤ most_raises }
{
    let half = (length / 2).max(1);
    Strides {
        length: half,
        most: raises / half,
    }
}

/// The limit of raises that a count by these strides finds.
fn limit_by_strides<T: AllocGlobal + Threads + Sync, G: Gate>(
    rt: &T,
    election: &Election,
    options: &CountOptions,
    gate: &G,
    strides: Strides,
) -> Result<RaiseLimit, CountFault>
    requires { strides.most * strides.length ≤ most_raises }
    ensures { IfOk result (IsLimit election.now options.now) }
{
    let outcome = outcome_by_strides(rt, election, options, gate, strides)?;
    let limit = limit_of(rt.alloc(), election, options, &outcome, strides);
    drop(outcome);
    Ok(limit?)
}

/// What a completion by these strides comes to.
fn outcome_by_strides<T: AllocGlobal + Threads + Sync, G: Gate>(
    rt: &T,
    election: &Election,
    options: &CountOptions,
    gate: &G,
    strides: Strides,
) -> Result<Outcome, CountFault>
    ensures { IfOk result (IsCountOf election.now (by_strides options.now strides)) }
{
    let strided = CountOptions {
        step: Money(options.step.0.saturating_mul(u64::from(strides.length))),
        max_raises: strides.most,
        completion: Completion::Add1,
        ..*options
    };
    count_watched(rt, rt.alloc(), election, &strided, gate)
}

/// The limit of raises to which the outcome of a count by these strides leads.
fn limit_of(
    alloc: Global,
    election: &Election,
    options: &CountOptions,
    outcome: &Outcome,
    strides: Strides,
) -> Result<RaiseLimit, NoMemory>
    requires few { strides.most * strides.length ≤ most_raises }
    requires counted { IsCountOf election.now (by_strides options.now strides) outcome.now }
    ensures { IfOk result (IsLimit election.now options.now) }
{
    // What is true of every election is true of its supporters.
    let _budget = election.budget();
    let raised = outcome.raised;
    if strides.length != 1 {
        let most = (raised + 1).min(strides.most);
        return Ok(RaiseLimit::Enough(most * strides.length));
    }
    if is_exhausted(alloc, election, outcome)? {
        return Ok(RaiseLimit::Least(raised));
    }
    Ok(RaiseLimit::Least(raised + 1))
}
