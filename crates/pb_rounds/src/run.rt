//! A run: round by round until no project that is left has a price.

ghost use Rattle.std.specs.Prelude.{◌≡◌, ◌≤◌, [], length, replicate, IfOk, OnOk};
ghost use Rattle.pb_price.specs.Price.{largest_share};
ghost use Rattle.pb_rounds.specs.Inner.Queue.{IsFull};
ghost use Rattle.pb_rounds.specs.Inner.RaiseEnds.{IsOutcomeAt};

use crate::key::Key;
use crate::outcome::Outcome;
use crate::pricing::Pricing;
use crate::queue::{fill, put_back};
use crate::round::{Fresh, elect};
use pb_core::gate::Gate;
use pb_core::money::Money;
use pb_core::no_memory::NoMemory;
use std::alloc::Allocator;
use std::collections::BTreeSet;
use std::thread::Threads;

/// What a run keeps beside its outcome.
#[derive(Drop)]
pub(crate) struct Run<A: Allocator> {
    /// The projects that may still be paid, with the price that each had when it was last priced in this run.
    pub(crate) queue: BTreeSet<Key, A>,
    /// The projects priced in this round, by place.
    pub(crate) places: Vec<u32, A>,
    /// The keys of those that have a price.
    pub(crate) fresh: Fresh<A>,
}

impl<A: Allocator> Run<A> {
    fn new(alloc: A) -> Run<A>
    where
        A: Copy,
    {
        Run {
            queue: BTreeSet::new(alloc),
            places: Vec::new(alloc),
            fresh: Fresh::new(alloc),
        }
    }

    /// Begins a run: every project is in the queue, and nobody is elected.
    fn start<R, G>(
        &mut self,
        pricing: &Pricing<R, G, A>,
        share: Money,
        raised: u32,
        outcome: &mut Outcome<A>,
    ) -> Result<(), NoMemory>
    where
        A: Copy,
        ensures queue { OnOk result (IsFull pricing.now.measure pricing.now.supporters.now
            (length pricing.now.supporters.now.costs) self.new.queue.keys) }
        ensures outcome { OnOk result (outcome.new
            ≡ record {
              share = share;
              raised = raised;
              elected = [];
              rests = replicate pricing.now.supporters.now.voters share;
              priced = [];
            }) }
    {
        fill(&mut self.queue, pricing.measure, pricing.supporters)?;
        open(outcome, share, raised, pricing.supporters.voters())?;
        Ok(())
    }

    /// Runs at this share, into an outcome whose lists are used again.
    fn run<R: Threads + Sync, G: Gate>(
        &mut self,
        pricing: &Pricing<R, G, A>,
        share: Money,
        raised: u32,
        outcome: &mut Outcome<A>,
    ) -> Result<(), NoMemory>
    where
        A: Copy + Send + Sync,
        requires share { share ≤ largest_share }
        ensures { OnOk result (IsOutcomeAt pricing.now.measure pricing.now.supporters.now pricing.now.workers
            share raised outcome.new) }
    {
        let supporters = pricing.supporters;
        let projects = supporters.projects();
        self.start(pricing, share, raised, outcome)?;
        let mut most = projects.max(1);
        while let Some(best) = self.price_round(pricing, most, outcome)? {
            elect(supporters, best, outcome)?;
            put_back(&mut self.queue, self.fresh.keys.as_slice(), best.place())?;
            most = pricing.workers;
        }
        Ok(())
    }
}

/// The outcome of a whole run at this share, after this many raises.
pub(crate) fn whole_run<R: Threads + Sync, G: Gate, A: Allocator + Copy + Send + Sync>(
    pricing: &Pricing<R, G, A>,
    share: Money,
    raised: u32,
) -> Result<Outcome<A>, NoMemory>
    requires share { share ≤ largest_share }
    ensures { IfOk result
        (IsOutcomeAt pricing.now.measure pricing.now.supporters.now pricing.now.workers share raised) }
{
    let mut outcome = Outcome::unfilled(pricing.alloc);
    let mut run = Run::new(pricing.alloc);
    let end = run.run(pricing, share, raised, &mut outcome);
    drop(run);
    end?;
    Ok(outcome)
}

/// Puts the opening of a run in place of what the outcome held: every rest is the share, and nobody is
/// elected.
pub(crate) fn open<A: Allocator>(
    outcome: &mut Outcome<A>,
    share: Money,
    raised: u32,
    voters: u32,
) -> Result<(), NoMemory>
    ensures { OnOk result (outcome.new
        ≡ record {
          share = share;
          raised = raised;
          elected = [];
          rests = replicate voters share;
          priced = [];
        }) }
{
    outcome.share = share;
    outcome.raised = raised;
    outcome.elected.clear();
    outcome.priced.clear();
    outcome.rests.clear();
    outcome.rests.resize(voters as usize, share)?;
    Ok(())
}
