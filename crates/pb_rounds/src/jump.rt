//! Jumps over raises that elect the same projects as the last one that was tried.

ghost use Rattle.std.specs.Prelude.{◌≡◌, ◌≤◌, ℕ, All, List, [], IfOk, OnOk, length, replicate, true};
ghost use Rattle.std.specs.List.{range_with_len};
ghost use Rattle.pb_price.specs.Price.{AreRests, HasPayers, largest_share};
ghost use Rattle.pb_price.specs.Supporters.{IsSupport};
ghost use Rattle.pb_rounds.specs.Inner.Between.{KeepsElecting};
ghost use Rattle.pb_rounds.specs.Inner.Bounds.{Follows, HasBounds, IsOpening};
ghost use Rattle.pb_rounds.specs.Run.{run_of};
ghost use Rattle.pb_rounds.specs.declared.measure.Measure.{Measure};

use crate::bounds::{fill_opening, next_best};
use crate::key::Key;
use crate::measure::Measure;
use crate::outcome::Elected;
use crate::round::elect;
use crate::run::open;
use crate::trial::Trial;
use pb_core::money::Money;
use pb_core::no_memory::NoMemory;
use pb_price::supporters::Supporters;
use std::alloc::Allocator;

impl<A: Allocator + Copy> Trial<A> {
    /// Whether the projects that a smaller share elects are elected at this share too, and at every share in
    /// between: at each round of this share the project elected last time is the best, and no other left
    /// comes before or beside the price that it had at the smaller share; at the end nobody is left who can
    /// be paid. Then the outcome has whom this share elects.
    pub(crate) fn keeps(
        &mut self,
        measure: Measure,
        supporters: &Supporters<A>,
        share: Money,
        last: &[Elected],
    ) -> Result<bool, NoMemory>
        requires share { share ≤ largest_share }
        requires last { All (λ w. HasPayers supporters.now w.exact) last.now }
        ensures keeps { IfOk result (λ keeps. keeps ≡ true → KeepsElecting measure supporters.now last.now
            (replicate supporters.now.voters share) (range_with_len 0 (length supporters.now.costs))) }
        ensures elected { IfOk result (λ keeps. keeps ≡ true
            → self.new.outcome.elected ≡ (run_of measure supporters.now share).elected) }
    {
        self.start(measure, supporters, share)?;
        for elected in last {
            if !self.follows(supporters, elected)? {
                return Ok(false);
            }
        }
        let rests = self.outcome.rests.as_slice();
        let more = next_best(supporters, rests, &None, &mut self.queue)?;
        Ok(more.is_none())
    }

    /// Begins a run at this share: the queue has who can be paid, nobody is elected, and every rest is the
    /// share.
    fn start(
        &mut self,
        measure: Measure,
        supporters: &Supporters<A>,
        share: Money,
    ) -> Result<(), NoMemory>
        requires { share ≤ largest_share }
        ensures support { OnOk result (IsSupport supporters.now) }
        ensures queue { OnOk result
            (IsOpening measure supporters.now share (length supporters.now.costs) self.new.queue.keys) }
        ensures outcome { OnOk result (self.new.outcome
            ≡ record {
              share = share;
              raised = 0;
              elected = [];
              rests = replicate supporters.now.voters share;
              priced = [];
            }) }
    {
        fill_opening(&mut self.queue, measure, supporters, share)?;
        open(&mut self.outcome, share, 0, supporters.voters())?;
        Ok(())
    }

    /// Whether this round elects the project that was elected at a smaller share, while no other comes before
    /// or beside its price there. Then its supporters pay.
    fn follows(&mut self, supporters: &Supporters<A>, last: &Elected) -> Result<bool, NoMemory>
        requires support { IsSupport supporters.now }
        requires last { HasPayers supporters.now last.now.exact }
        requires rests { AreRests supporters.now.voters self.old.outcome.rests }
        requires bounds { (m : Measure) × (left : List ℕ)
            × HasBounds m supporters.now self.old.outcome.rests left self.old.queue.keys }
        ensures { (m : Measure) (left : List ℕ)
            → HasBounds m supporters.now self.old.outcome.rests left self.old.queue.keys
            → IfOk result (λ follows. follows ≡ true
            → Follows m supporters.now left last.now self.old.outcome self.new.outcome self.new.queue.keys) }
    {
        let (queue, outcome) = (&mut self.queue, &mut self.outcome);
        let rests = outcome.rests.as_slice();
        let Some(best) = next_best(supporters, rests, &None, queue)? else {
            return Ok(false);
        };
        if best.place() != last.place {
            return Ok(false);
        }
        let limit = Some(Key::new(last.exact, best.weight(), best.place()));
        let other = next_best(supporters, rests, &limit, queue)?;
        if other.is_some() {
            return Ok(false);
        }
        elect(supporters, best, outcome)?;
        Ok(true)
    }
}
